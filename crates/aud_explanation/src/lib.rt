//! One session's explanation: its data, its text, and its JSON.
//!
//! Begin at [`Explanation`], which whoever found the evidence fills. [`push_text`] writes it for a reader, and
//! [`explanation_json`] for a program; both say in which of several files a line stands. [`named`] is how names that
//! others chose stand in a line, and [`printed`] how a line is printed. [`whole_record_text`] and [`whole_record_json`] write a record that is asked for by its
//! number.
//!
//! ```
//! use aud_explanation::{Explanation, push_text};
//! use aud_verdict::Verdict;
//!
//! let verdict = Verdict::Yes { got: 1, tail: 0, turns: 1 };
//! let explanation = Explanation {
//!     pid: "P",
//!     verdict: &verdict,
//!     client: None,
//!     account: None,
//!     turns: &[],
//!     evidence: &[],
//!     also: &[],
//!     also_left: 0,
//!     alike: &[],
//!     refused: &[],
//!     events: &[],
//!     causes: &[],
//!     refuted: &[],
//! };
//! let mut out = String::new(alloc);
//! push_text(alloc, &mut out, &[], &explanation)?;
//! let text = "yes P got=1 tail=0 turns=1\nno one client, turns 0, delivery not judged\n";
//! assert_eq!(rt; out.as_str(), text);
//! ```
#![tactic(auto)]

mod also;
mod cause;
mod client;
mod escape;
mod event;
mod explanation;
mod json_line;
mod long;
mod long_rows;
mod name;
mod refused;
mod tail;
mod text;
mod turn;
mod whole_record;

pub use also::Also;
pub use cause::{Cause, CauseOf, CauseState};
pub use client::{Account, Client};
pub use escape::{printed, printed_apart, push_json_printed, push_printed};
pub use event::{ClientEvent, Happens};
pub use explanation::{Explanation, class_of_explained};
pub use json_line::explanation_json;
pub use name::{named, names_apart};
pub use refused::{Missed, RefusedRecovery};
pub use text::push_text;
pub use turn::{TurnBegin, TurnEnd, TurnShown};
pub use whole_record::{whole_record_json, whole_record_text};

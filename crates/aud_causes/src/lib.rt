//! What a fault may come from: of the causes that such a fault can have those that hold over the records of the
//! session, in a fixed order, each with how it stands beside the others. The same of a recovery that was refused.
//!
//! With the `sheet` of a recording in which the client of session `P` got entry 2 again from node `b`, which took the
//! session back with its cursor at 1, where node `a` had broken at 4, in the lines 17 and 13; `tap` is that of the
//! client:
//!
//! ```
//! use aud_causes::{Noted, causes_of};
//! use aud_explanation::CauseState;
//!
//! let verdict = decide(alloc, sheet.recording, "P", false)?;
//! let account = account_of(alloc, sheet.recording, "P")?;
//! let noted = Noted { unordered: Vec::new(alloc), orphan: None };
//! let causes = causes_of(alloc, sheet, Some(&tap), "P", &verdict, account.as_ref(), &noted)?;
//! assert_eq!(rt; causes[0].id, "node-behind-break");
//! assert_eq!(rt; causes[0].state, CauseState::Certain);
//! assert_eq!(rt; causes[0].lines.as_slice(), [13, 17].as_slice());
//! let why = "b took the session back with its cursor at 1; the break was at 4.";
//! assert_eq!(rt; causes[0].why.as_str(), why);
//! ```
#![tactic(auto)]

mod bodies;
mod candidates;
mod cause;
mod causes;
mod changed;
mod contents;
mod delivery;
mod extra;
mod facts;
mod found;
mod law;
mod lines;
mod list;
mod names;
mod orphans;
mod recorded;
mod refusal;
mod shown;
mod texts;
mod turns;
mod twice;
mod why;
mod words;

pub use candidates::{refuted, refuted_of_refusal};
pub use causes::{Noted, causes_of};
pub use found::CauseFound;
pub use law::{causes_of_refusals_are_candidates, told_causes_are_candidates};
pub use refusal::causes_of_refusal;

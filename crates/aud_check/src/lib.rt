//! Checks certificates: whether a session received exactly what was due to it, in every run of the logs.
//!
//! Begin at [`check`]; [`Refusal`] says what it looks for, and in which order. [`check_delivery`] is its end, for
//! certificates that were made here.
//!
//! With the `recording` of `examples/bundle_a.jsonl`:
//!
//! ```
//! use aud_cert::read_cert;
//! use aud_check::check;
//!
//! let text = r#"{"client":"c1","pid":"P","spans":[["r",1,1],["s1",1,1]],"turns":[["a",1,4,0,1]]}"#;
//! let cert = read_cert(alloc, text.as_bytes(), recording.logs())?;
//! let answer = match check(alloc, recording, &cert) {
//!     Ok(accepted) => format!(in alloc; "ok {accepted}")?,
//!     Err(refusal) => format!(in alloc; "bad {refusal}")?, // "bad K9 Span", say
//! };
//! assert_eq!(rt; answer.as_str(), "ok got=1 tail=0 turns=1");
//! ```
#![tactic(auto)]

mod certificate;
mod client;
mod content;
mod difference;
mod due;
mod finding;
mod parting;
mod place;
mod received;
mod refusal;
mod session;
mod spans;
mod stays;
mod turn;
mod turn_end;
mod window;
mod words;

pub use certificate::{Accepted, check, check_delivery};
pub use content::{Altered, Part, part_of};
pub use difference::Difference;
pub use finding::{Finding, first_finding};
pub use refusal::Refusal;
pub use stays::frames_in;
pub use window::{BadWindow, Misfit};

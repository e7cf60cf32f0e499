//! The verdict on a session, in words that know no certificate; what the acceptance of a certificate means; and the
//! text of a report.
//!
//! Begin at [`judge`], which finds the verdict, and where it is yes the certificate that shows it; [`decide`] keeps the
//! verdict alone, and asks for the whole where it is told to; [`judge_made`] finds it where the certificate is made
//! already. [`verdict_by_certificate`] says that what is found is the verdict. [`report_on`] writes the verdicts,
//! [`proving_on`] certificates in their place, and [`refusal`] the name of a refused line.
//!
//! With the `recording` of `examples/lost_event.jsonl`, in which a replay leaves out an event:
//!
//! ```
//! use aud_verdict::{Verdict, decide};
//!
//! let verdict = decide(alloc, recording, "P", false)?;
//! let words = match &verdict {
//!     Verdict::Yes { got, tail, turns } => {
//!         format!(in alloc; "yes got={got} tail={tail} turns={turns}")?
//!     }
//!     Verdict::No(fault) => format!(in alloc; "no {fault}")?,
//! };
//! assert_eq!(rt; words.as_str(), "no LOST 2-0");
//! ```
//!
//! A report:
//!
//! ```
//! use aud_tap::Text;
//! use aud_verdict::{SessionVerdict, Status, Verdict, report_on};
//!
//! let pid = Text::new(alloc, "P")?;
//! let verdict = Verdict::Yes { got: 1, tail: 0, turns: 1 };
//! let output = report_on(alloc, &[SessionVerdict { pid, verdict }])?;
//! assert_eq!(rt; output.status, Status::AllYes);
//! assert_eq!(rt; output.text.as_str(), "yes P got=1 tail=0 turns=1\nsessions=1 yes=1 no=0\n");
//! ```
#![tactic(auto)]

mod acceptance;
mod judging;
mod laws;
mod output;
mod proving;
mod report;
mod verdict;

pub use acceptance::{
    accepted_exactly, accepted_in_every_run, made_is_whole, read_is_over, refused_in_no_run,
    tail_refuses_none,
};
pub use judging::{Judged, decide, judge, judge_made};
pub use laws::{verdict_by_certificate, verdict_in_every_run, verdict_is_one, verdict_of_whole};
pub use output::{Output, Status, proving_on, refusal, report_on, status_of};
pub use verdict::{SessionVerdict, Verdict};

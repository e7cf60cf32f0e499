//! The auditor as one call: [`run`] reads a bundle, decides, and writes the report.
//!
//! [`options`] reads the words of the command line, and [`Watched`] says afterwards whether it was
//! the reader or the writer that failed.
//!
//! With the bytes of `examples/bundle_a.jsonl` as `bundle`; any reader and writer will do:
//!
//! ```
//! use aud_app::{Status, Watched, options, run};
//! use std::hash::RandomState;
//!
//! let options = options(alloc, &["audit"])?;
//! let keys = RandomState::new(&rt)?;
//! let mut input = Watched::new(bundle);
//! let mut output = Watched::new(Vec::new(alloc));
//! let status = run(&rt, alloc, keys, &mut input, &mut output, options)?;
//! assert_eq!(rt; status, Status::AllYes);
//! let report = output.into_inner();
//! let written = str::from_utf8(&report)?;
//! assert_eq!(rt; written, "yes P got=1 tail=0 turns=1\nsessions=1 yes=1 no=0\n");
//! ```
//!
//! [`answers`] is what `verify` finds: it reads each certificate of an input over the recording and checks it, several
//! at a time. With the `recording` of `examples/bundle_a.jsonl`, and as `lines` the one with its certificate, line 12:
//!
//! ```
//! use aud_app::{answers, verification_on};
//!
//! let all = answers(&rt, alloc, 4, recording, lines)?;
//! let output = verification_on(alloc, &all)?;
//! assert_eq!(rt; output.text.as_str(), "ok 12 P got=1 tail=0 turns=1\ncerts=1 ok=1 bad=0\n");
//! ```
#![tactic(auto)]

mod answer;
mod audit;
mod certificates;
mod lines;
mod order;
mod output;
mod program;
mod upgraded;
mod verify;
mod written;

pub use answer::{Answer, Answered};
pub use aud_base::{RunFault, Watched};
pub use aud_cli::{InputFiles, Mode, Options, files, options};
pub use aud_input::READ_LIMIT;
pub use aud_verdict::Status;
pub use lines::verification_on;
pub use program::run;
pub use verify::answers;

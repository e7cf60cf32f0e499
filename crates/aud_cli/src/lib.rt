//! The command line: [`options`] reads the arguments of the modes that read a bundle and [`files`] the files that they
//! name; [`explain_asked`] reads those of `explain`, [`split_asked`] those of `split`, and [`merge_asked`] those of
//! `merge`. The parser has the help, and says why arguments are refused.
//!
//! The arguments after the program's name:
//!
//! ```
//! use aud_cli::{Mode, files, options};
//!
//! let words = ["audit", "--workers", "64", "a.jsonl"];
//! let chosen = options(alloc, &words)?;
//! assert_eq!(rt; chosen.mode, Mode::Audit);
//! assert_eq!(rt; chosen.workers, 64);
//! assert_eq!(rt; files(alloc, &words)?.names.as_slice().len(), 1);
//! let refused = options(alloc, &["audit", "--workers", "65"]);
//! assert!(rt; refused.is_err());
//! ```
//!
//! ```
//! use aud_cli::{OutputForm, explain_asked};
//!
//! let asked = explain_asked(alloc, &["explain", "--json", "--fail-on", "delivery,refused", "a.jsonl"])?;
//! assert_eq!(rt; asked.form, OutputForm::Json);
//! assert!(rt; asked.fail_on.refused && !asked.fail_on.packets);
//! assert_eq!(rt; asked.files.as_slice().len(), 1);
//! ```
//!
//! ```
//! use aud_cli::explain_asked;
//!
//! let asked = explain_asked(alloc, &["explain", "--record", "a", "3", "4", "a.jsonl"])?;
//! let [third, fourth] = asked.records.as_slice() else { unreachable!() };
//! assert_eq!(rt; third.tap.as_str(), "a");
//! assert_eq!(rt; fourth.number, 4);
//! ```
//!
//! ```
//! use aud_cli::{PartsWanted, split_asked};
//!
//! let asked = split_asked(alloc, &["split", "--bytes", "64M", "--into", "parts", "a.jsonl"])?;
//! assert_eq!(rt; asked.parts, PartsWanted::Bytes(67_108_864));
//! ```
#![tactic(auto)]

mod arguments;
mod choice;
mod explain_arguments;
mod explain_options;
mod fail_on;
mod faults;
mod given;
mod help;
mod merge_arguments;
mod merge_options;
mod names;
mod once;
mod only;
mod output_form;
mod parser;
mod sizes;
mod split_arguments;
mod split_options;

pub use arguments::{files, options, workers_named};
pub use choice::{InputFiles, Mode, Options};
pub use explain_arguments::explain_asked;
pub use explain_options::{ExplainOptions, NamedRecord};
pub use fail_on::FailOn;
pub use faults::Faults;
pub use merge_arguments::merge_asked;
pub use merge_options::MergeOptions;
pub use only::Only;
pub use output_form::OutputForm;
pub use split_arguments::split_asked;
pub use split_options::{PartsWanted, SplitOptions};

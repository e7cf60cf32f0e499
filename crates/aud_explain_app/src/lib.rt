//! The mode `explain` as one call: [`explain`] reads the files of a bundle, judges, and writes why sessions are
//! answered no; or it writes the records that are asked for by their numbers.
//!
//! With the bytes of a bundle as `bundle`, and `options` those of `aud_cli::explain_asked`:
//!
//! ```
//! use aud_explain_app::explain;
//! use aud_base::Watched;
//! use std::hash::RandomState;
//!
//! let keys = RandomState::new(&rt)?;
//! let mut files = [Watched::new(bundle)];
//! let mut output = Watched::new(Vec::new(alloc));
//! let ending = explain(&rt, alloc, keys, &mut files, &mut output, &options, None)?;
//! // ending.status, and ending.left_out: the sessions of the words that --only leaves out
//! ```
//!
//! The summary has the figures of the recording: [`summary_of`] counts them, and [`summary_text`] and [`summary_json`]
//! write them, and how many sessions have each cause. With the `recording` of `examples/bundle_a.jsonl`, its one verdict
//! a yes, no recovery asked for, and `input` the 11 lines of the bundle:
//!
//! ```
//! use aud_explain_app::summary_of;
//!
//! let summary = summary_of(recording, verdicts, &[], input);
//! assert_eq!(rt; (summary.sessions, summary.yes, summary.no), (1, 1, 0));
//! assert_eq!(rt; (summary.entries.all, summary.entries.recoverable), (1, 1));
//! ```
#![tactic(auto)]

mod alike;
mod asked;
mod causes_told;
mod chosen;
mod ending;
mod events;
mod explained;
mod fault;
mod html;
mod lent;
mod noted;
mod output;
mod page;
mod prepared;
mod program;
mod records;
mod refused;
mod refused_told;
mod sessions;
mod shown;
mod status;
mod strangers;
mod summary;
mod turns;
mod written;

pub use ending::Ending;
pub use fault::{ExplainFault, Unexplained};
pub use program::explain;
pub use summary::causes::{CausesTold, cause_names};
pub use summary::counts::{Classes, Entries, Faults, Tails};
pub use summary::json::summary_json;
pub use summary::text::summary_text;
pub use summary::{Input, Recoveries, Summary, says_nothing, summary_of};

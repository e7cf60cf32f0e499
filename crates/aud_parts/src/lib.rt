//! The parts of a recording, for audits on several machines: which sessions make a part, what a part keeps of the taps,
//! and the one report of the reports on the parts.
//!
//! Begin at [`TapIndex`], which finds the taps of files too large to be held, and [`plan_parts`], which says which part
//! each session is in; [`Planned`] writes a part, and [`merge`] makes the report on the whole.
#![tactic(auto)]

mod clients;
mod cut;
mod listing;
mod merging;
mod named_lines;
mod part;
mod plan;
mod servers;
mod tap_index;

pub use clients::facts::{ClientFacts, client_facts};
pub use clients::measured::MeasuredClient;
pub use clients::{ClientsRead, read_clients};
pub use listing::fault::ListingFault;
pub use listing::reading::read_listing;
pub use listing::{ListedSession, Listing, listing_of_plan, listing_text};
pub use merging::fault::{MergeFault, ReportFault};
pub use merging::laws::{merges_lines, merges_reports};
pub use merging::{MergeAnswer, Merged, merge};
pub use named_lines::fault::LinesFault;
pub use named_lines::{lines_text, read_lines};
pub use part::lines::server_lines;
pub use part::part_taps;
pub use part::server_text::ServerText;
pub use part::text::Planned;
pub use plan::fault::{Limit, PlanFault};
pub use plan::planning::plan_parts;
pub use plan::sessions::Sessions;
pub use plan::sized::{SizedFault, plan_within};
pub use plan::{Plan, plans_keep_together};
pub use servers::{Servers, read_servers};
pub use tap_index::TapIndex;
pub use tap_index::first_refusal::{FirstRefusal, RefusedLine};
pub use tap_index::tap_runs::{IndexedTaps, Run, RunSource, TapRuns};

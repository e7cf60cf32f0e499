//! What an explanation finds of a session, by its pid and the verdict on it: the records that show the fault, the
//! client that had the session, what that received of what was due, other entries with the same fault, and what
//! happened when: its turns, what happened to its client, and its recoveries that were refused.
//!
//! With the `sheet` of a recording in which client `c1`, at place 3, got the event of entry 2 twice in its session `P`,
//! the verdict on which is `verdict`:
//!
//! ```
//! use aud_findings::{Prepared, outcome_of};
//! use aud_session_facts::account_of;
//!
//! let prepared = Prepared::read(alloc, sheet.recording, &[3], false)?;
//! let account = account_of(alloc, sheet.recording, "P")?;
//! let outcome = outcome_of(alloc, sheet, &prepared, "P", &verdict, account.as_ref())?;
//! let client = outcome.client.ok_or("no one client")?;
//! assert_eq!(rt; client.tap, "c1");
//! assert_eq!(rt; client.conn, Some(2));
//! ```
//!
//! With the `sheet` of a recording in which node `a` opened session `P` and took two entries, and the `turns` of its
//! certificate:
//!
//! ```
//! use aud_explanation::Happens;
//! use aud_findings::{client_events, turns_of_chain};
//!
//! let shown = turns_of_chain(alloc, &sheet, turns)?;
//! assert_eq!(rt; shown[0].took, Some((1, 2)));
//! let events = client_events(alloc, &sheet, &tap, "P", &[0])?;
//! assert_eq!(rt; events[0].happens, Happens::Reply);
//! ```
#![tactic(auto)]

mod account;
mod also;
mod beside;
mod chain;
mod evidence;
mod lines;
mod names;
mod order;
mod orphan;
mod others;
mod outcome;
mod prepared;
mod ranges;
mod record_at;
mod rooms;
mod tail;
mod timeline;
mod unplaced;

pub use order::unordered_of;
pub use orphan::orphan_in;
pub use outcome::{AlsoShown, OthersShown, Outcome, outcome_of};
pub use prepared::{Prepared, PreparedTap};
pub use record_at::numbers_naming;
pub use timeline::chain::turns_of_chain;
pub use timeline::events::client_events;
pub use timeline::laws::{chain_turns_are_shown, joined_events_keep_entries};
pub use timeline::marks::turns_of_marks;
pub use timeline::refused::{RefusedShown, refused_shown};

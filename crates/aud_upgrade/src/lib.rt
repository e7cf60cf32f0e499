//! A bundle in version 2 of the format: what a node took entry by entry it takes by one record, and no verdict changes.
//!
//! Begin at [`upgrade`]; that the verdicts stay is the law [`upgrades_keep_verdicts`].
//!
//! With the `taps` of `examples/bundle_a.jsonl`, whose node takes one entry, so that its records stay:
//!
//! ```
//! use aud_node::Logs;
//! use aud_tap::Version;
//! use aud_upgrade::{Joins, upgrade};
//! use std::hash::RandomState;
//!
//! let keys = RandomState::new(&rt)?;
//! let logs = Logs::build(alloc, keys, taps)?;
//! let upgraded = upgrade(alloc, &logs, Joins::TakeAlone)?;
//! assert!(rt; upgraded.as_slice().iter().all(|tap| tap.version == Version::Two));
//! ```
#![tactic(auto)]

mod copies;
mod joins;
mod law;
mod log;
mod taps;

pub use copies::{copied_entry, copied_record};
pub use joins::Joins;
pub use law::upgrades_keep_verdicts;
pub use taps::upgrade;

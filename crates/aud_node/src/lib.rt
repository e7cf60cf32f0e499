//! The stream's entries by position and offset, and the nodes' logs with their cursors and the turns in them.
//!
//! Begin at [`logs`], which is made once from the taps; all that it lends was computed then.
//!
//! With the `taps` of `examples/bundle_a.jsonl`, and `keys` by `RandomState::new`:
//!
//! ```
//! use aud_node::Logs;
//!
//! let logs = Logs::build(alloc, keys, taps)?;
//! assert_eq!(rt; logs.stream().position("1-0"), Some(1));
//! assert!(rt; logs.stream().recoverable(1));
//! assert_eq!(rt; logs.place_of("a"), Some(1));
//! let log = logs.node(1).ok_or("no node")?;
//! assert!(rt; log.ordered());
//! assert_eq!(rt; log.cursor_after(3), Some(1)); // `take` is record 3
//! assert_eq!(rt; log.turn_range("P", 0), Some(1..4));
//! ```
#![tactic(auto)]

mod addressees;
mod both;
mod by_name;
mod cursors;
mod known;
mod logs;
mod node_log;
mod offset_map;
mod offsets;
mod positions;
mod recoverable;
mod recs;
mod rest;
mod session_turns;
mod stream;
mod turns;

pub use known::KnownEvent;
pub use logs::Logs;
pub use node_log::NodeLog;
pub use recoverable::is_event;
pub use recs::Recs;
pub use rest::Rest;
pub use stream::Stream;

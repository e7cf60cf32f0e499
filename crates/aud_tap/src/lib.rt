//! What a bundle holds: texts, the records of each kind of tap, and taps; and the forms and limits of texts.
//!
//! Begin at [`records`], the kinds of record of each tap.
//!
//! The record of a line `a {"k":"join","pid":"P","room":"r"}`, built by hand:
//!
//! ```
//! use aud_tap::{NodeRec, Text, is_session_id, is_tap_name};
//!
//! assert!(rt; is_tap_name("a") && !is_tap_name("a b"));
//! assert!(rt; is_session_id("P") && !is_session_id(""));
//! let pid = Text::new(alloc, "P")?;
//! let room = Text::new(alloc, "r")?;
//! let record = NodeRec::Join { pid, room };
//! assert!(rt; matches!(&record, NodeRec::Join { room, .. } if room.as_str() == "r"));
//! ```
#![tactic(auto)]

mod forms;
pub mod limits;
mod ranks;
mod records;
mod taps;

pub use aud_base::{Blobs, Bytes, Text, Texts};
pub use forms::{is_id, is_namespace, is_session_id, is_tap_name};
pub use ranks::rank;
pub use records::{ClientRec, Event, NodeRec, Rec, StreamRec, TapKind, Version};
pub use taps::{ClientRecs, NodeRecs, Records, StreamRecs, Tap, Taps};

//! The reader of a bundle: the lines of an input, the record of a line, and the taps of the lines.
//!
//! Begin at [`bundle`], which reads line by line, and at [`read`], the record of one line.
//!
//! Bytes that come in two pieces, and the one tap of their lines:
//!
//! ```
//! use aud_reader::{Splitter, read_bundle};
//! use std::hash::RandomState;
//!
//! let mut splitter = Splitter::new(alloc);
//! splitter.feed(br#"a {"k":"tap","v":1,"of":"no"#)?;
//! splitter.feed(b"de\"}\na {\"k\":\"start\",\"off\":null}\n")?;
//! let lines = splitter.finish()?;
//! assert_eq!(rt; lines.len(), 2);
//! let taps = read_bundle(alloc, RandomState::new(&rt)?, &lines)?;
//! let tap = taps.as_slice().first().ok_or("no tap")?;
//! assert_eq!(rt; tap.name.as_str(), "a");
//! ```
#![tactic(auto)]

mod bundle;
mod fault;
mod law;
mod limits;
mod line;
mod lines;
mod read;
mod splitter;

pub use bundle::{BundleReader, read_bundle};
pub use fault::{InputCode, ReadFault};
pub use law::lines_in_any_pieces;
pub use limits::{MAX_CLIENT_TAPS, MAX_ENTRIES, MAX_NODE_TAPS, MAX_PIDS, MAX_RECORDS};
pub use line::{LentLine, Line, next_line};
pub use lines::Lines;
pub use read::{cut_at_blank, is_client_kind, parse_line, tap_kind, tap_name, tap_of_kind};
pub use splitter::Splitter;

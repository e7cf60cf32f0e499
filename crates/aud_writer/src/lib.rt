//! The writer of a bundle: the line of a record, and the bytes of all taps.
//!
//! Begin at [`line`] and [`bundle`]; the JSON of each kind of record has a module of its own, and [`value_at`] gives
//! that of one record of a tap.
//!
//! Writing that node `a` takes an entry of the stream:
//!
//! ```
//! use aud_tap::{NodeRec, Rec, Text};
//! use aud_writer::write_line;
//!
//! let off = Text::new(alloc, "1-0")?;
//! let record = Rec::Node(NodeRec::Take { off });
//! let line = write_line(alloc, "a", &record)?;
//! assert_eq!(rt; str::from_utf8(&line)?, r#"a {"k":"take","off":"1-0"}"#);
//! ```
#![tactic(auto)]

mod bundle;
mod client;
mod fields;
mod forms;
mod line;
mod node;
mod numbered;
mod stream;

pub use bundle::write_bundle;
pub use forms::is_well_formed;
pub use line::write_line;
pub use numbered::value_at;

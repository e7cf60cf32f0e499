//! The records of a bundle as an explanation shows them: rows, each with the line that its record stands on and what
//! the record says.
//!
//! With the `recording` of `examples/bundle_a.jsonl`, and the `lines` that `aud_input::read_files` gives with it; `c1`
//! stands at place 2:
//!
//! ```
//! use aud_rows::{ClientPlaces, Role, Says, Sheet};
//!
//! let sheet = Sheet { recording: &recording, lines: &lines };
//! let row = sheet.stream_row(1, Role::Entry).ok_or("no entry")?;
//! assert_eq!(rt; row.line, 2);
//! assert!(rt; matches!(row.says, Says::Entry { position: 1, off: "1-0" }));
//! let tap = ClientPlaces::read(alloc, recording.logs(), 2)?;
//! let row = sheet.frame_row(&tap, 0, 0, Role::Fault).ok_or("no frame")?;
//! assert!(rt; matches!(row.says, Says::Got { conn: 1, position: 1, off: "1-0" }));
//! ```
#![tactic(auto)]

mod client;
mod client_places;
mod ends;
mod lacking;
mod node;
mod packets;
mod row;
mod sheet;
mod stream;
mod turn;

pub use client_places::ClientPlaces;
pub use packets::{begin_of, packets_of};
pub use row::{Role, Row, Says};
pub use sheet::Sheet;

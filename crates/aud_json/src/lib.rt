//! The fields of a JSON object, borrowed from its text, in place of its JSON value: what `serde_json` reads, in one
//! pass and with nothing copied.
//!
//! Begin at [`Fields`]. Of a value they show what a line's record looks at: the members of an object, of a list among
//! them its texts, and of an object among them nothing but that it is one.
//!
//! A key that stands twice, and a list of which one item is no text:
//!
//! ```
//! use aud_json::{Field, Fields, Scratch};
//!
//! let mut scratch = Scratch::new(alloc);
//! let text = r#"{"k":"join","turn":3,"rooms":["r",1],"k":"leave"}"#;
//! let fields = Fields::read(alloc, text, &mut scratch)?;
//! assert!(rt; fields.get("k").and_then(Field::as_str) == Some("leave"));
//! assert!(rt; fields.get("turn").and_then(Field::as_u64) == Some(3));
//! let rooms = fields.get("rooms").and_then(Field::as_list).ok_or("no rooms")?;
//! assert!(rt; matches!(rooms.as_slice(), [Some("r"), None]));
//! assert!(rt; fields.get("pid").is_none());
//! ```
#![tactic(auto)]

mod fault;
mod field;
mod fields;
mod flat;
mod members;
mod number;
mod pass;
mod run;
mod scratch;
mod unescape;

pub use fault::FieldsFault;
pub use field::Field;
pub use fields::Fields;
pub use scratch::Scratch;

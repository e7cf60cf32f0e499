//! Why a line, or a packet of a client, is refused.
//!
//! [`refusal_help`] says which field of a refused line is missing or of another form, which limit is passed and by what,
//! what is wrong with its JSON, and where the header stands that a line contradicts.
//!
//! ```
//! use aud_reader::InputCode;
//! use aud_refusals::refusal_help;
//!
//! let line = br#"a {"k":"join","pid":"P"}"#;
//! let help = refusal_help(alloc, line, InputCode::Field, None)?;
//! assert_eq!(rt; help.as_str(), "The field room is missing: it has to be a text.\n");
//! ```
//!
//! [`no_packet_at`] says why a record of a client's tap is no packet: the decoder's refusal of it, where its payload is
//! refused what is wrong with that, and of which packet of a polling body. [`aud_client::Transcript`] has the number of
//! the first such record.
//!
//! ```
//! use aud_refusals::no_packet_at;
//!
//! let found = no_packet_at(alloc, recs, number)?.ok_or("a packet")?;
//! found.refusal.push_words(&mut words)?; // "the first byte is no type of an Engine.IO packet"
//! let packet = found.packet; // Some(2): the second of a polling body
//! ```
#![tactic(auto)]

mod before;
mod excess;
mod field_help;
mod help;
mod json_help;
mod kind_help;
mod law;
mod limit_help;
mod member;
mod members;
mod no_json;
mod no_packet;
mod opened;
mod packets;
mod payload;
mod record;
mod tap_name;
mod texts;
mod token_place;

pub use help::refusal_help;
pub use law::named_fields_are_refused;
pub use no_json::NoJson;
pub use no_packet::{NoPacket, PayloadFault, Refusal};
pub use record::no_packet_at;

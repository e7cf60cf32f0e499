//! Engine.IO packets: their texts over WebSocket, and their bodies over HTTP long-polling.
//!
//! Engine.IO protocol 4, "Packet encoding". Begin at [`Eio`].
//!
//! Reading a body of HTTP long-polling:
//!
//! ```
//! use aud_eio::{Control, Eio, EioFault, decode_payload, decode_text};
//!
//! let packets = decode_payload(alloc, "4hello\u{1e}2\u{1e}4world")?;
//! let read = [
//!     Eio::Message("hello"),
//!     Eio::Control(Control::Ping, ""),
//!     Eio::Message("world"),
//! ];
//! assert!(rt; packets.as_slice() == read.as_slice());
//! assert_eq!(rt; decode_text(alloc, "7x"), Err(EioFault::UnknownType));
//! ```
#![tactic(auto)]

mod body;
mod packet;
mod text;

pub use body::{decode_payload, encode_payload};
pub use packet::{Control, Eio, EioFault};
pub use text::{decode_binary, decode_text, encode_text};

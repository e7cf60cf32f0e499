//! Packets of the Socket.IO protocol, version 5: the packet of a text, the text of a packet, and
//! packets with their attachments, out of Engine.IO packets.
//!
//! Begin at [`decode`], whose parts `kind` to `payload` are modules of their own, and at
//! [`Assembler`].
//!
//! Reading a packet, and writing it back:
//!
//! ```
//! use aud_sio::{PacketKind, decode, encode};
//!
//! let packet = decode(alloc, r#"2/admin,1["tellme"]"#)?;
//! assert_eq!(rt; packet.kind, PacketKind::Event);
//! assert_eq!(rt; packet.nsp, "/admin");
//! assert_eq!(rt; packet.id, Some(1));
//! assert_eq!(rt; packet.payload, Some(r#"["tellme"]"#));
//! assert_eq!(rt; encode(alloc, &packet)?.as_str(), r#"2/admin,1["tellme"]"#);
//! ```
#![tactic(auto)]

mod ack_id;
mod assembler;
mod attachments;
mod digits;
mod fault;
mod half;
mod kind;
mod law;
mod namespace;
mod packet;
mod payload;
mod whole;
mod written;

pub use assembler::Assembler;
pub use aud_json::Scratch;
pub use fault::SioFault;
pub use kind::PacketKind;
pub use law::answers_are_wholes;
pub use packet::{Packet, decode, decode_with, last_text};
pub use whole::{Blob, Whole};
pub use written::encode;

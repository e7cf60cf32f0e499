//! The packet of a text.
ghost use Rattle.std.specs.Prelude.{◌≡◌, Err, IfOk, option_map, true};
ghost use Rattle.aud_sio.specs.Reading.{Gives};
ghost use Rattle.aud_sio.specs.Packet.{IsSpelled, has_payload, packet_of, packet_view};

use crate::ack_id::id_at;
use crate::attachments::attachments_at;
use crate::fault::SioFault;
use crate::kind::{PacketKind, kind_at};
use crate::namespace::namespace_at;
use crate::payload::payload_at;
use aud_json::Scratch;
use std::alloc::Global;

/// A packet, whose namespace and payload are borrowed from the text that it was read from.
#[derive(Drop)]
pub struct Packet<'a> {
    /// The type at the front of the text.
    pub kind: PacketKind,
    /// How many binary messages follow: 0 to 64, and 0 where the kind is not binary.
    pub attachments: u8,
    /// The namespace, which begins with `/`.
    pub nsp: &'a str,
    /// The acknowledgement id, of at most 18 digits.
    pub id: Option<u64>,
    /// The JSON text that ends the packet; an array where the kind carries arguments.
    pub payload: Option<&'a str>,
    /// The last element of a payload that is an array, where that element is a text: decoded, of
    /// its own memory.
    pub last: Option<String>,
}

/// The packet that a text spells, by the section "Packet encoding" of the Socket.IO protocol 5. Its
/// namespace and its payload are borrowed from the text; memory is kept for `last` alone, and none is
/// taken where no byte is left for the payload.
///
/// An error is of the first part that is refused, in the order type, count of attachments,
/// acknowledgement id, payload; or `Memory`, at the payload. That there are at most 64 attachments and at most 18
/// digits of an id, and that CONNECT, DISCONNECT and CONNECT_ERROR take any JSON or none, is this crate's choice.
pub fn decode(alloc: Global, text: &str) -> Result<Packet<'_>, SioFault>
    ensures value { Gives packet_view result (packet_of text.now) }
    ensures spelled { IfOk result (λ packet. IsSpelled (packet_view packet)) }
    ensures memory { result ≡ Err SioFault.Memory → has_payload text.now ≡ true }
{
    let mut scratch = Scratch::new(alloc);
    decode_with(alloc, &mut scratch, text)
}

/// What [`decode`] gives, with memory that is kept for the next text: of 16 KiB, and of the length of the longest
/// payload.
#[tactic(auto, unfolding(crate::specs::Packet::packet_of, crate::specs::Packet::payload_text))]
pub fn decode_with<'a>(
    alloc: Global,
    scratch: &mut Scratch,
    text: &'a str,
) -> Result<Packet<'a>, SioFault>
    ensures value { Gives packet_view result (packet_of text.now) }
    ensures spelled { IfOk result (λ packet. IsSpelled (packet_view packet)) }
    ensures memory { result ≡ Err SioFault.Memory → has_payload text.now ≡ true }
{
    let (kind, rest) = kind_at(text)?;
    let (attachments, rest) = attachments_at(kind, rest)?;
    let (nsp, rest) = namespace_at(rest);
    let (id, rest) = id_at(rest)?;
    let (payload, last) = payload_at(alloc, scratch, kind, rest)?;
    Ok(Packet {
        kind,
        attachments,
        nsp,
        id,
        payload,
        last,
    })
}

/// The text at the end of the packet's payload, decoded, borrowed from `last`; none where another element stands there.
pub fn last_text<'a>(packet: &'a Packet<'_>) -> Option<&'a str>
    ensures { option_map (λ s. s.now) result ≡ (packet_view packet.now).last }
{
    packet.last.as_deref()
}

//! The packets of a body, and the body of packets.
ghost use Rattle.std.specs.Prelude.{◌≡◌, ◌<◌, ◌++◌, length, map, All, string_bytes, IfOk, IfErr, OnOk};
ghost use Rattle.aud_eio.specs.Answer.{Gives};
ghost use Rattle.aud_eio.specs.Packet.{engine_view, delivered};
ghost use Rattle.aud_eio.specs.Private.ReadBack.{ReadsBack};
ghost use Rattle.aud_eio.specs.Body.{engine_packets_of, body_of, FitsBody};

use crate::text::{decode_text, push_packet};
use crate::{Eio, EioFault};
use std::alloc::{AllocError, Global};

/// The packets of a body of HTTP long-polling, cut at every byte 0x1e (Engine.IO protocol 4, section "HTTP
/// long-polling"); their texts are borrowed from it. The fault is that of the first piece that is no packet, or
/// `Memory`. A body without a byte is one empty piece, and refused as `Empty`.
pub fn decode_payload(alloc: Global, body: &str) -> Result<Vec<Eio<'_>>, EioFault>
    ensures { Gives (λ packets. map engine_view packets.items) result (engine_packets_of body.now) }
{
    let mut packets = Vec::new(alloc);
    for piece in body.split('\u{1e}') {
        let packet = decode_text(alloc, piece)?;
        packets.push(packet)?;
    }
    Ok(packets)
}

/// The body of packets, with byte 0x1e between each two; bytes read back as own bytes. There is at least one packet,
/// and no text of one holds that byte. The one error is `Memory`.
pub fn encode_payload(alloc: Global, packets: &[Eio<'_>]) -> Result<String, EioFault>
    requires some { 0 < length packets.now }
    requires fit { All (λ packet. FitsBody (engine_view packet)) packets.now }
    ensures body { IfOk result (λ body. string_bytes body ≡ body_of (map engine_view packets.now)) }
    ensures reads_back { IfOk result (λ body. engine_packets_of (string_bytes body)
        ≡ Ok (map delivered (map engine_view packets.now))) }
    ensures memory { IfErr result (λ e. e ≡ EioFault.Memory) }
{
    let mut body = String::new(alloc);
    push_packets(packets, &mut body)?;
    Ok(body)
}

/// Writes packets after a text, of which memory may leave a part.
fn push_packets(packets: &[Eio<'_>], body: &mut String) -> Result<(), AllocError>
    ensures body { OnOk result (string_bytes body.new
        ≡ string_bytes body.old ++ body_of (map engine_view packets.now)) }
    ensures read_back { OnOk result (All (λ packet. ReadsBack (engine_view packet)) packets.now) }
{
    let mut between = "";
    for packet in packets {
        body.push_str(between)?;
        push_packet(packet, body)?;
        between = "\u{1e}";
    }
    Ok(())
}

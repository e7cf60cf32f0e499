//! What the server's records of a client's tap carry.
ghost use Rattle.std.specs.Prelude.{◌≡◌, ◌≤◌, ◌∷◌, [], IfOk, Ok, Some, length, map};
ghost use Rattle.std.specs.Option.{option_map};
ghost use Rattle.std.specs.Result.{result_ok};
ghost use Rattle.aud_eio.specs.Answer.{Gives};
ghost use Rattle.aud_eio.specs.Packet.{engine_view};
ghost use Rattle.aud_client.specs.TapPackets.{engine_packets};
ghost use Rattle.aud_rows.specs.Marks.{begin_from, is_mark};

use crate::client_places::is_mark;
use aud_eio::{Eio, EioFault, decode_binary, decode_payload, decode_text};
use aud_tap::ClientRec;
use std::alloc::{AllocError, Global};

/// The Engine.IO packets of a record, which lend what it holds: none of what the client sends, of a `conn` or a `lost`.
/// `None` where a text of it is no packet.
pub fn packets_of(alloc: Global, rec: &ClientRec) -> Result<Option<Vec<Eio<'_>>>, AllocError>
    ensures { IfOk result (λ packets. option_map (λ packets. map engine_view packets.items) packets
        ≡ result_ok (engine_packets rec.now)) }
{
    match decoded(alloc, rec) {
        Ok(packets) => Ok(Some(packets)),
        Err(EioFault::Memory) => Err(AllocError),
        Err(_) => Ok(None),
    }
}

fn decoded(alloc: Global, rec: &ClientRec) -> Result<Vec<Eio<'_>>, EioFault>
    ensures { Gives (λ packets. map engine_view packets.items) result (engine_packets rec.now) }
{
    match rec {
        ClientRec::TextIn { t } => match decode_text(alloc, t.as_str()) {
            Ok(packet) => alone(alloc, packet),
            Err(fault) => Err(fault),
        },
        ClientRec::BytesIn { b } => alone(alloc, decode_binary(b.as_slice())),
        ClientRec::Poll { t } => decode_payload(alloc, t.as_str()),
        ClientRec::Conn { .. } | ClientRec::TextOut { .. } | ClientRec::Lost => {
            Ok(Vec::new(alloc))
        }
    }
}

/// The packet of a record that has one.
fn alone(alloc: Global, packet: Eio<'_>) -> Result<Vec<Eio<'_>>, EioFault>
    ensures { Gives (λ packets. map engine_view packets.items) result
        (Ok (engine_view packet.entry ∷ [])) }
{
    let mut packets = Vec::new(alloc);
    match packets.push(packet) {
        Ok(()) => Ok(packets),
        Err(_) => Err(EioFault::Memory),
    }
}

/// The number of the record after the last `conn` or `lost` of these.
pub fn begin_of(recs: &[ClientRec]) -> usize
    ensures begin { result ≡ begin_from 0 0 recs.now }
    ensures inside { result ≤ length recs.now }
{
    let mut begin = 0;
    for (number, rec) in recs.iter().enumerate() {
        if is_mark(rec) {
            begin = number + 1;
        }
    }
    begin
}

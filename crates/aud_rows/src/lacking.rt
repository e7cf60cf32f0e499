//! The packet whose attachments were not all there when a text came.
ghost use Rattle.std.specs.Prelude.{◌≡◌, IfOk, flat_map, map};
ghost use Rattle.std.specs.Option.{option_map};
ghost use Rattle.aud_eio.specs.Packet.{engine_view};
ghost use Rattle.aud_sio.specs.Message.{messages_of};
ghost use Rattle.aud_sio.specs.Packet.{packet_of};
ghost use Rattle.aud_client.specs.TapPackets.{messages_at};
ghost use Rattle.aud_rows.specs.Lacking.{attachments_in, lacking_said, messages_before, missing_at_text};
ghost use Rattle.aud_rows.specs.Marks.{marks_of};
ghost use Rattle.aud_rows.specs.Private.Awaited.{awaited};
ghost use Rattle.aud_rows.specs.Private.SaidAt.{said_seen};

use crate::client::SaidAt;
use crate::ends::open_before;
use crate::packets::{begin_of, packets_of};
use crate::row::Says;
use aud_eio::Eio;
use aud_sio::{SioFault, decode};
use aud_tap::ClientRec;
use std::alloc::{AllocError, Global};

/// What the record says whose packet lacks attachments where a text of the record with this number comes: the record of
/// the last text before it in its connection.
pub fn lacking_said<'r>(
    alloc: Global,
    recs: &[ClientRec],
    marks: &[usize],
    number: usize,
) -> Result<Option<SaidAt<'r>>, AllocError>
    requires { marks.now ≡ marks_of recs.now }
    ensures { IfOk result (λ said. option_map said_seen said ≡ lacking_said recs.now number) }
{
    let Some(conn) = open_before(recs, marks, number) else {
        return Ok(None);
    };
    let Some(rec) = recs.get(number) else {
        return Ok(None);
    };
    let Some(packets) = packets_of(alloc, rec)? else {
        return Ok(None);
    };
    let (before, _) = recs.split_at(number);
    let (earlier, awaited) = awaited_after(alloc, before)?;
    let missing = missing_at_text(awaited, packets.as_slice());
    if missing == 0 {
        return Ok(None);
    }
    Ok(Some(SaidAt {
        number: earlier,
        says: Says::Lacks { conn, missing },
    }))
}

/// The record of the last text of the connection that goes on after these records, and how many attachments of its
/// packet did not come: zeros where no text came.
fn awaited_after(alloc: Global, recs: &[ClientRec]) -> Result<(usize, u8), AllocError>
    ensures { IfOk result (λ last. last ≡ awaited (0, 0) (messages_before recs.now)) }
{
    let begin = begin_of(recs);
    let (_, connection) = recs.split_at(begin);
    let mut last = (0, 0);
    for (i, rec) in connection.iter().enumerate() {
        last = awaited_at(alloc, last, begin + i, rec)?;
    }
    Ok(last)
}

/// The same after the record with this number.
fn awaited_at(
    alloc: Global,
    last: (usize, u8),
    number: usize,
    rec: &ClientRec,
) -> Result<(usize, u8), AllocError>
    ensures { IfOk result (λ new. new ≡ awaited last (messages_at (number, rec.now))) }
{
    let Some(packets) = packets_of(alloc, rec)? else {
        return Ok(last);
    };
    let mut now = last;
    for packet in &packets {
        match packet {
            Eio::Control(_, _) => {}
            Eio::Message(text) => now = (number, attachments_in(alloc, text)?),
            Eio::Lent(_) | Eio::Own(_) => now = (now.0, now.1.saturating_sub(1)),
        }
    }
    Ok(now)
}

/// How many attachments the packet of this text has.
fn attachments_in(alloc: Global, text: &str) -> Result<u8, AllocError>
    ensures { IfOk result (λ count. count ≡ attachments_in (packet_of text.now)) }
{
    match decode(alloc, text) {
        Ok(packet) => Ok(packet.attachments),
        Err(SioFault::Memory) => Err(AllocError),
        Err(_) => Ok(0),
    }
}

/// How many of so many attachments are missing where the first text of these packets comes; none where no text comes.
fn missing_at_text(missing: u8, packets: &[Eio<'_>]) -> u8
    ensures { result
        ≡ missing_at_text missing (flat_map messages_of (map engine_view packets.now)) }
{
    let mut left = missing;
    for packet in packets {
        match packet {
            Eio::Control(_, _) => {}
            Eio::Message(_) => return left,
            Eio::Lent(_) | Eio::Own(_) => left = left.saturating_sub(1),
        }
    }
    0
}

//! A record of a client's tap.
ghost use Rattle.std.specs.Prelude.{◌≡◌, IfOk};
ghost use Rattle.aud_sio.specs.Assembly.{Waits};
ghost use Rattle.aud_refusals.specs.NoPacket.{no_packet_at, refused_at};
ghost use Rattle.aud_refusals.specs.Private.Fed.{refused_to};

use crate::before::assembler_after;
use crate::no_packet::NoPacket;
use crate::packets::socket_refusal;
use crate::payload::told;
use crate::texts::{engine_refusal, texts_of};
use aud_rows::{begin_of, packets_of};
use aud_sio::Assembler;
use aud_tap::ClientRec;
use std::alloc::{AllocError, Global};

/// Why the record with this number of a client's tap is no packet; none where nothing of it is refused. Records count
/// from 0 after the header. Of the records before only those of the same connection are decoded.
#[tactic(auto, using(std::proofs::lemmas::Option::gets))]
pub fn no_packet_at(
    alloc: Global,
    recs: &[ClientRec],
    number: usize,
) -> Result<Option<NoPacket>, AllocError>
    ensures { IfOk result (λ found. found ≡ no_packet_at recs.now number) }
{
    let found = refused_at(alloc, recs, number)?;
    match (recs.get(number), found) {
        (Some(rec), Some(found)) => Ok(Some(told(alloc, rec, found)?)),
        _ => Ok(None),
    }
}

/// What the decoder refuses of that record.
fn refused_at(
    alloc: Global,
    recs: &[ClientRec],
    number: usize,
) -> Result<Option<NoPacket>, AllocError>
    ensures { IfOk result (λ found. found ≡ refused_at recs.now number) }
{
    let Some(rec) = recs.get(number) else {
        return Ok(None);
    };
    let (before, _) = recs.split_at(number);
    let (_, connection) = before.split_at(begin_of(before));
    let assembler = assembler_after(alloc, connection)?;
    refusal_of(alloc, assembler, rec)
}

/// The refusal of the record, which comes next.
fn refusal_of<'a>(
    alloc: Global,
    assembler: Assembler<'a>,
    rec: &'a ClientRec,
) -> Result<Option<NoPacket>, AllocError>
    requires { Waits assembler }
    ensures { IfOk result (λ found. found ≡ refused_to assembler.entry rec.now) }
{
    match packets_of(alloc, rec)? {
        Some(packets) => socket_refusal(assembler, packets),
        None => engine_refusal(alloc, texts_of(alloc, rec)?.as_slice()),
    }
}

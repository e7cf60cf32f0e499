//! The records of a connection before one.
ghost use Rattle.std.specs.Prelude.{[], IfOk, OnOk, flat_map, map};
ghost use Rattle.aud_eio.specs.Packet.{engine_view};
ghost use Rattle.aud_sio.specs.Message.{at, messages_of};
ghost use Rattle.aud_client.specs.TapPackets.{messages_at};
ghost use Rattle.aud_refusals.specs.NoPacket.{messages_before};
ghost use Rattle.aud_refusals.specs.Private.Fed.{Passes};

use crate::packets::feed;
use aud_eio::Eio;
use aud_rows::packets_of;
use aud_sio::Assembler;
use aud_tap::ClientRec;
use std::alloc::{AllocError, Global};

/// What an assembler at rest holds after these records.
pub(crate) fn assembler_after<'a>(
    alloc: Global,
    recs: &'a [ClientRec],
) -> Result<Assembler<'a>, AllocError>
    ensures { IfOk result (Passes [] (messages_before recs.now)) }
{
    let mut assembler = Assembler::new(alloc);
    for rec in recs {
        pass(alloc, &mut assembler, rec)?;
    }
    Ok(assembler)
}

/// Gives the assembler the packets of the record.
fn pass<'a>(
    alloc: Global,
    assembler: &mut Assembler<'a>,
    rec: &'a ClientRec,
) -> Result<(), AllocError>
    ensures { OnOk result (Passes assembler.old (messages_at (0, rec.now)) assembler.new) }
{
    match packets_of(alloc, rec)? {
        Some(packets) => pass_packets(assembler, packets),
        None => Ok(()),
    }
}

fn pass_packets<'a>(assembler: &mut Assembler<'a>, packets: Vec<Eio<'a>>) -> Result<(), AllocError>
    ensures { OnOk result (Passes assembler.old
        (at 0 (flat_map messages_of (map engine_view packets.entry.items))) assembler.new) }
{
    for packet in packets {
        let _fault = feed(assembler, packet)?;
    }
    Ok(())
}

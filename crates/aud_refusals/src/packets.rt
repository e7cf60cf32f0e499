//! The packets of a record, given to an assembler.
ghost use Rattle.std.specs.Prelude.{◌≡◌, IfOk, OnOk, Some, map};
ghost use Rattle.aud_eio.specs.Packet.{engine_view};
ghost use Rattle.aud_sio.specs.Message.{messages_of};
ghost use Rattle.aud_sio.specs.Assembly.{Waits};
ghost use Rattle.aud_refusals.specs.NoPacket.{packet_messages};
ghost use Rattle.aud_refusals.specs.Private.Fed.{OnFed, refusal_to};

use crate::no_packet::{NoPacket, Refusal};
use aud_eio::Eio;
use aud_sio::{Assembler, SioFault};
use std::alloc::AllocError;

/// Gives the assembler a packet, and says how it is refused.
pub(crate) fn feed<'a>(
    assembler: &mut Assembler<'a>,
    packet: Eio<'a>,
) -> Result<Option<SioFault>, AllocError>
    ensures { OnFed assembler.old (messages_of (engine_view packet.entry)) assembler.new result }
{
    match assembler.feed(packet) {
        Ok(Some(_whole)) => Ok(None),
        Ok(None) => Ok(None),
        Err(fault) => unless_memory(fault),
    }
}

/// The fault, unless it is running out of memory.
fn unless_memory(fault: SioFault) -> Result<Option<SioFault>, AllocError>
    ensures memory { OnOk result (¬ (fault ≡ SioFault.Memory)) }
    ensures fault { IfOk result (λ found. found ≡ Some fault) }
{
    match fault {
        SioFault::Memory => Err(AllocError),
        _ => Ok(Some(fault)),
    }
}

/// The first refusal of the messages of these packets, which come next.
pub(crate) fn socket_refusal<'a>(
    mut assembler: Assembler<'a>,
    packets: Vec<Eio<'a>>,
) -> Result<Option<NoPacket>, AllocError>
    requires { Waits assembler }
    ensures { IfOk result (λ found. found
        ≡ refusal_to assembler.entry (packet_messages 1 (map engine_view packets.entry.items))) }
{
    let count = packets.len();
    let mut number = 0;
    for packet in packets {
        number += 1;
        if let Some(fault) = feed(&mut assembler, packet)? {
            return Ok(Some(NoPacket {
                refusal: Refusal::Socket(fault),
                packet: Some(number),
            }));
        }
    }
    Ok(None)
}

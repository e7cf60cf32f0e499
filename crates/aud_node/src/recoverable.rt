//! Which entries a server sends again after a recovery.
ghost use Rattle.std.specs.Prelude.{◌≡◌, IfOk, map};
ghost use Rattle.std.specs.Fork.{slice_chunk};
ghost use Rattle.aud_sio.specs.Packet.{packet_view};
ghost use Rattle.aud_node.specs.Recoverable.{is_recoverable, is_packet_of, is_event};

use crate::rest::Rest;
use aud_base::{numbers_to, try_map};
use aud_sio::{Packet, PacketKind, Scratch, SioFault, decode_with, last_text};
use aud_tap::{Event, StreamRec};
use std::alloc::{AllocError, Global};
use std::thread::Threads;

/// How many entries a range has, where they are shared out by ranges.
const RANGE: usize = 1_024;

/// Of each entry, whether it is recoverable.
pub fn recoverable_of(alloc: Global, entries: &Rest<'_, StreamRec>) -> Result<Vec<bool>, AllocError>
    ensures { IfOk result (λ flags. flags.items ≡ map is_recoverable entries.now) }
{
    recoverable_in_range(alloc, entries, entries.len(), 0)
}

/// The same in at most so many threads, which share out the entries by ranges of 1,024. A thread decodes all of a range
/// by one scratch.
pub fn recoverable_in_threads<H: Threads + Sync>(
    rt: &H,
    alloc: Global,
    threads: usize,
    entries: &Rest<'_, StreamRec>,
) -> Result<Vec<bool>, AllocError>
    ensures { IfOk result (λ flags. flags.items ≡ map is_recoverable entries.now) }
{
    let ranges = numbers_to(alloc, entries.len().div_ceil(RANGE))?;
    let flags = try_map(
        rt,
        alloc,
        threads,
        ranges.as_slice(),
        |range: &usize| -> Result<Vec<bool>, AllocError>
            ensures { IfOk result (λ flags. flags.items
                ≡ map is_recoverable (slice_chunk entries.entry.now 1024 range.now)) }
        { recoverable_in_range(alloc, entries, RANGE, *range) },
    )?;
    flags.concat(alloc)
}

/// Of each entry of a range, whether it is recoverable. The entries are cut into ranges of this size, of which the last
/// may be shorter; the number of the range counts from 0, and a range past the last has no entries.
fn recoverable_in_range(
    alloc: Global,
    entries: &Rest<'_, StreamRec>,
    size: usize,
    number: usize,
) -> Result<Vec<bool>, AllocError>
    ensures { IfOk result (λ flags. flags.items
        ≡ map is_recoverable (slice_chunk entries.now size number)) }
{
    let range = entries.after(number.saturating_mul(size).min(entries.len()));
    let count = range.len().min(size);
    let mut flags = Vec::with_capacity(alloc, count)?;
    let mut scratch = Scratch::new(alloc);
    for i in 0..count {
        flags.push(is_recoverable(alloc, &mut scratch, range.at(i))?)?;
    }
    Ok(flags)
}

/// Whether the entry is an event that a server sends again.
#[tactic(auto, unfolding(crate::specs::Recoverable::is_recoverable))]
fn is_recoverable(
    alloc: Global,
    scratch: &mut Scratch,
    entry: &StreamRec,
) -> Result<bool, AllocError>
    ensures { IfOk result (λ answer. answer ≡ is_recoverable entry.now) }
{
    let StreamRec::Ev(event) = entry else {
        return Ok(false);
    };
    match decode_with(alloc, scratch, event.text.as_str()) {
        Ok(packet) => Ok(is_packet_of(event, &packet)),
        Err(SioFault::Memory) => Err(AllocError),
        Err(_) => Ok(false),
    }
}

/// Whether the packet is one that a server sends again for the event.
fn is_packet_of(event: &Event, packet: &Packet<'_>) -> bool
    ensures { result ≡ is_packet_of event.now (packet_view packet.now) }
{
    is_event(packet.kind)
        && packet.nsp == event.nsp.as_str()
        && packet.id.is_none()
        && last_text(packet) == Some(event.off.as_str())
        && usize::from(packet.attachments) == event.bin.as_slice().len()
}

/// Whether packets of the kind carry an event, with or without attachments.
pub fn is_event(kind: PacketKind) -> bool
    ensures { result ≡ is_event kind }
{
    match kind {
        PacketKind::Event | PacketKind::BinaryEvent => true,
        _ => false,
    }
}

//! The stream's entries in a part.
ghost use Rattle.std.specs.Prelude.{◌≡◌, ◌&&◌, ◌||◌, Some, IfOk, if◌then◌else◌};
ghost use Rattle.aud_tap.specs.RecordFields.{offset_of};
ghost use Rattle.aud_tap.specs.declared.records.StreamRec.TheVariants.{Other};
ghost use Rattle.aud_node.specs.Recoverable.{is_recoverable};
ghost use Rattle.aud_node.specs.Stream.{entry};
ghost use Rattle.aud_parts.specs.Private.Kept.{entries_for};
ghost use Rattle.aud_parts.specs.Private.Marks.{AreMarked, with_mark};
ghost use Rattle.aud_parts.specs.Private.OwnRecords.{has, is_for};

use crate::part::audience::Audience;
use aud_node::Stream;
use aud_tap::{StreamRec, StreamRecs};
use aud_upgrade::copied_entry;
use std::alloc::{AllocError, Global};

/// The stream's entries, of which those stay events that are recoverable, and are for the audience or stand at one of
/// these positions: there they came to a client of the part.
pub fn part_entries(
    alloc: Global,
    stream: &Stream<'_>,
    audience: &Audience,
    came: &[u64],
) -> Result<StreamRecs, AllocError>
    ensures { IfOk result (λ left. left ≡ entries_for (has audience.now.namespaces)
        (has audience.now.rooms) came.now stream.now) }
{
    let entries = stream.entries();
    let marks = marks_of(alloc, entries.len(), came)?;
    let mut left = StreamRecs::new(alloc);
    for number in 0..entries.len() {
        let entry = entries.at(number);
        let position = number as u64 + 1;
        let own = entry_left(alloc, stream, audience, marks[number], position, entry)?;
        left.push(own)?;
    }
    Ok(left)
}

/// What is left of the entry at this position, which counts from 1: a copy where it is recoverable, and is for the
/// audience or came to a client of the part, as the flag says; else an entry of its offset that is no event. Texts are
/// shared.
fn entry_left(
    alloc: Global,
    stream: &Stream<'_>,
    audience: &Audience,
    came: bool,
    position: u64,
    event: &StreamRec,
) -> Result<StreamRec, AllocError>
    requires { entry stream.now position ≡ Some event.now }
    ensures { IfOk result (λ left. left ≡ (if is_recoverable event.now
        && (is_for (has audience.now.namespaces) (has audience.now.rooms) event.now || came)
        then event.now else Other (offset_of event.now))) }
{
    if stream.recoverable(position) && (came || audience.is_for(event)) {
        return copied_entry(alloc, event);
    }
    let off = event.offset().share()?;
    Ok(StreamRec::Other { off })
}

/// Of each of so many entries, whether it stands at one of these positions, which count from 1. What is past the last
/// entry marks none.
fn marks_of(alloc: Global, count: usize, positions: &[u64]) -> Result<Vec<bool>, AllocError>
    ensures { IfOk result (λ marks. AreMarked count positions.now marks.items) }
{
    let mut marks = vec![in alloc; false; count]?;
    for position in positions {
        mark(&mut marks, *position);
    }
    Ok(marks)
}

/// Marks the entry at the position, if there is one.
fn mark(marks: &mut Vec<bool>, position: u64)
    ensures { marks.new.items ≡ with_mark position marks.old.items }
{
    if position == 0 {
        return;
    }
    let number = position as usize - 1;
    if number < marks.len() {
        marks[number] = true;
    }
}

//! What is due by spans.
ghost use Rattle.std.specs.Prelude.{◌≡◌, IfOk};
ghost use Rattle.std.specs.Cow.{cow_slice_items};
ghost use Rattle.aud_rooms.specs.Spans.{due_by_spans};

use crate::candidates::{By, candidates_of, of_spans};
use crate::interval::Interval;
use crate::merge::removed;
use crate::span::Span;
use aud_node::Stream;
use std::alloc::{AllocError, Global};
use std::borrow::CowSlice;

/// The recoverable positions past `birth` up to `high` that are addressed to the namespace and to the rooms whose spans
/// hold them, ascending; positions count from 1. The spans may stand in any order and overlap. The entries that are for
/// the whole namespace, or that name or except one of the rooms, are found by the stream's index, and no others are
/// looked at; where one list of the index has them all, it is borrowed. The one error is running out of memory.
pub fn due_of<'s>(
    alloc: Global,
    spans: &[Span],
    stream: &'s Stream,
    nsp: &str,
    birth: u64,
    high: u64,
) -> Result<CowSlice<'s, u64, Global>, AllocError>
    ensures { IfOk result (λ due. cow_slice_items due
        ≡ due_by_spans spans.now stream.now nsp.now birth high) }
{
    let within = Interval {
        after: birth,
        last: high,
    };
    let found = candidates_of(alloc, spans, stream, nsp, within)?;
    let excepted = of_spans(alloc, By::Excepted, spans, stream, nsp, within)?;
    removed(alloc, excepted.as_slice(), found)
}

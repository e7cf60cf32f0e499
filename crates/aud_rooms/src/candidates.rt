//! The positions that may be due by spans, and those that spans except.
ghost use Rattle.std.specs.Prelude.{◌≡◌, ◌∷◌, [], IfOk, length};
ghost use Rattle.std.specs.List.{filter};
ghost use Rattle.std.specs.Cow.{cow_slice_items};
ghost use Rattle.aud_node.specs.Stream.{entry, positions_after};
ghost use Rattle.aud_rooms.specs.Private.Candidates.{candidates, is_by, is_by_some};

use crate::cut::past_upto;
use crate::interval::Interval;
use crate::merge::merged;
use crate::span::Span;
use aud_node::Stream;
use std::alloc::{AllocError, Global};
use std::borrow::CowSlice;

/// Which entries a room stands for.
#[derive(Clone, Copy, Drop)]
pub enum By {
    /// The recoverable entries of the namespace that name it.
    Named,
    /// The recoverable entries that except it, of any namespace.
    Excepted,
}

/// The positions within the interval, ascending, of the recoverable entries of the namespace that are for the whole of
/// it, or name the room of a span that holds the position.
pub(crate) fn candidates_of<'s>(
    alloc: Global,
    spans: &[Span],
    stream: &'s Stream,
    nsp: &str,
    within: Interval,
) -> Result<CowSlice<'s, u64, Global>, AllocError>
    ensures { IfOk result (λ found. cow_slice_items found
        ≡ candidates spans.now stream.now nsp.now within.after within.last) }
{
    let everyone = past_upto(stream.to_all(nsp), within.after, within.last);
    let some = of_spans(alloc, By::Named, spans, stream, nsp, within)?;
    merged(alloc, CowSlice::Borrowed(everyone), some)
}

/// The positions within the interval, ascending, of the entries that name, or except, the room of a span that holds the
/// position. They are found by the stream's index, whose lists, which ascend, are merged two at a time.
pub(crate) fn of_spans<'s>(
    alloc: Global,
    by: By,
    spans: &[Span],
    stream: &'s Stream,
    nsp: &str,
    within: Interval,
) -> Result<CowSlice<'s, u64, Global>, AllocError>
    ensures { IfOk result (λ found. cow_slice_items found
        ≡ filter (is_by_some by spans.now stream.now nsp.now within.after within.last)
        (positions_after 0 (length stream.now))) }
{
    match spans {
        [] => Ok(CowSlice::Borrowed(&[])),
        [span] => Ok(CowSlice::Borrowed(of_span(by, span, stream, nsp, within))),
        _ => {
            let (front, back) = spans.split_at(spans.len() / 2);
            let one = of_spans(alloc, by, front, stream, nsp, within)?;
            let other = of_spans(alloc, by, back, stream, nsp, within)?;
            merged(alloc, one, other)
        }
    }
}

/// Those of the entries that name, or except, the room of the span, where it holds the position.
fn of_span<'s>(by: By, span: &Span, stream: &'s Stream, nsp: &str, within: Interval) -> &'s [u64]
    ensures { result.now ≡ filter
        (is_by_some by (span.now ∷ []) stream.now nsp.now within.after within.last)
        (positions_after 0 (length stream.now)) }
{
    let positions = of_room(by, stream, nsp, span.room.as_str());
    let after = within.after.max(span.first.saturating_sub(1));
    let upto = within.last.min(span.last);
    past_upto(positions, after, upto)
}

/// The positions, ascending, of the entries that name, or except, the room.
fn of_room<'s>(by: By, stream: &'s Stream, nsp: &str, room: &str) -> &'s [u64]
    ensures { result.now ≡ filter (λ p. is_by by (entry stream.now p) nsp.now room.now)
        (positions_after 0 (length stream.now)) }
{
    match by {
        By::Named => stream.positions(nsp, room),
        By::Excepted => stream.excepting(room),
    }
}

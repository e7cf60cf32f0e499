//! The spans of all rooms.
ghost use Rattle.std.specs.Prelude.{◌≡◌, ℕ, Some, IfOk, List};
ghost use Rattle.aud_rooms.specs.Private.Times.{Times, AreApart};
ghost use Rattle.aud_rooms.specs.Private.RoomMap.{at_room, AreOrdered};
ghost use Rattle.aud_rooms.specs.Private.Building.{spans_upto};

use crate::holding::Holding;
use crate::span::Span;
use std::alloc::{AllocError, Global};
use std::collections::BTreeMap;

/// The spans of all rooms, where positions are covered up to this one.
pub fn spans_of_rooms<'a>(
    alloc: Global,
    rooms: &BTreeMap<&'a str, Holding>,
    covered: u64,
) -> Result<Vec<Span<'a>>, AllocError>
    requires { (room : List ℕ) (t : Times) → at_room rooms.now.entries room ≡ Some t
        → AreApart 0 t.ended t.since covered }
    ensures spans { IfOk result (λ spans. spans.items ≡ spans_upto covered rooms.now.entries) }
    ensures ordered { AreOrdered rooms.now.entries }
{
    let mut spans = Vec::new(alloc);
    for (room, holding) in rooms {
        holding.push_spans(*room, covered, &mut spans)?;
    }
    Ok(spans)
}

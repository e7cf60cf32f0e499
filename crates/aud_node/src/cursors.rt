//! The cursor of a node: the last position that it took.
ghost use Rattle.std.specs.Prelude.{◌≡◌, IfOk, ◌&&◌, is_some, unwrap_or};
ghost use Rattle.aud_node.specs.Cursors.{next_cursor, position_if_past};
ghost use Rattle.aud_node.specs.Ordered.{is_in_order};

use crate::stream::Stream;
use aud_tap::{NodeRec, NodeRecs};
use std::alloc::{AllocError, Global};

/// The cursor after each record of a log, and whether the log's records are in order.
#[derive(Drop)]
pub struct Cursors {
    pub after: Vec<u64>,
    pub ordered: bool,
}

impl Cursors {
    ghost use Rattle.aud_node.specs.Private.CursorIndex.{HoldsCursors};

    /// The cursors of the log.
    pub fn build(alloc: Global, stream: &Stream<'_>, recs: &NodeRecs) -> Result<Cursors, AllocError>
        ensures { IfOk result (HoldsCursors stream.now recs.now) }
    {
        let mut after = Vec::with_capacity(alloc, recs.len())?;
        let mut ordered = !recs.is_empty();
        let mut cursor = 0;
        for number in 0..recs.len() {
            let advance = Advance::by(stream, number, &recs[number], cursor);
            cursor = advance.cursor;
            after.push(cursor)?;
            if !advance.in_order {
                ordered = false;
            }
        }
        Ok(Cursors { after, ordered })
    }
}

/// What a record does to the cursor, and whether it is in order.
#[derive(Clone, Copy)]
struct Advance {
    cursor: u64,
    in_order: bool,
}

impl Advance {
    /// To the position, in order where the record may stand there; with no position the cursor stays.
    fn to(position: Option<u64>, cursor: u64, may_stand: bool) -> Advance
        ensures cursor { result.cursor ≡ unwrap_or position cursor }
        ensures order { result.in_order ≡ (may_stand && is_some position) }
    {
        match position {
            Some(position) => Advance {
                cursor: position,
                in_order: may_stand,
            },
            None => Advance {
                cursor,
                in_order: false,
            },
        }
    }

    /// By the record with this number.
    fn by(stream: &Stream<'_>, number: usize, rec: &NodeRec, cursor: u64) -> Advance
        ensures cursor { result.cursor ≡ next_cursor stream.now number rec.now cursor }
        ensures order { result.in_order ≡ is_in_order stream.now number cursor rec.now }
    {
        match rec {
            NodeRec::Start { .. } if number > 0 => Advance::to(None, cursor, false),
            NodeRec::Start { off: None } => Advance::to(Some(0), cursor, true),
            NodeRec::Start { off: Some(off) } => {
                Advance::to(stream.position(off.as_str()), cursor, true)
            }
            NodeRec::Take { off } => {
                Advance::to(stream.next(cursor, off.as_str()), cursor, number > 0)
            }
            NodeRec::Takes { off } => {
                let position = if_past(stream.position(off.as_str()), cursor);
                Advance::to(position, cursor, number > 0)
            }
            _ => Advance::to(Some(cursor), cursor, number > 0),
        }
    }
}

/// The position, if it is past the cursor.
fn if_past(position: Option<u64>, cursor: u64) -> Option<u64>
    ensures { result ≡ position_if_past position cursor }
{
    match position {
        Some(position) if position > cursor => Some(position),
        _ => None,
    }
}

//! A node's log.
ghost use Rattle.std.specs.Prelude.{◌≡◌, ◌<◌, ◌≤◌, [], IfOk, IfSome, length, option_map};
ghost use Rattle.std.specs.List.{filter_map};
ghost use Rattle.aud_base.specs.FirstTexts.{with_texts};
ghost use Rattle.aud_base.specs.Lists.{between};
ghost use Rattle.aud_base.specs.Places.{texts_of};
ghost use Rattle.aud_node.specs.TurnRecords.{pid_of, turn_records, turn_range};
ghost use Rattle.aud_node.specs.Ordered.{is_ordered};
ghost use Rattle.aud_node.specs.OwnRecords.{own_numbers};
ghost use Rattle.aud_node.specs.NodeTap.{cursor_after};

use crate::by_name::records_by_pid;
use crate::cursors::Cursors;
use crate::recs::Recs;
use crate::rest::Rest;
use crate::stream::Stream;
use crate::turns::Turns;
use aud_base::Places;
use aud_tap::{NodeRecs, StreamRec};
use std::alloc::{AllocError, Global};
use std::hash::RandomState;
use std::marker::Model;
use std::ops::Range;

/// The records of a node's tap, borrowed, with the stream that the node takes from.
#[derive(Drop)]
pub struct NodeLog<'a> {
    stream: Rest<'a, StreamRec>,
    recs: &'a NodeRecs,
    cursors: Cursors,
    own: Places,
    turns: Turns<'a>,
}

impl<'a> Model for NodeLog<'a> {
    ghost use Rattle.aud_node.specs.NodeTap.{NodeTap};

    ghost Value = { NodeTap };

    ghost use Rattle.aud_node.specs.Private.NodeLogIndex.{HoldsNodeLog};

    ghost view = { λ n. record { stream = n.stream; recs = n.recs.now } };

    ghost invariant = { HoldsNodeLog };
}

impl<'a> NodeLog<'a> {
    ghost use Rattle.aud_node.specs.NodeTap.{NodeTap};

    pub(crate) fn build(
        alloc: Global,
        keys: RandomState,
        stream: &Stream<'a>,
        recs: &'a NodeRecs,
    ) -> Result<NodeLog<'a>, AllocError>
        ensures stream { IfOk result (λ log. log.stream ≡ stream.now) }
        ensures recs { IfOk result (λ log. log.recs ≡ recs.now) }
    {
        let cursors = Cursors::build(alloc, stream, recs)?;
        let own = records_by_pid(alloc, keys, recs)?;
        let turns = Turns::build(alloc, keys, recs)?;
        Ok(NodeLog {
            stream: stream.entries(),
            recs,
            cursors,
            own,
            turns,
        })
    }

    /// The records.
    pub fn recs(&self) -> Recs<'a>
        ensures { result ≡ self.now.recs }
    {
        Recs::new(self.recs)
    }

    /// The cursor after the record with this number: the last position taken, 0 before the first.
    pub fn cursor_after(&self, number: usize) -> Option<u64>
        ensures { result ≡ cursor_after self.now number }
    {
        self.cursors.after.get(number).copied()
    }

    /// Whether the log begins with its only `start`, at the stream's start or after one of its entries, each `take`
    /// is of the position after the cursor, and each `takes` is of a position past the cursor.
    pub fn ordered(&self) -> bool
        ensures { result ≡ is_ordered self.now.stream self.now.recs }
    {
        self.cursors.ordered
    }

    /// The records of the session's turn, which counts from 0; none where no record begins it.
    pub fn turn_of(&self, pid: &str, turn: u16) -> Option<Recs<'a>>
        ensures { result ≡ turn_records self.now.recs pid.now turn }
    {
        match self.turns.get(pid, turn) {
            Some(span) => Some(self.recs().between(span.from, span.to)),
            None => None,
        }
    }

    /// The numbers of the records of that turn, which count from 0.
    pub fn turn_range(&self, pid: &str, turn: u16) -> Option<Range<usize>>
        ensures value { option_map (λ range. (range.start, range.end)) result
            ≡ turn_range self.now.recs pid.now turn }
        ensures records { option_map (λ range. between self.now.recs range.start range.end) result
            ≡ turn_records self.now.recs pid.now turn }
        ensures within { IfSome result (λ range. (range.start < range.end)
            × (range.end ≤ length self.now.recs)) }
    {
        match self.turns.get(pid, turn) {
            Some(span) => Some(span.from..span.to),
            None => None,
        }
    }

    /// The records by the pids that they name, borrowed.
    pub(crate) fn pids(&self) -> &Places
        ensures { texts_of result.now ≡ with_texts [] (filter_map pid_of self.now.recs) }
    {
        &self.own
    }

    /// The numbers, ascending, of the records that name the pid.
    pub fn own(&self, pid: &str) -> &[usize]
        ensures { result.now ≡ own_numbers self.now.recs pid.now }
    {
        self.own.of(pid)
    }
}

//! Where each turn of a session stands in a node's log.
ghost use Rattle.std.specs.Prelude.{◌≡◌, ◌<◌, ◌+◌, IfOk, OnOk, ℕ, Some, if◌then◌else◌, ◌&&◌, nat_eq};
ghost use Rattle.std.specs.Str.{bytes_eq};
ghost use Rattle.aud_node.specs.Stream.{Text};
ghost use Rattle.aud_node.specs.TurnRecords.{begins_turn, begins_any_turn, ends_any_turn};
ghost use Rattle.aud_node.specs.Private.TurnIndex.{kept_range, kept_end, HoldsTurns};

use crate::session_turns::SessionTurns;
use aud_tap::{NodeRec, NodeRecs};
use std::alloc::{AllocError, Global};
use std::collections::HashMap;
use std::hash::RandomState;

/// Consecutive records by their numbers: `to` is not included.
#[derive(Clone, Copy)]
pub struct TurnRange {
    pub from: usize,
    pub to: usize,
}

/// Of each pid, the turns of that session.
#[derive(Drop)]
pub struct Turns<'a> {
    alloc: Global,
    sessions: HashMap<&'a str, SessionTurns, RandomState>,
}

impl<'a> Turns<'a> {
    /// The turns in the log, which is read from its end.
    pub fn build(
        alloc: Global,
        keys: RandomState,
        recs: &'a NodeRecs,
    ) -> Result<Turns<'a>, AllocError>
        ensures { IfOk result (HoldsTurns recs.now) }
    {
        let mut turns = Turns {
            alloc,
            sessions: HashMap::with_hasher(alloc, keys),
        };
        for number in (0..recs.len()).rev() {
            turns.put(recs.len(), number, &recs[number])?;
        }
        Ok(turns)
    }

    /// The records of the pid's turn with this number.
    pub fn get(&self, pid: &str, turn: u16) -> Option<TurnRange>
        ensures { result ≡ kept_range self.now pid.now turn }
    {
        match self.sessions.get(pid) {
            Some(session) => session.get(turn),
            None => None,
        }
    }

    /// One record more, which stands before those seen so far of a log with `len` records.
    fn put(&mut self, len: usize, number: usize, rec: &'a NodeRec) -> Result<(), AllocError>
        requires { number < len }
        ensures spans { OnOk result ((q : Text) (k : ℕ)
            → kept_range self.new q k ≡ (if begins_turn q k rec.now
            then Some (record { from = number; to = kept_end self.old q len })
            else kept_range self.old q k)) }
        ensures ends { OnOk result ((q : Text)
            → kept_end self.new q len ≡ (if begins_any_turn q rec.now then number
            else if ends_any_turn q rec.now then number + 1 else kept_end self.old q len)) }
    {
        match rec {
            NodeRec::Opened { pid, .. } => self.begin(len, pid.as_str(), 0, number),
            NodeRec::Back { pid, turn: 0 } => self.end(pid.as_str(), number),
            NodeRec::Back { pid, turn } => self.begin(len, pid.as_str(), *turn, number),
            NodeRec::Broke { pid, .. } => self.end(pid.as_str(), number + 1),
            NodeRec::Gone { pid } => self.end(pid.as_str(), number + 1),
            _ => Ok(()),
        }
    }

    /// The turn begins with the record of this number.
    fn begin(
        &mut self,
        len: usize,
        pid: &'a str,
        turn: u16,
        number: usize,
    ) -> Result<(), AllocError>
        ensures spans { OnOk result ((q : Text) (k : ℕ)
            → kept_range self.new q k ≡ (if bytes_eq pid.now q && nat_eq turn k
            then Some (record { from = number; to = kept_end self.old pid.now len })
            else kept_range self.old q k)) }
        ensures ends { OnOk result ((q : Text)
            → kept_end self.new q len ≡ (if bytes_eq pid.now q then number
            else kept_end self.old q len)) }
    {
        let session = self
            .sessions
            .entry(pid)?
            .or_insert(SessionTurns::new(self.alloc));
        session.begin(len, turn, number)?;
        Ok(())
    }

    /// A turn of the pid that is going on ends before the record with this number.
    fn end(&mut self, pid: &'a str, number: usize) -> Result<(), AllocError>
        ensures spans { OnOk result ((q : Text) (k : ℕ)
            → kept_range self.new q k ≡ kept_range self.old q k) }
        ensures ends { OnOk result ((q : Text) (len : ℕ)
            → kept_end self.new q len ≡ (if bytes_eq pid.now q then number
            else kept_end self.old q len)) }
    {
        let session = self
            .sessions
            .entry(pid)?
            .or_insert(SessionTurns::new(self.alloc));
        session.end_at(number);
        Ok(())
    }
}

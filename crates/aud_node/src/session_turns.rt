//! Where the turns of one session stand in a node's log.
ghost use Rattle.std.specs.Prelude.{◌≡◌, ◌<◌, ℕ, None, OnOk, Some, if◌then◌else◌, nat_eq, unwrap_or};
ghost use Rattle.aud_node.specs.Private.TurnIndex.{span_in};

use crate::turns::TurnRange;
use std::alloc::{AllocError, Global};
use std::collections::BTreeMap;

/// The turns of a session that begin with records seen so far of a log, which is read from its end.
#[derive(Drop)]
pub struct SessionTurns {
    /// Where a turn ends that is going on before the records seen so far.
    pub end: Option<usize>,
    /// The turn that was seen first, with its number. Most sessions have no others.
    pub first: Option<(u16, TurnRange)>,
    pub others: BTreeMap<u16, TurnRange>,
}

impl SessionTurns {
    /// No turns.
    pub fn new(alloc: Global) -> SessionTurns
        ensures end { result.end ≡ None }
        ensures spans { (k : ℕ) → span_in result k ≡ None }
    {
        SessionTurns {
            end: None,
            first: None,
            others: BTreeMap::new(alloc),
        }
    }

    /// The records of the turn with this number.
    pub fn get(&self, turn: u16) -> Option<TurnRange>
        ensures { result ≡ span_in self.now turn }
    {
        match self.first {
            Some((number, span)) if number == turn => Some(span),
            _ => self.others.get(&turn).copied(),
        }
    }

    /// The turn begins with the record of this number; it ends with the log, of `len` records, where no later record
    /// ends it.
    pub fn begin(&mut self, len: usize, turn: u16, number: usize) -> Result<(), AllocError>
        ensures spans { OnOk result ((k : ℕ)
            → span_in self.new k ≡ (if nat_eq turn k
            then Some (record { from = number; to = unwrap_or self.old.end len })
            else span_in self.old k)) }
        ensures end { OnOk result (self.new.end ≡ Some number) }
    {
        let to = self.end.unwrap_or(len);
        self.keep(turn, TurnRange { from: number, to })?;
        self.end = Some(number);
        Ok(())
    }

    /// A turn that is going on ends before the record with this number.
    pub fn end_at(&mut self, number: usize)
        ensures spans { (k : ℕ) → span_in self.new k ≡ span_in self.old k }
        ensures end { self.new.end ≡ Some number }
    {
        self.end = Some(number);
    }

    /// The turn with this number is these records, whichever it was before.
    fn keep(&mut self, turn: u16, span: TurnRange) -> Result<(), AllocError>
        ensures spans { OnOk result ((k : ℕ)
            → span_in self.new k ≡ (if nat_eq turn k then Some span else span_in self.old k)) }
        ensures end { self.new.end ≡ self.old.end }
    {
        match self.first {
            Some((number, _)) if number != turn => {
                self.others.insert(turn, span)?;
            }
            _ => self.first = Some((turn, span)),
        }
        Ok(())
    }
}

//! Consecutive records of a node's log.
ghost use Rattle.std.specs.Prelude.{◌≡◌, ◌==◌, length, slice_get};
ghost use Rattle.std.specs.Option.{option_copied};
ghost use Rattle.aud_base.specs.Lists.{between};

use aud_tap::{NodeRec, NodeRecs};
use std::marker::Model;

/// Consecutive records of a node's log, borrowed; seen as their list.
#[derive(Drop)]
pub struct Recs<'a> {
    recs: &'a NodeRecs,
    from: usize,
    to: usize,
}

impl<'a> Model for Recs<'a> {
    ghost use Rattle.std.specs.Prelude.{◌≤◌, List, length};
    ghost use Rattle.aud_base.specs.Lists.{between};
    ghost use Rattle.aud_tap.specs.declared.records.NodeRec.{NodeRec};

    ghost Value = { List NodeRec };

    ghost view = { λ r. between r.recs.now r.from r.to };

    ghost invariant = { λ r. (r.from ≤ r.to) × (r.to ≤ length r.recs.now) };
}

impl<'a> Recs<'a> {
    pub(crate) fn new(recs: &'a NodeRecs) -> Recs<'a>
        ensures { result ≡ recs.now }
    {
        Recs {
            recs,
            from: 0,
            to: recs.len(),
        }
    }

    /// How many records these are.
    pub fn len(&self) -> usize
        ensures { result ≡ length self.now }
    {
        self.to - self.from
    }

    pub fn is_empty(&self) -> bool
        ensures { result ≡ (length self.now == 0) }
    {
        self.from == self.to
    }

    /// The record with this number, which counts from 0; borrowed for as long as the log.
    pub fn get(&self, number: usize) -> Option<&'a NodeRec>
        ensures { option_copied result ≡ slice_get self.now number }
    {
        if number < self.to - self.from {
            self.recs.get(self.from + number)
        } else {
            None
        }
    }

    /// The records from number `from` on, before number `to`; fewer where there are no more.
    pub fn between(&self, from: usize, to: usize) -> Recs<'a>
        ensures { result ≡ between self.now from to }
    {
        let to = to.min(self.to - self.from);
        let from = from.min(to);
        Recs {
            recs: self.recs,
            from: self.from + from,
            to: self.from + to,
        }
    }
}

//! When each room is held, while positions are covered one after another.
ghost use Rattle.std.specs.Prelude.{◌≡◌, IfOk, OnOk};
ghost use Rattle.aud_rooms.specs.Assigned.{Assigned, starting, with_joined, with_left, covered_upto, AreSpansOf};

use crate::holding::Holding;
use crate::room_spans::spans_of_rooms;
use crate::span::Span;
use std::alloc::{AllocError, Global};
use std::collections::BTreeMap;
use std::marker::Model;

/// The rooms of the positions past `low` up to `covered`, and the rooms held now: for each room, when it is held.
#[derive(Drop)]
pub struct Building<'a> {
    alloc: Global,
    low: u64,
    covered: u64,
    rooms: BTreeMap<&'a str, Holding>,
}

impl<'a> Model for Building<'a> {
    ghost use Rattle.aud_rooms.specs.Assigned.{Assigned, assigned_code};

    ghost Value = { Assigned };

    ghost coded = { assigned_code };

    ghost use Rattle.aud_rooms.specs.Private.Building.{assigned_of, AreKept};

    ghost view = { λ a. assigned_of a.low a.covered a.rooms.entries };

    ghost invariant = { λ a. AreKept a.low a.covered a.rooms.entries };
}

impl<'a> Building<'a> {
    /// Nothing is covered, and the room named by the sid is held.
    pub fn start(alloc: Global, sid: &'a str, birth: u64) -> Result<Building<'a>, AllocError>
        ensures { IfOk result (λ b. b ≡ starting sid.now birth) }
    {
        let mut rooms = BTreeMap::new(alloc);
        rooms.insert(sid, Holding::new(alloc, birth))?;
        Ok(Building {
            alloc,
            low: birth,
            covered: birth,
            rooms,
        })
    }

    /// The positions that aren't covered yet, up to this one, take the rooms held now.
    pub fn cover(&mut self, position: u64)
        ensures { self.new ≡ covered_upto position self.old }
    {
        if self.covered < position {
            self.covered = position;
        }
    }

    /// The room is held from now on.
    pub fn join(&mut self, room: &'a str) -> Result<(), AllocError>
        ensures { OnOk result (self.new ≡ with_joined room.now self.old) }
    {
        if let Some(holding) = self.rooms.get_mut(room) {
            holding.open(self.covered);
            return Ok(());
        }
        self.rooms
            .insert(room, Holding::new(self.alloc, self.covered))?;
        Ok(())
    }

    /// The room is held no longer.
    pub fn leave(&mut self, room: &str) -> Result<(), AllocError>
        ensures { OnOk result (self.new ≡ with_left room.now self.old) }
    {
        let Some(holding) = self.rooms.get_mut(room) else {
            return Ok(());
        };
        holding.shut(self.covered)
    }

    /// The spans of the covered positions.
    pub fn finish(self) -> Result<Vec<Span<'a>>, AllocError>
        ensures { IfOk result (λ spans. AreSpansOf self.entry spans.items) }
    {
        spans_of_rooms(self.alloc, &self.rooms, self.covered)
    }
}

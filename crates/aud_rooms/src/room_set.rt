//! The rooms that a session holds.
ghost use Rattle.std.specs.Prelude.{◌≡◌, OnOk, OnErr};
ghost use Rattle.std.specs.FinSet as set;
ghost use Rattle.aud_rooms.specs.Rooms.{Rooms};

use std::alloc::{AllocError, Global};
use std::collections::BTreeSet;
use std::marker::Model;

/// The rooms that a session holds, their names borrowed; seen as a set.
#[derive(Drop)]
pub struct RoomSet<'a> {
    rooms: BTreeSet<&'a str>,
}

impl<'a> Model for RoomSet<'a> {
    ghost use Rattle.std.specs.Coded.{coded_ℕ, coded_list};
    ghost use Rattle.std.specs.Prelude.{map};
    ghost use Rattle.std.specs.FinSet as set;
    ghost use Rattle.aud_rooms.specs.Rooms.{Rooms};

    ghost Value = { Rooms };

    ghost coded = { set.code (coded_list coded_ℕ) };

    ghost view = { λ a. set.from_list (map (λ room. room.now) a.rooms.keys) };
}

impl<'a> RoomSet<'a> {
    /// No rooms.
    pub fn new(alloc: Global) -> RoomSet<'a>
        ensures { result ≡ set.empty }
    {
        RoomSet {
            rooms: BTreeSet::new(alloc),
        }
    }

    /// Whether the room is held.
    pub fn contains(&self, room: &str) -> bool
        ensures { result ≡ set.contains self.now room.now }
    {
        self.rooms.contains(room)
    }

    /// The room is held from now on; one that is held already changes nothing. Where memory is wanted, the rooms are as
    /// they were.
    pub fn join(&mut self, room: &'a str) -> Result<(), AllocError>
        ensures joined { OnOk result (self.new ≡ set.insert self.old room.now) }
        ensures unchanged { OnErr result (self.new ≡ self.old) }
    {
        self.rooms.insert(room)?;
        Ok(())
    }

    /// The room is held no longer; one that isn't held changes nothing.
    pub fn leave(&mut self, room: &str)
        ensures { self.new ≡ set.remove self.old room.now }
    {
        self.rooms.remove(room);
    }
}

//! The rooms that a session holds, and whom an entry is addressed to.
ghost use Rattle.std.specs.Prelude.{◌≡◌, IfOk, OnOk};
ghost use Rattle.std.specs.List.{list_any};
ghost use Rattle.std.specs.FinSet as set;
ghost use Rattle.aud_rooms.specs.Rooms.{Rooms, is_addressed, own_room};
ghost use Rattle.aud_sim.specs.Texts.{main_namespace};

use aud_tap::{Event, StreamRec, Text};
use std::alloc::{AllocError, Global};
use std::collections::BTreeSet;
use std::marker::Model;

/// The rooms that a session holds; seen as a set.
#[derive(Drop)]
pub struct HeldRooms {
    alloc: Global,
    rooms: BTreeSet<String>,
}

impl Model for HeldRooms {
    ghost use Rattle.std.specs.Coded.{coded_ℕ, coded_list};
    ghost use Rattle.std.specs.Prelude.{map, string_bytes};
    ghost use Rattle.std.specs.FinSet as set;
    ghost use Rattle.aud_rooms.specs.Rooms.{Rooms};

    ghost Value = { Rooms };

    ghost coded = { set.code (coded_list coded_ℕ) };

    ghost view = { λ a. set.from_list (map string_bytes a.rooms.keys) };
}

impl HeldRooms {
    /// The one room that is named by a sid.
    pub fn own(alloc: Global, sid: &str) -> Result<HeldRooms, AllocError>
        ensures { IfOk result (λ rooms. rooms ≡ own_room sid.now) }
    {
        let mut rooms = HeldRooms {
            alloc,
            rooms: BTreeSet::new(alloc),
        };
        rooms.join(sid)?;
        Ok(rooms)
    }

    /// Whether the room is held.
    pub fn contains(&self, room: &str) -> bool
        ensures { result ≡ set.contains self.now room.now }
    {
        self.rooms.contains(room)
    }

    /// The room is held from now on; one that is held already changes nothing.
    pub fn join(&mut self, room: &str) -> Result<(), AllocError>
        ensures { OnOk result (self.new ≡ set.insert self.old room.now) }
    {
        let own = String::from_str(self.alloc, room)?;
        self.rooms.insert(own)?;
        Ok(())
    }

    /// The room is held no longer; one that isn't held changes nothing.
    pub fn leave(&mut self, room: &str)
        ensures { self.new ≡ set.remove self.old room.now }
    {
        self.rooms.remove(room);
    }
}

/// Whether one of the rooms is held.
fn holds_any(held: &HeldRooms, rooms: &[Text]) -> bool
    ensures { result ≡ list_any (set.contains held.now) rooms.now }
{
    rooms.iter().any(|room| held.contains(room.as_str()))
}

/// Whether an event is addressed to a session in the main namespace that holds these rooms.
pub fn is_addressed(event: &Event, held: &HeldRooms) -> bool
    ensures { result ≡ is_addressed (StreamRec.Ev event.now) main_namespace held.now }
{
    if event.nsp.as_str() != "/" || holds_any(held, event.except.as_slice()) {
        return false;
    }
    let rooms = event.rooms.as_slice();
    rooms.is_empty() || holds_any(held, rooms)
}

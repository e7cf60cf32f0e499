//! The entries of the stream by whom they are addressed to, and whom they except.
ghost use Rattle.std.specs.Prelude.{◌≡◌, IfOk, OnOk, ℕ, List, map, ◌&&◌};
ghost use Rattle.std.specs.List.{list_any};
ghost use Rattle.std.specs.Str.{bytes_eq};
ghost use Rattle.aud_node.specs.Recoverable.{is_recoverable};
ghost use Rattle.aud_base.specs.Places.{noted};
ghost use Rattle.aud_node.specs.Addressees.{excepts_room, names_no_room, names_room};
ghost use Rattle.aud_node.specs.Private.AddresseeIndex.{HoldsAddressees, kept_of, kept_to_room};

use crate::positions::Positions;
use crate::rest::Rest;
use aud_tap::{StreamRec, Text};
use std::alloc::{AllocError, Global};
use std::collections::HashMap;
use std::hash::RandomState;

/// Of each namespace, the positions of the recoverable entries for the whole of it, and of those that name a room, by
/// the room. Of all namespaces together, the positions of those that except a room, by the room.
#[derive(Drop)]
pub struct Addressees<'a> {
    alloc: Global,
    keys: RandomState,
    everyone: Positions<'a>,
    rooms: HashMap<&'a str, Positions<'a>, RandomState>,
    excepted: Positions<'a>,
}

impl<'a> Addressees<'a> {
    /// The positions of these entries, of which the flags say whether they are recoverable. An entry costs its rooms.
    pub fn build(
        alloc: Global,
        keys: RandomState,
        entries: &Rest<'a, StreamRec>,
        recoverable: &[bool],
    ) -> Result<Addressees<'a>, AllocError>
        requires { recoverable.now ≡ map is_recoverable entries.now }
        ensures { IfOk result (HoldsAddressees entries.now) }
    {
        let mut addressees = Addressees {
            alloc,
            keys,
            everyone: Positions::new(alloc, keys),
            rooms: HashMap::with_hasher(alloc, keys),
            excepted: Positions::new(alloc, keys),
        };
        for i in 0..entries.len() {
            addressees.note(entries.at(i), recoverable[i], i as u64 + 1)?;
        }
        Ok(addressees)
    }

    /// The positions, ascending, of the entries of the namespace that name the room.
    pub fn to_room(&self, nsp: &str, room: &str) -> &[u64]
        ensures { result.now ≡ kept_to_room self.now nsp.now room.now }
    {
        match self.rooms.get(nsp) {
            Some(positions) => positions.of(room),
            None => &[],
        }
    }

    /// The positions, ascending, of the entries for the whole namespace.
    pub fn to_all(&self, nsp: &str) -> &[u64]
        ensures { result.now ≡ kept_of self.now.everyone nsp.now }
    {
        self.everyone.of(nsp)
    }

    /// The positions, ascending, of the entries that except the room, whatever their namespace.
    pub fn excepting(&self, room: &str) -> &[u64]
        ensures { result.now ≡ kept_of self.now.excepted room.now }
    {
        self.excepted.of(room)
    }

    /// The entry stands at this position, after all those noted so far; it is noted where it is recoverable.
    fn note(
        &mut self,
        entry: &'a StreamRec,
        recoverable: bool,
        position: u64,
    ) -> Result<(), AllocError>
        ensures rooms { OnOk result ((nsp room : List ℕ)
            → kept_to_room self.new nsp room
            ≡ noted position (recoverable && names_room entry.now nsp room)
            (kept_to_room self.old nsp room)) }
        ensures everyone { OnOk result ((nsp : List ℕ)
            → kept_of self.new.everyone nsp
            ≡ noted position (recoverable && names_no_room entry.now nsp)
            (kept_of self.old.everyone nsp)) }
        ensures excepted { OnOk result ((room : List ℕ)
            → kept_of self.new.excepted room
            ≡ noted position (recoverable && excepts_room entry.now room)
            (kept_of self.old.excepted room)) }
    {
        let StreamRec::Ev(event) = entry else {
            return Ok(());
        };
        if !recoverable {
            return Ok(());
        }
        note_each(&mut self.excepted, event.except.as_slice(), position)?;
        let nsp = event.nsp.as_str();
        let rooms = event.rooms.as_slice();
        if rooms.is_empty() {
            self.everyone.note(position, nsp)
        } else {
            self.note_rooms(nsp, rooms, position)
        }
    }

    /// The position is one of each of these rooms of the namespace.
    fn note_rooms(
        &mut self,
        nsp: &'a str,
        rooms: &'a [Text],
        position: u64,
    ) -> Result<(), AllocError>
        ensures rooms { OnOk result ((q room : List ℕ)
            → kept_to_room self.new q room
            ≡ noted position
            (bytes_eq nsp.now q && list_any (λ other. bytes_eq other room) rooms.now)
            (kept_to_room self.old q room)) }
        ensures everyone { self.new.everyone ≡ self.old.everyone }
        ensures excepted { self.new.excepted ≡ self.old.excepted }
    {
        let none = Positions::new(self.alloc, self.keys);
        let positions = self.rooms.entry(nsp)?.or_insert(none);
        note_each(positions, rooms, position)?;
        Ok(())
    }
}

/// The position is one of each of these rooms.
fn note_each<'a>(
    positions: &mut Positions<'a>,
    rooms: &'a [Text],
    position: u64,
) -> Result<(), AllocError>
    ensures { OnOk result ((q : List ℕ)
        → kept_of positions.new q
        ≡ noted position (list_any (λ room. bytes_eq room q) rooms.now)
        (kept_of positions.old q)) }
{
    for room in rooms {
        positions.note(position, room.as_str())?;
    }
    Ok(())
}

//! For whom entries of the stream can be among the sessions of a part.
ghost use Rattle.std.specs.Prelude.{◌≡◌, ◌||◌, ℕ, List, IfOk, OnOk};
ghost use Rattle.aud_parts.specs.MadeOther.{any_record};
ghost use Rattle.aud_parts.specs.Part.{opens_nsp, grants};
ghost use Rattle.aud_parts.specs.Private.OwnRecords.{has, is_for, passes_own};

use crate::part::own_records::{TextSet, has_any, names_own, put};
use aud_tap::{NodeRec, Records, StreamRec, Tap};
use std::alloc::{AllocError, Global};
use std::collections::HashSet;
use std::hash::RandomState;

/// The namespaces in which sessions of a part are opened, and the rooms that they ever hold.
#[derive(Drop)]
pub struct Audience {
    pub namespaces: TextSet,
    pub rooms: TextSet,
}

impl Audience {
    /// Those of these sessions, by the records in the nodes' taps. Texts are shared, and hashed with these keys.
    pub fn build(
        alloc: Global,
        keys: RandomState,
        own: &TextSet,
        taps: &[Tap],
    ) -> Result<Audience, AllocError>
        ensures namespaces { IfOk result (λ audience. (q : List ℕ) → has audience.namespaces q
            ≡ any_record (passes_own (has own.now) (opens_nsp q)) taps.now) }
        ensures rooms { IfOk result (λ audience. (q : List ℕ) → has audience.rooms q
            ≡ any_record (passes_own (has own.now) (grants q)) taps.now) }
    {
        let mut audience = Audience {
            namespaces: HashSet::with_hasher(alloc, keys),
            rooms: HashSet::with_hasher(alloc, keys),
        };
        for tap in taps {
            let Records::Node(recs) = &tap.records else {
                continue;
            };
            for number in 0..recs.len() {
                audience.note_own(own, &recs[number])?;
            }
        }
        Ok(audience)
    }

    /// Adds the namespace in which the record opens a session, and the room that it grants, if it names one of these
    /// sessions.
    fn note_own(&mut self, own: &TextSet, rec: &NodeRec) -> Result<(), AllocError>
        ensures namespaces { OnOk result ((q : List ℕ) → has self.new.namespaces q
            ≡ (has self.old.namespaces q || passes_own (has own.now) (opens_nsp q) rec.now)) }
        ensures rooms { OnOk result ((q : List ℕ) → has self.new.rooms q
            ≡ (has self.old.rooms q || passes_own (has own.now) (grants q) rec.now)) }
    {
        if !names_own(own, rec) {
            return Ok(());
        }
        match rec {
            NodeRec::Opened { sid, nsp, .. } => {
                put(&mut self.namespaces, nsp)?;
                put(&mut self.rooms, sid)
            }
            NodeRec::Join { room, .. } => put(&mut self.rooms, room),
            NodeRec::Start { .. }
            | NodeRec::Take { .. }
            | NodeRec::Takes { .. }
            | NodeRec::Leave { .. }
            | NodeRec::Broke { .. }
            | NodeRec::Back { .. }
            | NodeRec::Gone { .. } => Ok(()),
        }
    }

    /// Whether the entry is an event for one of the namespaces, and for no room or one of the rooms.
    pub fn is_for(&self, entry: &StreamRec) -> bool
        ensures { result ≡ is_for (has self.now.namespaces) (has self.now.rooms) entry.now }
    {
        let StreamRec::Ev(event) = entry else {
            return false;
        };
        if !self.namespaces.contains(&event.nsp) {
            return false;
        }
        let rooms = event.rooms.as_slice();
        rooms.is_empty() || has_any(&self.rooms, rooms)
    }
}

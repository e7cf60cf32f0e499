//! The entries of the stream, while they are read.
ghost use Rattle.std.specs.Prelude.{◌≡◌, ◌∷◌, ◌++◌, [], length, map, MatchResult};
ghost use Rattle.aud_json.specs.View.{view};
ghost use Rattle.aud_reader.specs.Steps.{Gives};
ghost use Rattle.aud_reader.specs.Private.Offsets.{HoldsOffsets};
ghost use Rattle.aud_tap.specs.RecordFields.{offset_of};
ghost use Rattle.aud_reader.specs.Bundle.{entry_room, with_entry, with_new_entry};

use super::offsets::Offsets;
use crate::fault::{LIMIT, LineFault};
use crate::limits::MAX_ENTRIES;
use crate::read::stream::stream_record;
use aud_base::TextPool;
use aud_json::Fields;
use aud_tap::{StreamRec, StreamRecs};
use std::alloc::Global;
use std::hash::RandomState;
use std::marker::Model;

/// Adds the offset of an entry, unless it is there already, or there are too many entries.
fn admit(
    alloc: Global,
    keys: RandomState,
    entries: &StreamRecs,
    offsets: &mut Offsets,
    entry: &StreamRec,
) -> Result<(), LineFault>
    requires { HoldsOffsets offsets.old (map offset_of entries.now) }
    ensures new { Gives result
        (entry_room (length entries.now) (map offset_of entries.now) entry.now) }
    ensures kept { MatchResult result
        (λ _. HoldsOffsets offsets.new (map offset_of entries.now ++ offset_of entry.now ∷ []))
        (λ _. HoldsOffsets offsets.new (map offset_of entries.now)) }
{
    if entries.len() >= MAX_ENTRIES {
        return Err(LIMIT);
    }
    offsets.add(alloc, keys, entries, entry.offset())
}

/// The entries so far, and their offsets.
#[derive(Drop)]
pub struct StreamLog {
    alloc: Global,
    keys: RandomState,
    entries: StreamRecs,
    offsets: Offsets,
}

impl Model for StreamLog {
    ghost use Rattle.std.specs.Prelude.{List, map};
    ghost use Rattle.aud_tap.specs.declared.records.StreamRec.{StreamRec};
    ghost use Rattle.aud_tap.specs.RecordFields.{offset_of};
    ghost use Rattle.aud_reader.specs.Private.Offsets.{HoldsOffsets};

    ghost Value = { List StreamRec };

    ghost view = { λ s. s.entries };

    ghost invariant = { λ s. HoldsOffsets s.offsets (map offset_of s.entries) };
}

impl StreamLog {
    ghost use Rattle.aud_reader.specs.Private.Changes.{Becomes};

    /// No entries. Their offsets are hashed with these keys.
    pub fn new(alloc: Global, keys: RandomState) -> StreamLog
        ensures { result ≡ [] }
    {
        StreamLog {
            alloc,
            keys,
            entries: StreamRecs::new(alloc),
            offsets: Offsets::Ascending(0),
        }
    }

    /// Adds an entry, unless there are too many or an earlier one has its offset. Where memory runs out, the entries
    /// may be dropped.
    pub fn push(&mut self, entry: StreamRec) -> Result<(), LineFault>
        ensures { Becomes result self.new (with_new_entry self.old entry) }
    {
        admit(
            self.alloc,
            self.keys,
            &self.entries,
            &mut self.offsets,
            &entry,
        )?;
        match self.entries.push(entry) {
            Ok(()) => Ok(()),
            Err(_) => {
                self.entries = StreamRecs::new(self.alloc);
                self.offsets = Offsets::Ascending(0);
                Err(LineFault::Memory)
            }
        }
    }

    /// Adds the entry of a line, of which the texts are shared with the pool.
    #[tactic(auto, unfolding(crate::specs::Bundle::with_entry))]
    pub fn add(&mut self, pool: &mut TextPool, kind: &str, d: &Fields<'_>) -> Result<(), LineFault>
        ensures { Becomes result self.new (with_entry self.old kind.now (view d.now)) }
    {
        let entry = stream_record(self.alloc, pool, kind, d)?;
        self.push(entry)
    }

    /// The entries, at the end.
    pub fn close(self) -> StreamRecs
        ensures { result ≡ self }
    {
        self.entries
    }
}

//! Where each offset stands in the stream, by the offset.
ghost use Rattle.std.specs.Prelude.{◌≡◌, IfOk, OnOk, Some, None, true, if◌then◌else◌};
ghost use Rattle.std.specs.Str.{bytes_eq};
ghost use Rattle.aud_node.specs.Stream.{Text};
ghost use Rattle.aud_node.specs.Private.OffsetIndex.{kept_position, HoldsPositions};

use crate::rest::Rest;
use aud_tap::StreamRec;
use std::alloc::{AllocError, Global};
use std::collections::HashMap;
use std::hash::RandomState;

/// The position of each offset of the stream.
#[derive(Drop)]
pub struct OffsetMap<'a> {
    positions: HashMap<&'a str, u64, RandomState>,
    /// No two entries have the same offset.
    distinct: bool,
}

impl<'a> OffsetMap<'a> {
    /// The positions of these entries, which are read from the last on: of several with one offset the first is kept.
    pub fn build(
        alloc: Global,
        keys: RandomState,
        entries: &Rest<'a, StreamRec>,
    ) -> Result<OffsetMap<'a>, AllocError>
        ensures { IfOk result (HoldsPositions entries.now) }
    {
        let mut offsets = OffsetMap {
            positions: HashMap::with_capacity_and_hasher(alloc, entries.len(), keys)?,
            distinct: true,
        };
        for i in (0..entries.len()).rev() {
            offsets.mark(entries.at(i).offset().as_str(), i as u64 + 1)?;
        }
        Ok(offsets)
    }

    /// The position of the offset.
    pub fn get(&self, off: &str) -> Option<u64>
        ensures { result ≡ kept_position self.now off.now }
    {
        self.positions.get(off).copied()
    }

    /// Whether no two entries have the same offset.
    pub fn distinct(&self) -> bool
        ensures { result ≡ self.now.distinct }
    {
        self.distinct
    }

    /// The offset stands at this position, wherever it stood before.
    fn mark(&mut self, off: &'a str, position: u64) -> Result<(), AllocError>
        ensures positions { OnOk result ((q : Text)
            → kept_position self.new q ≡ (if bytes_eq off.now q then Some position
            else kept_position self.old q)) }
        ensures was_distinct { OnOk result (self.new.distinct ≡ true → self.old.distinct ≡ true) }
        ensures was_new { OnOk result (self.new.distinct ≡ true
            → kept_position self.old off.now ≡ None) }
    {
        let old = self.positions.insert(off, position)?;
        if old.is_some() {
            self.distinct = false;
        }
        Ok(())
    }
}

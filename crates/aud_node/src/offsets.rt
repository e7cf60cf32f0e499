//! Where each offset stands in the stream.
ghost use Rattle.std.specs.Prelude.{◌≡◌, List, IfOk, IfSome, true};
ghost use Rattle.aud_tap.specs.declared.records.StreamRec.{StreamRec};
ghost use Rattle.aud_node.specs.Stream.{position};
ghost use Rattle.aud_node.specs.Private.OffsetIndex.{AreFirst, HoldsOffsets, HoldsRanks, is_past};

use crate::offset_map::OffsetMap;
use crate::rest::Rest;
use aud_tap::{StreamRec, rank};
use std::alloc::{AllocError, Global};
use std::hash::RandomState;

/// What tells the position of each offset of the stream. Where the ranks of the offsets ascend, as they do in most
/// streams, an offset is searched for by its rank; else it is looked up.
#[derive(Drop)]
pub enum Offsets<'a> {
    /// The ranks in the order of the entries, each greater than the one before it.
    Ascending(Vec<u128>),
    Any(OffsetMap<'a>),
}

impl<'a> Offsets<'a> {
    /// The offsets of these entries. Where they are looked up, they are hashed with these keys.
    pub fn build(
        alloc: Global,
        keys: RandomState,
        entries: &Rest<'a, StreamRec>,
    ) -> Result<Offsets<'a>, AllocError>
        ensures { IfOk result (HoldsOffsets entries.now) }
    {
        match ranks_of(alloc, entries)? {
            Some(ranks) => Ok(Offsets::Ascending(ranks)),
            None => Ok(Offsets::Any(OffsetMap::build(alloc, keys, entries)?)),
        }
    }

    /// The position of the offset among these entries, which are those of the stream.
    pub fn get(&self, entries: &Rest<'_, StreamRec>, off: &str) -> Option<u64>
        requires { HoldsOffsets entries.now self.now }
        ensures { result ≡ position entries.now off.now }
    {
        match self {
            Offsets::Ascending(ranks) => search(ranks.as_slice(), entries, off),
            Offsets::Any(map) => map.get(off),
        }
    }

    /// Whether no two entries have the same offset.
    pub fn distinct(&self) -> bool
        ensures { (stream : List StreamRec) → HoldsOffsets stream self.now → result ≡ true
            → AreFirst stream }
    {
        match self {
            Offsets::Ascending(_) => true,
            Offsets::Any(map) => map.distinct(),
        }
    }
}

/// The ranks of the entries' offsets; none where they don't ascend.
fn ranks_of(alloc: Global, entries: &Rest<'_, StreamRec>) -> Result<Option<Vec<u128>>, AllocError>
    ensures { IfOk result (λ ranks. IfSome ranks (λ ranks. HoldsRanks entries.now ranks.items)) }
{
    let mut ranks = Vec::with_capacity(alloc, entries.len())?;
    for i in 0..entries.len() {
        let rank = rank(entries.at(i).offset().as_str());
        if !is_past(ranks.as_slice(), rank) {
            return Ok(None);
        }
        ranks.push(rank)?;
    }
    Ok(Some(ranks))
}

/// Whether the number is greater than the last of these.
fn is_past(ranks: &[u128], rank: u128) -> bool
    ensures { result ≡ is_past ranks.now rank }
{
    match ranks.last() {
        Some(last) => *last < rank,
        None => true,
    }
}

/// The position of the offset by the ranks. Only the entry of its rank can have it.
fn search(ranks: &[u128], entries: &Rest<'_, StreamRec>, off: &str) -> Option<u64>
    requires { HoldsRanks entries.now ranks.now }
    ensures { result ≡ position entries.now off.now }
{
    let Ok(i) = ranks.binary_search(&rank(off)) else {
        return None;
    };
    if entries.at(i).offset().as_str() != off {
        return None;
    }
    Some(i as u64 + 1)
}

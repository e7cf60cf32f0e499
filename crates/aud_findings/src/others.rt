//! Which other entries have the same fault.
ghost use Rattle.std.specs.Prelude.{◌≡◌, ◌&&◌, ℕ, List, IfOk, OnOk, cond, filter, nat_eq, nat_lt, true};
ghost use Rattle.std.specs.HashSet as hash;
ghost use Rattle.aud_check.specs.Difference.{has_position};
ghost use Rattle.aud_findings.specs.Also.{AreAllOf, is_also};
ghost use Rattle.aud_findings.specs.Private.Seen.{AreSeen, is_also_by};

use aud_check::Difference;
use std::alloc::{AllocError, Global};
use std::collections::HashSet;
use std::hash::RandomState;

/// Positions: all that stand in a list, those that stand there again, and those that stand there too late, after one that
/// comes after them.
#[derive(Drop)]
pub(crate) struct Seen {
    pub once: HashSet<u64, RandomState>,
    pub twice: HashSet<u64, RandomState>,
    pub late: HashSet<u64, RandomState>,
    /// The greatest of them, 0 where there are none.
    pub last: u64,
}

/// All positions that have the fault of the difference too, ascending, but for the one that it is about: of one that
/// wasn't due those that were received and weren't due; of one that came twice, too late or never those due that did so
/// too. Positions are hashed with these keys.
pub(crate) fn others(
    alloc: Global,
    keys: RandomState,
    received: &[u64],
    due: &[u64],
    difference: Difference,
) -> Result<Vec<u64>, AllocError>
    ensures { IfOk result (λ found.
        AreAllOf (is_also received.now due.now difference) found.items) }
{
    match difference {
        Difference::Extra { .. } => among(alloc, keys, received, due, difference),
        _ => among(alloc, keys, due, received, difference),
    }
}

/// Those of the positions that have it, against the others: ascending, each once.
fn among(
    alloc: Global,
    keys: RandomState,
    positions: &[u64],
    against: &[u64],
    difference: Difference,
) -> Result<Vec<u64>, AllocError>
    ensures { IfOk result (λ found. AreAllOf
        (λ p. has_position positions.now p && is_also_by against.now difference p) found.items) }
{
    let seen = seen_in(alloc, keys, against)?;
    let found = all_others(alloc, &seen, positions, difference)?;
    Ok(ascending(found))
}

/// These positions, ascending, each once.
pub(crate) fn ascending(positions: Vec<u64>) -> Vec<u64>
    ensures { AreAllOf (has_position positions.items) result.items }
{
    let mut all = positions;
    all.sort_unstable();
    all.dedup();
    all
}

/// Those of the positions that have it, against those that were seen.
fn all_others(
    alloc: Global,
    seen: &Seen,
    positions: &[u64],
    difference: Difference,
) -> Result<Vec<u64>, AllocError>
    ensures { (against : List ℕ) → AreSeen against seen.now
        → IfOk result (λ found.
        found.items ≡ filter (is_also_by against difference) positions.now) }
{
    let mut found = Vec::new(alloc);
    for position in positions {
        if is_also(seen, difference, *position) {
            found.push(*position)?;
        }
    }
    Ok(found)
}

/// Whether the position has the fault of the difference too, against those that were seen, and is another one.
fn is_also(seen: &Seen, difference: Difference, position: u64) -> bool
    ensures { (against : List ℕ) → AreSeen against seen.now
        → result ≡ is_also_by against difference position }
{
    match difference {
        Difference::Extra {
            position: first,
            ..
        } => !seen.once.contains(&position) && position != first,
        Difference::Doubled {
            position: first,
            ..
        } => seen.twice.contains(&position) && position != first,
        Difference::Swapped { due, .. } => seen.late.contains(&position) && position != due,
        Difference::Lost { due, .. } => {
            !seen.once.contains(&position) && position < seen.last && position != due
        }
    }
}

/// Those of these positions, which are hashed with these keys.
fn seen_in(alloc: Global, keys: RandomState, positions: &[u64]) -> Result<Seen, AllocError>
    ensures { IfOk result (AreSeen positions.now) }
{
    let mut once = HashSet::with_hasher(alloc, keys);
    let mut twice = HashSet::with_hasher(alloc, keys);
    let mut late = HashSet::with_hasher(alloc, keys);
    let mut last = 0;
    for position in positions {
        note(&mut once, &mut twice, *position)?;
        note_late(&mut late, last, *position)?;
        last = (*position).max(last);
    }
    Ok(Seen {
        once,
        twice,
        late,
        last,
    })
}

/// The position was received.
fn note(
    once: &mut HashSet<u64, RandomState>,
    twice: &mut HashSet<u64, RandomState>,
    position: u64,
) -> Result<(), AllocError>
    ensures once { OnOk result ((q : ℕ)
        → hash.contains nat_eq once.new q
        ≡ cond (nat_eq position q) true (hash.contains nat_eq once.old q)) }
    ensures twice { OnOk result ((q : ℕ)
        → hash.contains nat_eq twice.new q
        ≡ cond (nat_eq position q && hash.contains nat_eq once.old q) true
        (hash.contains nat_eq twice.old q)) }
{
    if once.insert(position)? {
        return Ok(());
    }
    twice.insert(position)?;
    Ok(())
}

/// The same after positions of which this is the greatest.
fn note_late(
    late: &mut HashSet<u64, RandomState>,
    last: u64,
    position: u64,
) -> Result<(), AllocError>
    ensures { OnOk result ((q : ℕ)
        → hash.contains nat_eq late.new q
        ≡ cond (nat_eq position q && nat_lt q last) true (hash.contains nat_eq late.old q)) }
{
    if position < last {
        late.insert(position)?;
    }
    Ok(())
}

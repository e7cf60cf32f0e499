//! What came to a client in none of its sessions.
ghost use Rattle.std.specs.Prelude.{◌≡◌, ◌++◌, ◌∷◌, ◌||◌, [], ℕ, not, IfOk, OnOk, filter};
ghost use Rattle.std.specs.BTreeSet.{contains};
ghost use Rattle.std.specs.Ordering.{nat_cmp};
ghost use Rattle.aud_check.specs.Difference.{has_position};
ghost use Rattle.aud_session_facts.specs.Missed.{came_at, not_among};

use crate::positions::positions_received;
use aud_client::{Recording, Stay};
use std::alloc::{AllocError, Global};
use std::collections::BTreeSet;

/// Of these positions those at which nothing came to the client of the tap at this place, in whichever session. It costs
/// all that came there.
pub(crate) fn not_come(
    alloc: Global,
    recording: &Recording<'_>,
    client: usize,
    positions: &[u64],
) -> Result<Vec<u64>, AllocError>
    ensures { IfOk result (λ left. left.items
        ≡ not_among (came_at recording.now client) positions.now) }
{
    let Some(transcript) = recording.client(client) else {
        return not_among(alloc, &[], positions);
    };
    let stays: Vec<&Stay<'_>> = transcript.transcript().stays.iter().collect(alloc)?;
    let came = positions_received(alloc, stays.as_slice())?;
    not_among(alloc, &came, positions)
}

/// Those of the positions that are not among the ones that came.
fn not_among(alloc: Global, came: &[u64], positions: &[u64]) -> Result<Vec<u64>, AllocError>
    ensures { IfOk result (λ left. left.items ≡ not_among came.now positions.now) }
{
    let mut all = BTreeSet::new(alloc);
    note(&mut all, came)?;
    lacking(alloc, &all, positions)
}

/// Puts these positions into the set.
fn note(all: &mut BTreeSet<u64>, came: &[u64]) -> Result<(), AllocError>
    ensures { OnOk result ((p : ℕ) → contains nat_cmp all.new p
        ≡ (contains nat_cmp all.old p || has_position came.now p)) }
{
    for position in came {
        all.insert(*position)?;
    }
    Ok(())
}

/// Those of the positions that the set doesn't have.
fn lacking(alloc: Global, all: &BTreeSet<u64>, positions: &[u64]) -> Result<Vec<u64>, AllocError>
    ensures { IfOk result (λ left. left.items
        ≡ filter (λ p. not (contains nat_cmp all.now p)) positions.now) }
{
    let mut left = Vec::new(alloc);
    for position in positions {
        push_lacking(&mut left, all, *position)?;
    }
    Ok(left)
}

/// Adds the position, if the set doesn't have it.
fn push_lacking(left: &mut Vec<u64>, all: &BTreeSet<u64>, position: u64) -> Result<(), AllocError>
    ensures { OnOk result (left.new.items ≡ left.old.items
        ++ filter (λ p. not (contains nat_cmp all.now p)) (position ∷ [])) }
{
    if !has(all, position) {
        left.push(position)?;
    }
    Ok(())
}

fn has(all: &BTreeSet<u64>, position: u64) -> bool
    ensures { result ≡ contains nat_cmp all.now position }
{
    all.contains(&position)
}

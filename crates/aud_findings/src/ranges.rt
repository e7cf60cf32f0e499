//! Ranges of positions that follow one another.
ghost use Rattle.std.specs.Prelude.{◌≡◌, ◌+◌, ◌++◌, ◌≤◌, ℕ, suc, IfOk, length};
ghost use Rattle.aud_findings.specs.Also.{following, past_ranges, ranges};

use std::alloc::{AllocError, Global};

/// Positions that follow one another.
#[derive(Clone, Copy, Drop)]
pub(crate) struct Range {
    pub first: u64,
    pub last: u64,
}

/// Positions in ranges.
#[derive(Drop)]
pub(crate) struct Ranges {
    pub found: Vec<Range>,
    /// How many positions are in none of them.
    pub left: u64,
}

/// At most so many ranges of the positions, from the front, each as long as it can be.
pub(crate) fn ranges_of(alloc: Global, positions: &[u64], most: usize) -> Result<Ranges, AllocError>
    ensures ranges { IfOk result (λ r. r.found.items ≡ ranges most positions.now) }
    ensures left { IfOk result (λ r. r.left ≡ length (past_ranges most positions.now)) }
{
    let mut found = Vec::new(alloc);
    let mut rest = positions;
    for _turn in 0..most {
        rest = take_range(&mut found, rest)?;
    }
    Ok(Ranges {
        found,
        left: rest.len() as u64,
    })
}

/// Adds the range from the front, if there is one, and gives the positions after it.
fn take_range<'p>(found: &mut Vec<Range>, positions: &'p [u64]) -> Result<&'p [u64], AllocError>
    ensures ranges { (more : ℕ) → IfOk result (λ rest.
        found.new.items ++ ranges more rest.now
        ≡ found.old.items ++ ranges (suc more) positions.now) }
    ensures left { (more : ℕ) → IfOk result (λ rest.
        past_ranges more rest.now ≡ past_ranges (suc more) positions.now) }
{
    let Some((first, others)) = positions.split_first() else {
        return Ok(positions);
    };
    let (last, count) = run_from(*first, others);
    found.push(Range {
        first: *first,
        last,
    })?;
    Ok(others.split_at(count).1)
}

/// The last of the positions that go on from this one, and how many do.
fn run_from(first: u64, positions: &[u64]) -> (u64, usize)
    ensures last { result.0 ≡ first + result.1 }
    ensures count { result.1 ≡ following first positions.now }
    ensures within { result.1 ≤ length positions.now }
{
    let mut last = first;
    let mut count = 0;
    for position in positions {
        if last.checked_add(1) != Some(*position) {
            return (last, count);
        }
        last = *position;
        count += 1;
    }
    (last, count)
}

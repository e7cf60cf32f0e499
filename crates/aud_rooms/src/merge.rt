//! Ascending numbers, merged, and those of one list that aren't in another. Of lists of the consecutive numbers that pass
//! a test, these are those that pass either, and those that pass the one alone.
ghost use Rattle.std.specs.Prelude.{◌≡◌, ◌≤◌, ◌&&◌, ◌||◌, ℕ, Bool, IfOk, length, nat_le, not, position};
ghost use Rattle.std.specs.List.{filter};
ghost use Rattle.std.specs.Cow.{cow_slice_items};
ghost use Rattle.aud_node.specs.Lists.{numbers_from};
ghost use Rattle.aud_rooms.specs.Private.Merge.{count_below as below, without_first as without};

use std::alloc::{AllocError, Global};
use std::borrow::CowSlice;

/// The numbers of two ascending lists, ascending, each once. Where one list is empty it is the other, borrowed if that is.
pub(crate) fn merged<'s>(
    alloc: Global,
    one: CowSlice<'s, u64, Global>,
    other: CowSlice<'s, u64, Global>,
) -> Result<CowSlice<'s, u64, Global>, AllocError>
    ensures { IfOk result (λ all. (p q : ℕ → Bool) (first count : ℕ)
        → cow_slice_items one.entry ≡ filter p (numbers_from first count)
        → cow_slice_items other.entry ≡ filter q (numbers_from first count)
        → cow_slice_items all ≡ filter (λ n. p n || q n) (numbers_from first count)) }
{
    if one.len() == 0 {
        return Ok(other);
    }
    if other.len() == 0 {
        return Ok(one);
    }
    let all = both(alloc, one.as_slice(), other.as_slice())?;
    Ok(CowSlice::Owned(all))
}

/// The same of lists of which none is empty. Each number is looked at a few times at most.
fn both(alloc: Global, one: &[u64], other: &[u64]) -> Result<Vec<u64>, AllocError>
    ensures { IfOk result (λ all. (p q : ℕ → Bool) (first count : ℕ)
        → one.now ≡ filter p (numbers_from first count)
        → other.now ≡ filter q (numbers_from first count)
        → all.items ≡ filter (λ n. p n || q n) (numbers_from first count)) }
{
    let mut all = Vec::new(alloc);
    let mut rest = other;
    for number in one {
        let (before, from) = rest.split_at(count_below(rest, *number));
        all.extend_from_slice(before)?;
        all.push(*number)?;
        rest = without_first(from, *number);
    }
    all.extend_from_slice(rest)?;
    Ok(all)
}

/// The numbers of the one ascending list that aren't in the other, ascending; borrowed as they are where the other is
/// empty.
pub(crate) fn removed<'s>(
    alloc: Global,
    other: &[u64],
    one: CowSlice<'s, u64, Global>,
) -> Result<CowSlice<'s, u64, Global>, AllocError>
    ensures { IfOk result (λ left. (p q : ℕ → Bool) (first count : ℕ)
        → cow_slice_items one.entry ≡ filter p (numbers_from first count)
        → other.now ≡ filter q (numbers_from first count)
        → cow_slice_items left ≡ filter (λ n. p n && not (q n)) (numbers_from first count)) }
{
    if other.is_empty() {
        return Ok(one);
    }
    let left = left_of(alloc, other, one.as_slice())?;
    Ok(CowSlice::Owned(left))
}

/// The same of lists. Each number is looked at a few times at most.
fn left_of(alloc: Global, other: &[u64], one: &[u64]) -> Result<Vec<u64>, AllocError>
    ensures { IfOk result (λ left. (p q : ℕ → Bool) (first count : ℕ)
        → one.now ≡ filter p (numbers_from first count)
        → other.now ≡ filter q (numbers_from first count)
        → left.items ≡ filter (λ n. p n && not (q n)) (numbers_from first count)) }
{
    let mut left = Vec::new(alloc);
    let mut rest = one;
    for number in other {
        let (before, from) = rest.split_at(count_below(rest, *number));
        left.extend_from_slice(before)?;
        rest = without_first(from, *number);
    }
    left.extend_from_slice(rest)?;
    Ok(left)
}

/// How many of the numbers come before the first that isn't below this one. No later one is looked at.
fn count_below(numbers: &[u64], number: u64) -> usize
    ensures count { result ≡ below number numbers.now }
    ensures within { result ≤ length numbers.now }
{
    match first_from(numbers, number) {
        Some(count) => count,
        None => numbers.len(),
    }
}

/// The index of the first number that isn't below this one.
fn first_from(numbers: &[u64], number: u64) -> Option<usize>
    ensures { result ≡ position (λ n. nat_le number n) numbers.now }
{
    numbers.iter().position(|other| number <= *other)
}

/// The numbers without this one, if it is their first.
fn without_first(numbers: &[u64], number: u64) -> &[u64]
    ensures { result.now ≡ without number numbers.now }
{
    match numbers {
        [first, later @ ..] if *first == number => later,
        _ => numbers,
    }
}

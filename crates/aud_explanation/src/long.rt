//! Long lists, of which the middle is left out.
ghost use Rattle.std.specs.Prelude.{◌≡◌, ◌++◌, IfOk, OnOk, drop, string_bytes, take};
ghost use Rattle.aud_explanation.specs.Long.{all_shown, first_shown, last_shown, left_out, more_line};

use std::alloc::{AllocError, Global};

/// How many are left out after the first 100.
#[tactic(auto, unfolding(crate::specs::Long::left_out))]
pub(crate) fn left_out<T>(list: &[T]) -> usize
    ensures { result ≡ left_out list.now }
{
    list.len().saturating_sub(200)
}

/// The first so many, or all where there are fewer.
pub(crate) fn front<T>(list: &[T], most: usize) -> &[T]
    ensures { result.now ≡ take most list.now }
{
    let (front, _) = list.split_at(most.min(list.len()));
    front
}

/// Those past the first so many.
pub(crate) fn past<T>(list: &[T], count: usize) -> &[T]
    ensures { result.now ≡ drop count list.now }
{
    let (_, back) = list.split_at(count.min(list.len()));
    back
}

/// The first 100, or all where there are fewer.
#[tactic(auto, unfolding(crate::specs::Long::first_shown))]
pub(crate) fn first_shown<T>(list: &[T]) -> &[T]
    ensures { result.now ≡ first_shown list.now }
{
    front(list, 100)
}

/// Those that are shown after the ones that are left out, or after the first 100 where none are.
#[tactic(auto, unfolding(crate::specs::Long::last_shown))]
pub(crate) fn last_shown<T>(list: &[T]) -> &[T]
    ensures { result.now ≡ last_shown list.now }
{
    past(list, 100 + list.len().saturating_sub(200))
}

/// All that are shown.
pub(crate) fn all_shown<T: Copy>(alloc: Global, list: &[T]) -> Result<Vec<T>, AllocError>
    ensures { IfOk result (λ shown. shown.items ≡ all_shown list.now) }
{
    let mut shown = Vec::new(alloc);
    shown.extend_from_slice(first_shown(list))?;
    shown.extend_from_slice(last_shown(list))?;
    Ok(shown)
}

/// Puts the line that says how many are left out at the end, where some are.
pub(crate) fn push_more(out: &mut String, left: usize) -> Result<(), AllocError>
    ensures { OnOk result (string_bytes out.new ≡ string_bytes out.old ++ more_line left) }
{
    if left == 0 {
        Ok(())
    } else {
        writeln!(out, "    .. {left} more ..")
    }
}

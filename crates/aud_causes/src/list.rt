//! Causes that are collected, and the front of a list.
ghost use Rattle.std.specs.Prelude.{◌≡◌, ◌++◌, IfOk, OnOk, option_to_list, take};
ghost use Rattle.aud_causes.specs.Delivery.{held};

use crate::cause::Cause;
use std::alloc::{AllocError, Global};

/// Adds the item, if there is one.
pub(crate) fn push_some<T: Drop>(found: &mut Vec<T>, item: Option<T>) -> Result<(), AllocError>
    ensures { OnOk result (found.new.items ≡ found.old.items ++ option_to_list item) }
{
    if let Some(item) = item {
        found.push(item)?;
    }
    Ok(())
}

/// Those of the causes that hold.
pub(crate) fn held(alloc: Global, causes: &[Option<Cause>]) -> Result<Vec<Cause>, AllocError>
    ensures { IfOk result (λ found. found.items ≡ held causes.now) }
{
    let mut found = Vec::new(alloc);
    for cause in causes {
        push_some(&mut found, *cause)?;
    }
    Ok(found)
}

/// The first of these, so many; all where there are not so many.
pub(crate) fn front_of<T>(items: &[T], count: usize) -> &[T]
    ensures { result.now ≡ take count items.now }
{
    let (front, _) = items.split_at(count.min(items.len()));
    front
}

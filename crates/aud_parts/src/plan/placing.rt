//! Units, put into parts.
ghost use Rattle.std.specs.Prelude.{◌≡◌, IfOk, OnOk, max, min, vec_len};

use crate::plan::fault::PlanFault;
use crate::plan::load::Load;
use crate::plan::sessions::Sessions;
use crate::plan::units::Unit;
use std::alloc::Global;
use std::cmp::Reverse;

/// Puts the units into at most so many parts, the heaviest unit first, each into the lightest part that has room for it:
/// of units that are as heavy the one whose first session is first, and of parts that are as light the first. There are
/// as many parts as units where these are fewer, and one at least. It gives how heavy each part is.
pub(crate) fn place_units(
    alloc: Global,
    sessions: &Sessions,
    units: &mut Vec<Unit>,
    most: usize,
) -> Result<Vec<u64>, PlanFault>
    ensures { IfOk result (λ weights. vec_len weights ≡ max (min most (vec_len units.old)) 1) }
{
    let mut order = Vec::with_capacity(alloc, units.len())?;
    for (number, unit) in units.iter().enumerate() {
        order.push((Reverse(unit.load.weight), number))?;
    }
    order.sort_unstable();
    let count = most.min(units.len()).max(1);
    let mut loads = Vec::with_capacity(alloc, count)?;
    for _part in 0..count {
        loads.push(Load::new(alloc))?;
    }
    for ranked in &order {
        if let Some(unit) = units.get_mut(ranked.1) {
            place(alloc, sessions, &mut loads, unit)?;
        }
    }
    let mut weights = Vec::with_capacity(alloc, count)?;
    for load in &loads {
        weights.push(load.weight)?;
    }
    Ok(weights)
}

/// The unit goes to the lightest part that has room for it; of those that are as light to the first. Where none has room,
/// the fault tells the limit that the unit passes alone, or else in the first part.
fn place(
    alloc: Global,
    sessions: &Sessions,
    loads: &mut Vec<Load>,
    unit: &mut Unit,
) -> Result<(), PlanFault>
    ensures { OnOk result (vec_len loads.new ≡ vec_len loads.old) }
{
    let mut lightest: Option<usize> = None;
    let mut least = 0;
    for (part, load) in loads.iter().enumerate() {
        let lighter = lightest.is_none() || load.weight < least;
        if lighter && load.passed_with(&unit.load).is_none() {
            lightest = Some(part);
            least = load.weight;
        }
    }
    if let Some(part) = lightest {
        if part < loads.len() {
            loads[part].add(&unit.load)?;
            unit.part = part;
        }
        return Ok(());
    }
    let first = sessions.copy_of(unit.first)?;
    if let Some(limit) = unit.load.passed_with(&Load::new(alloc)) {
        return Err(PlanFault::OneUnit { first, limit });
    }
    let Some(load) = loads.first() else {
        return Err(PlanFault::Unclosed);
    };
    match load.passed_with(&unit.load) {
        Some(limit) => Err(PlanFault::NoRoom { first, limit }),
        None => Err(PlanFault::Unclosed),
    }
}

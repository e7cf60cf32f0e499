//! The schedule of a plan, and the bundle of it.
ghost use Rattle.std.specs.Prelude.{◌≡◌, ◌≤◌, [], ◌∷◌, Some, length, map, IfOk, OnOk, option_to_list};
ghost use Rattle.std.specs.List.{All};
ghost use Rattle.aud_schedule.specs.declared.plan.Fault.TheVariants as brought;
ghost use Rattle.aud_schedule.specs.Acts.{faults, kind_of, IsWithin};
ghost use Rattle.aud_schedule.specs.Bundles.{IsSimulationOf};
ghost use Rattle.aud_schedule.specs.Plans.{IsPossible, least_acts, least_nodes};
ghost use Rattle.aud_schedule.specs.Private.Grown.{Grown};

use crate::course::{Course, Size};
use crate::faults::{add, inject};
use crate::plan::{FAULT_ACTS, Fault, Plan};
use crate::quiet::quiet_act;
use aud_sim::{Act, SimFault, simulate};
use std::alloc::{AllocError, Global};

/// Acts that are no faults, until there are so many acts.
fn fill(course: &mut Course, acts: &mut Vec<Act>, count: usize) -> Result<(), AllocError>
    requires { length acts.old.items ≤ count }
    ensures size { course.new.size ≡ course.old.size }
    ensures length { OnOk result (length acts.new.items ≡ count) }
    ensures acts { OnOk result (Grown course.old.size count [] acts.old.items acts.new.items) }
{
    for place in acts.len()..count {
        let act = quiet_act(course)?;
        add(acts, act)?;
    }
    Ok(())
}

/// Acts up to some place, chosen so that the fault has room, and there the fault.
fn begin_with(
    course: &mut Course,
    acts: &mut Vec<Act>,
    fault: Fault,
    count: u32,
) -> Result<(), AllocError>
    requires none { acts.old.items ≡ [] }
    requires room { 32 ≤ count }
    requires nodes { fault ≡ brought.Lag → 2 ≤ course.old.size.nodes }
    ensures size { course.new.size ≡ course.old.size }
    ensures length { OnOk result (length acts.new.items ≤ count) }
    ensures acts { OnOk result (Grown course.old.size count
        (kind_of fault ∷ []) acts.old.items acts.new.items) }
{
    let before = course.below(count - FAULT_ACTS + 1);
    fill(course, acts, before as usize)?;
    inject(course, acts, fault)?;
    Ok(())
}

/// The acts up to the fault and what makes it show, where there is to be one.
fn begin(
    course: &mut Course,
    acts: &mut Vec<Act>,
    fault: Option<Fault>,
    count: u32,
) -> Result<(), AllocError>
    requires none { acts.old.items ≡ [] }
    requires room { least_acts fault ≤ count }
    requires nodes { least_nodes fault ≤ course.old.size.nodes }
    ensures size { course.new.size ≡ course.old.size }
    ensures length { OnOk result (length acts.new.items ≤ count) }
    ensures acts { OnOk result (Grown course.old.size count
        (map kind_of (option_to_list fault)) acts.old.items acts.new.items) }
{
    match fault {
        Some(fault) => begin_with(course, acts, fault, count)?,
        None => {}
    }
    Ok(())
}

/// The acts of a plan, in their order: as many as it asks for, its fault among them once, and no other fault. Each act
/// is possible where it stands, and an audit of the bundle that they make answers yes for every session where the plan
/// has no fault, and no for the session of the fault.
pub fn schedule(alloc: Global, plan: &Plan) -> Result<Vec<Act>, AllocError>
    requires { IsPossible plan.now }
    ensures length { IfOk result (λ acts. length acts.items ≡ plan.now.acts) }
    ensures faults { IfOk result (λ acts. faults acts.items
        ≡ map kind_of (option_to_list plan.now.fault)) }
    ensures within { IfOk result (λ acts. All
        (IsWithin plan.now.nodes plan.now.clients) acts.items) }
{
    let size = Size {
        nodes: plan.nodes as usize,
        clients: plan.clients as usize,
    };
    let mut course = Course::new(alloc, size, plan.seed)?;
    let mut acts = Vec::new(alloc);
    begin(&mut course, &mut acts, plan.fault, plan.acts)?;
    fill(&mut course, &mut acts, plan.acts as usize)?;
    Ok(acts)
}

/// The bundle of a cluster that runs the plan's schedule. `SimFault::Act` is not expected, since a schedule's acts are
/// possible where they stand.
pub fn simulated(alloc: Global, plan: &Plan) -> Result<Vec<u8>, SimFault>
    requires { IsPossible plan.now }
    ensures { IsSimulationOf plan.now result }
{
    let acts = schedule(alloc, plan)?;
    simulate(
        alloc,
        plan.nodes as usize,
        plan.clients as usize,
        acts.as_slice(),
    )
}

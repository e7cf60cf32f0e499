//! The bundles of plans: a plan has one, and that of another seed is another one.
use aud_schedule::{Plan, simulated};
use std::alloc::Global;
use std::process::Abort;
use std::test::Fail;

/// The bundle of the plan of a seed.
fn bundle_of(rt: &impl Abort, alloc: Global, seed: u64) -> Result<Vec<u8>, Fail> {
    let plan = Plan {
        nodes: 2,
        clients: 4,
        acts: 200,
        seed,
        fault: None,
    };
    assert!(rt; plan.is_possible());
    Ok(simulated(alloc, &plan)?)
}

#[test]
fn a_plan_has_one_bundle(rt: HostRuntime) -> Result<(), Fail> {
    for seed in [0, 1, u64::MAX] {
        let first = bundle_of(&rt, rt.alloc(), seed)?;
        let again = bundle_of(&rt, rt.alloc(), seed)?;
        let other = bundle_of(&rt, rt.alloc(), seed ^ 4)?;
        assert!(rt; first.as_slice() == again.as_slice() && first.as_slice() != other.as_slice());
    }
    Ok(())
}

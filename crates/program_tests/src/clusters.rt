//! Simulated clusters that run written schedules.

use crate::case::{AUDIT, cut, run_over};
use crate::faults::{FAULTS, NOT_POSSIBLE};
use crate::lines::BUNDLES;
use crate::schedule::{acts, number};
use crate::written::WITHOUT_FAULTS;
use aud_sim::{SimFault, simulate};
use std::alloc::Global;
use std::hash::RandomState;
use std::process::Abort;
use std::random::RandomSource;
use std::sync::Wait;
use std::test::Fail;
use std::thread::Threads;
use std::time::Clock;

/// The bundle of a schedule: how many nodes and clients there are, and then the acts.
fn bundle_of(rt: &impl Abort, alloc: Global, schedule: &str) -> Result<Vec<u8>, Fail> {
    let (nodes, schedule) = cut(schedule, " ");
    let (clients, words) = cut(schedule, " ");
    let (nodes, clients) = (number(nodes), number(clients));
    assert!(rt; 1 <= nodes && nodes <= 64);
    assert!(rt; 1 <= clients && clients <= 4096);
    let acts = acts(alloc, words)?;
    Ok(simulate(alloc, nodes, clients, &acts)?)
}

/// Looks at what an audit writes of each of these schedules, which stands below it.
fn audit_all<H: Abort + Threads + Wait + Clock + RandomSource + Sync>(
    rt: &H,
    alloc: Global,
    schedules: &[&str],
) -> Result<(), Fail> {
    let keys = RandomState::new(rt)?;
    for schedule in schedules {
        let (schedule, report) = cut(schedule, "\n");
        let bundle = bundle_of(rt, alloc, schedule)?;
        let ran = run_over(rt, alloc, keys, AUDIT, bundle.as_slice());
        assert_eq!(rt; str::from_utf8(&ran.written)?, report, "{schedule}");
    }
    Ok(())
}

#[test]
fn schedules_are_audited(rt: HostRuntime) -> Result<(), Fail> {
    audit_all(&rt, rt.alloc(), &FAULTS)?;
    audit_all(&rt, rt.alloc(), &WITHOUT_FAULTS)
}

/// Looks at the bundle of each of these schedules, which stands below it.
fn look_at_bundles(rt: &impl Abort, alloc: Global, schedules: &[&str]) -> Result<(), Fail> {
    for schedule in schedules {
        let (schedule, lines) = cut(schedule, "\n");
        let bundle = bundle_of(rt, alloc, schedule)?;
        assert_eq!(rt; str::from_utf8(&bundle)?, lines, "{schedule}");
    }
    Ok(())
}

#[test]
fn bundles_line_by_line(rt: HostRuntime) -> Result<(), Fail> {
    look_at_bundles(&rt, rt.alloc(), &BUNDLES)
}

/// Looks at which act is not possible in each of these schedules.
fn look_at_acts(rt: &impl Abort, alloc: Global, schedules: &[&str]) -> Result<(), Fail> {
    for row in schedules {
        let (schedule, act) = cut(row, " -> ");
        let acts = acts(alloc, schedule)?;
        let refused = simulate(alloc, 2, 2, &acts).err();
        assert_eq!(rt; refused, Some(SimFault::Act(number(act))), "{row}");
    }
    Ok(())
}

#[test]
fn acts_that_are_not_possible(rt: HostRuntime) -> Result<(), Fail> {
    look_at_acts(&rt, rt.alloc(), &NOT_POSSIBLE)
}

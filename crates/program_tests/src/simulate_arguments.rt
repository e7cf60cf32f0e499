//! The arguments of `simulate`.
use crate::arguments::{Command, assert_answered, is_answered};
use aud_schedule::{Fault, Plan, plan_asked};
use std::test::Fail;

/// What `simulate` alone asks for.
const DEFAULT: Plan = Plan {
    nodes: 2,
    clients: 4,
    acts: 200,
    seed: 1,
    fault: None,
};

/// Arguments that are understood, and what they ask for.
static ACCEPTED: [(&[&str], Plan); 9] = [
    (&["simulate"], DEFAULT),
    (
        &["simulate", "--nodes", "64"],
        Plan {
            nodes: 64,
            ..DEFAULT
        },
    ),
    (
        &["simulate", "--clients=4096"],
        Plan {
            clients: 4096,
            ..DEFAULT
        },
    ),
    (&["simulate", "--acts", "0"], Plan { acts: 0, ..DEFAULT }),
    (
        &["simulate", "--acts", "1000000"],
        Plan {
            acts: 1_000_000,
            ..DEFAULT
        },
    ),
    (
        &["simulate", "--seed", "18446744073709551615"],
        Plan {
            seed: u64::MAX,
            ..DEFAULT
        },
    ),
    (
        &["simulate", "--seed", "0", "--nodes=1"],
        Plan {
            seed: 0,
            nodes: 1,
            ..DEFAULT
        },
    ),
    (
        &["simulate", "--fault", "lag"],
        Plan {
            fault: Some(Fault::Lag),
            ..DEFAULT
        },
    ),
    (
        &["simulate", "--fault=drop", "--acts=32"],
        Plan {
            fault: Some(Fault::Drop),
            acts: 32,
            ..DEFAULT
        },
    ),
];

#[test]
fn simulate_arguments_that_are_accepted(rt: HostRuntime) -> Result<(), Fail> {
    for &(arguments, plan) in &ACCEPTED {
        assert_eq!(rt; plan_asked(rt.alloc(), arguments)?, plan);
    }
    Ok(())
}

/// The names of the faults.
static NAMES: [(&str, Fault); 15] = [
    ("drop", Fault::Drop),
    ("double", Fault::Double),
    ("hold", Fault::Hold),
    ("alter", Fault::Alter),
    ("garble", Fault::Garble),
    ("lose-attachment", Fault::LoseAttachment),
    ("lag", Fault::Lag),
    ("unknown-offset", Fault::UnknownOffset),
    ("cut-before-reply", Fault::CutBeforeReply),
    ("no-reply", Fault::NoReply),
    ("other-sid", Fault::OtherSid),
    ("no-open", Fault::NoOpen),
    ("no-join", Fault::NoJoin),
    ("no-break", Fault::NoBreak),
    ("take-twice", Fault::TakeTwice),
];

#[test]
fn names_of_faults(rt: HostRuntime) -> Result<(), Fail> {
    for &(name, fault) in &NAMES {
        let plan = plan_asked(rt.alloc(), &["simulate", "--fault", name])?;
        assert!(rt; plan.fault == Some(fault), "{name}");
        assert!(rt;
            is_answered(
                rt.alloc(),
                Command::Simulate,
                "simulate --help",
                "help",
                name
            )?,
            "{name}"
        );
    }
    Ok(())
}

/// Arguments that are refused or ask for help, and a part of the text.
static REFUSED: [&str; 19] = [
    "simulate --nodes 0 -> refused: 0",
    "simulate --nodes 65 -> refused: 65",
    "simulate --nodes -> refused: --nodes",
    "simulate --clients 0 -> refused: 0",
    "simulate --clients 4097 -> refused: 4097",
    "simulate --acts 1000001 -> refused: 1000001",
    "simulate --acts -1 -> refused: -1",
    "simulate --seed 18446744073709551616 -> refused: 18446744073709551616",
    "simulate --seed x -> refused: x",
    "simulate --fault lose -> refused: lose",
    "simulate --fault drop --acts 31 -> refused: 32 acts",
    "simulate --fault lag --nodes 1 -> refused: 2 nodes",
    "simulate --seed 1 --seed 2 -> refused: --seed",
    "simulate --workers 4 -> refused: --workers",
    "simulate audit -> refused: audit",
    "simulate --help -> help: --fault",
    "simulate --help -> help: standard output",
    "simulate --help -> help: lag",
    "simulate -V -> help: 1.0.0",
];

#[test]
fn simulate_arguments_that_are_refused(rt: HostRuntime) -> Result<(), Fail> {
    assert_answered(&rt, rt.alloc(), Command::Simulate, &REFUSED)
}

//! The calls on the logs of a bundle.
use crate::bundle::CLIENT;
use crate::counted::{begin, end};
use crate::given::{Given, memory_if};
use aud_client::IndexedTranscript;
use aud_merge::{Order, State, Step, allowed, apply, order};
use aud_node::Logs;
use aud_upgrade::{Joins, upgrade};
use std::alloc::Global;
use std::hash::RandomState;
use std::mem::ManuallyDrop;

/// A call on the logs.
pub enum OnLogs {
    Transcript,
    Apply,
    Order,
    Upgrade,
}

/// Makes the call.
pub fn given(logs: &Logs<'_>, alloc: Global, keys: RandomState, call: &OnLogs) -> Given {
    match call {
        OnLogs::Transcript => transcript(logs, alloc, keys),
        OnLogs::Apply => walk(logs, alloc),
        OnLogs::Order => shown(logs, alloc),
        OnLogs::Upgrade => upgraded(logs, alloc),
    }
}

/// Reads the tap of a client.
fn transcript(logs: &Logs<'_>, alloc: Global, keys: RandomState) -> Given {
    let Some(recs) = logs.client(CLIENT) else {
        return Given::Wrong("there is no client");
    };
    begin(alloc);
    let read = ManuallyDrop::new(IndexedTranscript::read(alloc, keys, recs, logs.stream()));
    end(alloc);
    match &*read {
        Ok(transcript) => Given::Answer("stays", transcript.transcript().stays.len()),
        Err(_) => Given::Memory,
    }
}

/// Takes the steps in turn, up to the first that isn't allowed or for which there is no memory: how many were taken.
fn take_all<'a>(logs: &Logs<'a>, state: &mut State<'a>, steps: &[Step]) -> usize {
    for (taken, step) in steps.iter().enumerate() {
        if !allowed(state, logs, step) || apply(state, logs, step).is_err() {
            return taken;
        }
    }
    steps.len()
}

/// Whether the session is the same in both states.
fn are_alike(left: &State<'_>, right: &State<'_>, pid: &str) -> bool {
    match (left.session(pid), right.session(pid)) {
        (Some(l), Some(r)) => {
            (l.at, l.turn) == (r.at, r.turn)
                && l.rooms.contains("r") == r.rooms.contains("r")
                && l.rooms.contains("s1") == r.rooms.contains("s1")
                && l.rooms.contains("s2") == r.rooms.contains("s2")
        }
        (None, None) => true,
        _ => false,
    }
}

/// Whether both states allow the same of these steps, and have the same sessions.
fn are_same(logs: &Logs<'_>, left: &State<'_>, right: &State<'_>, steps: &[Step]) -> bool {
    for step in steps {
        if allowed(left, logs, step) != allowed(right, logs, step) {
            return false;
        }
    }
    are_alike(left, right, "P") && are_alike(left, right, "Q")
}

/// Whether the state is that after so many steps, and the others can then be taken.
fn goes_on<'a>(
    logs: &Logs<'a>,
    alloc: Global,
    state: &mut State<'a>,
    steps: &[Step],
    taken: usize,
) -> bool {
    let Some((before, after)) = steps.split_at_checked(taken) else {
        return false;
    };
    let Ok(other) = State::new(alloc, logs) else {
        return false;
    };
    let mut other = ManuallyDrop::new(other);
    take_all(logs, &mut other, before) == before.len()
        && are_same(logs, state, &other, steps)
        && take_all(logs, state, after) == after.len()
}

/// Takes the steps of a run.
fn walk(logs: &Logs<'_>, alloc: Global) -> Given {
    let (Ok(Order::Run(steps)), Ok(state)) = (order(alloc, logs), State::new(alloc, logs)) else {
        return Given::Wrong("the bundle has a run");
    };
    let (steps, mut state) = (ManuallyDrop::new(steps), ManuallyDrop::new(state));
    begin(alloc);
    let taken = take_all(logs, &mut state, &steps);
    end(alloc);
    if taken == steps.len() {
        return Given::Answer("steps", taken);
    }
    let is_well = goes_on(logs, alloc, &mut state, &steps, taken);
    memory_if(is_well, "the state is another")
}

fn shown(logs: &Logs<'_>, alloc: Global) -> Given {
    begin(alloc);
    let shown = ManuallyDrop::new(order(alloc, logs));
    end(alloc);
    match &*shown {
        Ok(Order::Run(steps)) => Given::Answer("steps", steps.len()),
        Ok(Order::Blocked(_)) => Given::Wrong("the bundle has a run"),
        Err(_) => Given::Memory,
    }
}

fn upgraded(logs: &Logs<'_>, alloc: Global) -> Given {
    begin(alloc);
    let upgraded = ManuallyDrop::new(upgrade(alloc, logs, Joins::TakeAlone));
    end(alloc);
    match &*upgraded {
        Ok(taps) => Given::Answer("taps", taps.as_slice().len()),
        Err(_) => Given::Memory,
    }
}

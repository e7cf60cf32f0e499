//! Tickets, drawn by one thread, and one worker: its entries, and what is gathered of them.
use crate::desk::bundle::TWO_SESSIONS;
use crate::given::taps_of;
use aud_client::Recording;
use aud_desk::{OpenGate, Tickets, gather, work};
use aud_maker::sessions;
use aud_verdict::Verdict;
use std::alloc::Global;
use std::hash::RandomState;
use std::mem::ManuallyDrop;
use std::sync::Wait;
use std::test::Fail;
use std::time::Clock;

#[test]
fn seats_claim_in_turn(rt: HostRuntime) -> Result<(), Fail> {
    let (tickets, mut seats) = Tickets::new(rt.alloc(), 2, 2)?;
    assert_eq!(rt; seats.len(), 2);
    let (Some(second), Some(first)) = (seats.pop(), seats.pop()) else {
        return Err(Fail::new("two seats"));
    };
    let (a, first) = tickets.claim(first);
    let (b, first) = tickets.claim(first);
    let (c, _first) = tickets.claim(first);
    let (d, _second) = tickets.claim(second);
    assert_eq!(rt; [a, b, c, d], [Some(0), Some(1), None, None]);
    Ok(())
}

/// Fails where one worker decides anything but two sessions, of which the first received nothing and the second one
/// event.
fn decide<R: Wait + Clock>(recording: &Recording<'_>, rt: &R, alloc: Global) -> Result<(), Fail> {
    let pids = sessions(alloc, recording)?;
    let (tickets, mut seats) = Tickets::new(alloc, pids.len(), 1)?;
    let seat = seats.pop().ok_or("a seat")?;
    let worker = work(
        rt, alloc, &tickets, seat, recording, &pids, false, &OpenGate,
    )?;
    let [one, other] = worker.entries() else {
        return Err(Fail::new("two entries"));
    };
    if (one.index(), other.index()) != (0, 1) {
        return Err(Fail::new("the entries are in turn"));
    }
    let mut workers = Vec::new(alloc);
    workers.push(worker)?;
    let verdicts = ManuallyDrop::new(gather(alloc, tickets, workers)?);
    match verdicts.as_slice() {
        [Verdict::Yes { got: 0, .. }, Verdict::Yes { got: 1, .. }] => Ok(()),
        _ => Err(Fail::new("none and one are received")),
    }
}

#[test]
fn one_worker_decides_all(rt: HostRuntime) -> Result<(), Fail> {
    let alloc = rt.alloc();
    let keys = RandomState::new(&rt)?;
    let taps = ManuallyDrop::new(taps_of(alloc, keys, TWO_SESSIONS)?);
    let recording = ManuallyDrop::new(Recording::read(&rt, alloc, keys, 4, &taps)?);
    decide(&recording, &rt, alloc)
}

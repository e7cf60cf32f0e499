//! The calls on workers.
use crate::counted::{begin, end};
use crate::given::Given;
use aud_client::Recording;
use aud_desk::{AuditFault, Entry, OpenGate, Tickets, audit_with, gather, work};
use aud_verdict::Verdict;
use std::alloc::Global;
use std::mem::ManuallyDrop;
use std::sync::Wait;
use std::thread::Threads;
use std::time::Clock;

/// A call on workers.
pub enum OnWorkers {
    Tickets,
    Work,
    Gather,
    /// With so many workers.
    Audit(usize),
}

/// Makes the call.
pub fn given<R: Threads + Wait + Clock + Sync>(
    recording: &Recording<'_>,
    rt: &R,
    alloc: Global,
    pids: &[String],
    call: &OnWorkers,
) -> Given {
    match call {
        OnWorkers::Tickets => tickets(alloc),
        OnWorkers::Work => worked(recording, rt, alloc, pids),
        OnWorkers::Gather => gathered(recording, rt, alloc, pids),
        OnWorkers::Audit(workers) => audited(recording, rt, alloc, *workers),
    }
}

fn tickets(alloc: Global) -> Given {
    begin(alloc);
    let made = ManuallyDrop::new(Tickets::new(alloc, 100, 64));
    end(alloc);
    match &*made {
        Ok((_, seats)) => Given::Answer("seats", seats.len()),
        Err(_) => Given::Memory,
    }
}

/// Whether these are the entries of all indices of so many past the first, each once.
fn are_past(entries: &[Entry], first: usize, all: usize) -> bool {
    let mut last = first;
    for entry in entries {
        last = last.saturating_add(1);
        if entry.index() != last {
            return false;
        }
    }
    last.saturating_add(1) == all
}

/// One worker works, and then another.
fn worked<R: Wait + Clock>(
    recording: &Recording<'_>,
    rt: &R,
    alloc: Global,
    pids: &[String],
) -> Given {
    let Ok((tickets, mut seats)) = Tickets::new(alloc, pids.len(), 2) else {
        return Given::Wrong("there are no tickets");
    };
    let (Some(other), Some(seat)) = (seats.pop(), seats.pop()) else {
        return Given::Wrong("there are no two seats");
    };
    begin(alloc);
    let worked = work(rt, alloc, &tickets, seat, recording, pids, false, &OpenGate);
    end(alloc);
    let other = work(
        rt, alloc, &tickets, other, recording, pids, false, &OpenGate,
    );
    match (&*ManuallyDrop::new(worked), &*ManuallyDrop::new(other)) {
        (Ok(worker), Ok(_)) => Given::Answer("entries", worker.entries().len()),
        (Err(AuditFault::Memory(made)), Ok(other))
            if are_past(other.entries(), *made, pids.len()) => { Given::MemoryAfter(*made) }
        _ => Given::Wrong("the other worker goes on after the refused index"),
    }
}

/// How many of them are yes.
fn yes(verdicts: &[Verdict]) -> usize {
    let mut count = 0usize;
    for verdict in verdicts {
        count = count.saturating_add(usize::from(matches!(verdict, Verdict::Yes { .. })));
    }
    count
}

/// One worker has all entries.
fn gathered<R: Wait + Clock>(
    recording: &Recording<'_>,
    rt: &R,
    alloc: Global,
    pids: &[String],
) -> Given {
    let Ok((tickets, mut seats)) = Tickets::new(alloc, pids.len(), 1) else {
        return Given::Wrong("there are no tickets");
    };
    let Some(seat) = seats.pop() else {
        return Given::Wrong("there is no seat");
    };
    let Ok(worker) = work(rt, alloc, &tickets, seat, recording, pids, false, &OpenGate) else {
        return Given::Wrong("there is no worker");
    };
    let mut workers = Vec::new(alloc);
    let Ok(()) = workers.push(worker) else {
        return Given::Wrong("there is no worker");
    };
    begin(alloc);
    let gathered = ManuallyDrop::new(gather(alloc, tickets, workers));
    end(alloc);
    match &*gathered {
        Ok(all) => Given::Answer("yes", yes(all)),
        Err(_) => Given::Memory,
    }
}

fn audited<R: Threads + Wait + Clock + Sync>(
    recording: &Recording<'_>,
    rt: &R,
    alloc: Global,
    workers: usize,
) -> Given {
    begin(alloc);
    let audited = ManuallyDrop::new(audit_with(rt, alloc, recording, workers, false, &OpenGate));
    end(alloc);
    match &*audited {
        Ok(report) => Given::Answer("yes", report.yes),
        Err(AuditFault::Memory(made)) => Given::MemoryAfter(*made),
        Err(AuditFault::Spawn) => Given::Spawn,
        Err(AuditFault::Workers) => Given::Wrong("there are 1 to 64 workers"),
    }
}

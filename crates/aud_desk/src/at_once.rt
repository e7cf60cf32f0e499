//! All workers at once, each in a thread of its own.
ghost use Rattle.std.specs.Prelude.{◌≡◌, [], IfOk, IfErr, All, vec_len};
ghost use Rattle.aud_desk.specs.Faults.{IsMemory, IsNotWorkers};
ghost use Rattle.aud_desk.specs.Views.{IsSeatOf, drawn};
ghost use Rattle.aud_desk.specs.Workers.{IsWorkOf};

use crate::at_work::work_on;
use crate::decide::Decide;
use crate::fault::AuditFault;
use crate::gate::Gate;
use crate::tickets::{TicketSeat, Tickets};
use crate::worker::Worker;
use std::alloc::Global;
use std::sync::Wait;
use std::thread;
use std::thread::{Promise, PromisedHandle, Scope, Threads};
use std::time::Clock;

/// What a thread was asked to do, and so what its result promises.
struct Job<'a, T: Decide> {
    tickets: &'a Tickets,
    task: &'a T,
}

impl<'a, T: Decide> Drop for Job<'a, T> {
    fn drop(self) {
        let Self {
            tickets: _,
            task: _,
        } = self;
    }
}

impl<'a, T: Decide> Promise<Result<Worker, AuditFault>> for Job<'a, T> {
    ghost kept_by = { λ job r. IfOk r (IsWorkOf job.tickets.now (T.is_verdict job.task.now)) × IfErr r IsMemory };
}

/// Starts a worker for this seat.
fn start<'s, E, T: Decide + Sync, G: Gate + Sync, R: Threads + Wait + Clock + Sync>(
    scope: &Scope<'s, E>,
    rt: &'s R,
    alloc: Global,
    tickets: &'s Tickets,
    task: &'s T,
    seat: TicketSeat,
    gate: &'s G,
) -> Result<PromisedHandle<Result<Worker, AuditFault>, Job<'s, T>>, AuditFault>
    requires seat { IsSeatOf tickets.now seat × (drawn seat ≡ []) }
    requires count { tickets.now.n ≡ T.count task.now }
    ensures job { IfOk result (λ h. (h.promise.tickets.now ≡ tickets.now)
        × (h.promise.task.now ≡ task.now)) }
    ensures err { IfErr result IsNotWorkers }
{
    match scope.spawn_with(
        Job { tickets, task },
        move || -> Result<Worker, AuditFault>
            requires seat { IsSeatOf tickets.now seat × (drawn seat ≡ []) }
            requires count { tickets.now.n ≡ T.count task.now }
            ensures ok { IfOk result (IsWorkOf tickets.entry.now (T.is_verdict task.entry.now)) }
            ensures err { IfErr result IsMemory }
        { work_on(rt, alloc, tickets, seat, task, gate) },
    ) {
        Ok(handle) => Ok(handle),
        Err(_) => Err(AuditFault::Spawn),
    }
}

/// Starts a worker for each seat. No worker is started where there is no memory for all.
fn start_all<'s, E, T: Decide + Sync, G: Gate + Sync, R: Threads + Wait + Clock + Sync>(
    scope: &Scope<'s, E>,
    rt: &'s R,
    alloc: Global,
    tickets: &'s Tickets,
    task: &'s T,
    mut seats: Vec<TicketSeat>,
    gate: &'s G,
) -> Result<Vec<PromisedHandle<Result<Worker, AuditFault>, Job<'s, T>>>, AuditFault>
    requires seats { All (λ s. IsSeatOf tickets.now s × (drawn s ≡ [])) seats.items }
    requires count { tickets.now.n ≡ T.count task.now }
    ensures len { IfOk result (λ all. vec_len all ≡ vec_len seats) }
    ensures jobs { IfOk result (λ all. All
        (λ h. (h.promise.tickets.now ≡ tickets.now) × (h.promise.task.now ≡ task.now)) all.items) }
    ensures err { IfErr result IsNotWorkers }
{
    let Ok(mut handles) = Vec::with_capacity(alloc, seats.len()) else {
        return Err(AuditFault::Memory(0));
    };
    while let Some(seat) = seats.pop() {
        let handle = start(scope, rt, alloc, tickets, task, seat, gate)?;
        handles.push_reserved(handle);
    }
    Ok(handles)
}

/// What these workers hand back. Where memory could not be had, all of them are waited for, and the fault has the
/// number of entries that they had made.
fn wait_for_all<'s, T: Decide, R: Threads>(
    rt: &R,
    alloc: Global,
    mut handles: Vec<PromisedHandle<Result<Worker, AuditFault>, Job<'s, T>>>,
) -> Result<Vec<Worker>, AuditFault>
    ensures len { IfOk result (λ ws. vec_len ws ≡ vec_len handles.entry) }
    ensures work { (t : Tickets) (task : T)
        → All (λ h. (h.promise.tickets.now ≡ t) × (h.promise.task.now ≡ task)) handles.entry.items
        → IfOk result (λ ws. All (IsWorkOf t (T.is_verdict task)) ws.items) }
    ensures err { IfErr result IsNotWorkers }
{
    let mut workers = Vec::new(alloc);
    let mut made = 0usize;
    let mut refused = false;
    while let Some(handle) = handles.pop() {
        match handle.join(rt) {
            Ok(worker) => {
                made = made.saturating_add(worker.entries.len());
                let Ok(()) = workers.push(worker) else {
                    refused = true;
                    continue;
                };
            }
            Err(AuditFault::Memory(k)) => {
                made = made.saturating_add(k);
                refused = true;
            }
            Err(fault) => return Err(fault),
        }
    }
    if refused {
        return Err(AuditFault::Memory(made));
    }
    Ok(workers)
}

/// What a worker for each seat hands back.
pub fn decide_all<T: Decide + Sync, G: Gate + Sync, R: Threads + Wait + Clock + Sync>(
    rt: &R,
    alloc: Global,
    tickets: &Tickets,
    task: &T,
    seats: Vec<TicketSeat>,
    gate: &G,
) -> Result<Vec<Worker>, AuditFault>
    requires seats { All (λ s. IsSeatOf tickets.now s × (drawn s ≡ [])) seats.items }
    requires count { tickets.now.n ≡ T.count task.now }
    ensures len { IfOk result (λ ws. vec_len ws ≡ vec_len seats) }
    ensures work { IfOk result (λ ws. All (IsWorkOf tickets.now (T.is_verdict task.now)) ws.items) }
    ensures err { IfErr result IsNotWorkers }
{
    thread::scope(
        thread::scope_env(),
        rt,
        move |scope| -> Result<Vec<Worker>, AuditFault>
            requires seats { All (λ s. IsSeatOf tickets.now s × (drawn s ≡ [])) seats.items }
            requires count { tickets.now.n ≡ T.count task.now }
            ensures len { IfOk result (λ ws. vec_len ws ≡ vec_len seats) }
            ensures work { IfOk result (λ ws. All
                (IsWorkOf tickets.entry.now (T.is_verdict task.entry.now)) ws.items) }
            ensures err { IfErr result IsNotWorkers }
        {
            match start_all(scope, rt, alloc, tickets, task, seats, gate) {
                Ok(handles) => wait_for_all(rt, alloc, handles),
                Err(fault) => Err(fault),
            }
        },
    )
}

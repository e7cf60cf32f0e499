//! The verdicts of all workers, by index.
ghost use Rattle.std.specs.Prelude.{◌≡◌, ◌<◌, ◌⊎◌, ℕ, Some, IfOk, All, Contains, IsSome, map, slice_get, slice_set, vec_len};
ghost use Rattle.aud_verdict.specs.declared.verdict.Verdict.{Verdict};
ghost use Rattle.aud_desk.specs.Draws.{late_count, times};
ghost use Rattle.aud_desk.specs.Slots.{HasVerdict, IsFull};
ghost use Rattle.aud_desk.specs.Views.{IsSeatOf, drawn};
ghost use Rattle.aud_desk.specs.Workers.{HasEntry, entry_of, indices};

use crate::entry::Entry;
use crate::tickets::{TicketSeat, Tickets};
use crate::worker::Worker;
use aud_verdict::Verdict;
use std::alloc::{AllocError, Global};

/// Puts the entry's verdict at its index.
fn put(slots: &mut Vec<Option<Verdict>>, entry: Entry)
    requires { entry.index < vec_len slots.old }
    ensures { slots.new.items ≡ slice_set slots.old.items entry.index (Some entry.verdict) }
{
    let (index, verdict) = entry.into_parts();
    slots[index] = Some(verdict);
}

/// Puts each entry's verdict at its index.
fn place(slots: &mut Vec<Option<Verdict>>, mut entries: Vec<Entry>)
    requires { All (λ e. e.index < vec_len slots.old) entries.items }
    ensures len { vec_len slots.new ≡ vec_len slots.old }
    ensures found { (i : ℕ) (verdict : Verdict) → HasVerdict slots.new.items i verdict
        → HasVerdict slots.old.items i verdict ⊎ Contains entries.items (entry_of i verdict) }
    ensures kept { (i : ℕ) → IsFull slots.old.items i → IsFull slots.new.items i }
    ensures full { (i : ℕ) → 0 < times i (indices entries.items) → IsFull slots.new.items i }
{
    while let Some(entry) = entries.pop() {
        put(slots, entry);
    }
}

/// Puts the verdicts of a worker at their places, and gives back its seat.
fn settle(slots: &mut Vec<Option<Verdict>>, worker: Worker) -> TicketSeat
    requires { worker.seat.seat.me.0.n ≡ vec_len slots.old }
    ensures seat { (result ≡ worker.seat)
        × (0 < late_count (vec_len slots.old) (drawn worker.seat)) }
    ensures len { vec_len slots.new ≡ vec_len slots.old }
    ensures found { (i : ℕ) (verdict : Verdict) → HasVerdict slots.new.items i verdict
        → HasVerdict slots.old.items i verdict
        ⊎ Contains worker.entries.items (entry_of i verdict) }
    ensures kept { (i : ℕ) → IsFull slots.old.items i → IsFull slots.new.items i }
    ensures full { (i : ℕ) → i < vec_len slots.old → 0 < times i (drawn worker.seat)
        → IsFull slots.new.items i }
{
    let Worker { seat, entries } = worker;
    place(slots, entries);
    seat
}

/// So many places, with no verdict.
fn places(alloc: Global, n: usize) -> Result<Vec<Option<Verdict>>, AllocError>
    ensures len { IfOk result (λ v. vec_len v ≡ n) }
    ensures empty { IfOk result (λ v. (i : ℕ) (verdict : Verdict) → HasVerdict v.items i verdict
        → ⊥) }
{
    let mut slots = Vec::with_capacity(alloc, n)?;
    for _ in 0..n {
        slots.push(None)?;
    }
    Ok(slots)
}

/// The verdicts of places that each have one.
fn unwrapped(alloc: Global, slots: Vec<Option<Verdict>>) -> Result<Vec<Verdict>, AllocError>
    requires { All (λ s. IsSome s) slots.items }
    ensures { IfOk result (λ v. map Some v.items ≡ slots.items) }
{
    let mut verdicts = Vec::with_capacity(alloc, slots.len())?;
    for slot in slots {
        let Some(verdict) = slot else { unreachable!() };
        verdicts.push(verdict)?;
    }
    Ok(verdicts)
}

/// The verdicts of all workers of the tickets, by index: at each index that of the entry with that index.
pub fn gather(
    alloc: Global,
    tickets: Tickets,
    mut workers: Vec<Worker>,
) -> Result<Vec<Verdict>, AllocError>
    requires seats { All (λ w. IsSeatOf tickets w.seat) workers.items }
    requires all { vec_len workers ≡ tickets.seats }
    ensures len { IfOk result (λ verdicts. vec_len verdicts ≡ tickets.n) }
    ensures each { IfOk result (λ verdicts. (i : ℕ) (verdict : Verdict)
        → slice_get verdicts.items i ≡ Some verdict → HasEntry workers.items i verdict) }
{
    let mut slots = places(alloc, tickets.count())?;
    let Some(first) = workers.pop() else {
        unreachable!()
    };
    let mut all = Tickets::gather_first(settle(&mut slots, first));
    while let Some(worker) = workers.pop() {
        tickets.gather_next(&mut all, settle(&mut slots, worker));
    }
    tickets.close(all);
    unwrapped(alloc, slots)
}

//! One worker: it draws until there is no index left, and decides each that it drew.
ghost use Rattle.std.specs.Prelude.{◌≡◌, [], IfOk, IfErr, length, map, string_bytes};
ghost use Rattle.aud_desk.specs.Faults.{IsMemory};
ghost use Rattle.aud_verdict.specs.Verdicts.{IsVerdictAt};
ghost use Rattle.aud_desk.specs.Views.{IsSeatOf, drawn};
ghost use Rattle.aud_desk.specs.Workers.{IsWorkOf};

use crate::decide::{Decide, Sessions};
use crate::fault::AuditFault;
use crate::gate::Gate;
use crate::tickets::{TicketSeat, Tickets};
use crate::worker::Worker;
use aud_client::Recording;
use std::alloc::Global;
use std::sync::Wait;
use std::time::Clock;

/// Draws until there is none, and decides each index that it drew, with `whole` as in [`Entry::decide`]. Where memory
/// could not be had, the fault has the number of entries that it had made.
pub fn work<G: Gate, R: Wait + Clock>(
    rt: &R,
    alloc: Global,
    tickets: &Tickets,
    seat: TicketSeat,
    recording: &Recording<'_>,
    sessions: &[String],
    whole: bool,
    gate: &G,
) -> Result<Worker, AuditFault>
    requires seat { IsSeatOf tickets.now seat × (drawn seat ≡ []) }
    requires sessions { tickets.now.n ≡ length sessions.now }
    ensures worker { IfOk result (IsWorkOf tickets.now (IsVerdictAt recording.now whole
        (map string_bytes sessions.now))) }
    ensures err { IfErr result IsMemory }
{
    let sessions = Sessions {
        recording,
        pids: sessions,
        whole,
    };
    work_on(rt, alloc, tickets, seat, &sessions, gate)
}

/// The same of whatever can be decided by index.
pub fn work_on<T: Decide, G: Gate, R: Wait + Clock>(
    rt: &R,
    alloc: Global,
    tickets: &Tickets,
    mut seat: TicketSeat,
    task: &T,
    gate: &G,
) -> Result<Worker, AuditFault>
    requires seat { IsSeatOf tickets.now seat × (drawn seat ≡ []) }
    requires count { tickets.now.n ≡ T.count task.now }
    ensures worker { IfOk result (IsWorkOf tickets.now (T.is_verdict task.now)) }
    ensures err { IfErr result IsMemory }
{
    let mut entries = Vec::new(alloc);
    loop {
        let (claimed, next) = tickets.claim(seat);
        seat = next;
        let Some(index) = claimed else {
            return Ok(Worker::done(seat, entries));
        };
        gate.before(rt, index);
        let Ok(entry) = task.decide(alloc, index) else {
            return Err(AuditFault::Memory(entries.len()));
        };
        let Ok(()) = entries.push(entry) else {
            return Err(AuditFault::Memory(entries.len()));
        };
        gate.after(rt, index);
    }
}

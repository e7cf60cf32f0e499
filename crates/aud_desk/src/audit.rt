//! The audit of all sessions, by several workers.
ghost use Rattle.std.specs.Prelude.{◌≡◌, ◌+◌, ◌<◌, ◌≤◌, ◌⊎◌, ℕ, IfOk, IfErr, IsErrOf, count_by, length, map, slice_get, string_bytes, vec_len, zip, Some};
ghost use Rattle.aud_verdict.specs.declared.verdict.Verdict.{Verdict};
ghost use Rattle.aud_verdict.specs.YesOf.{is_yes};
ghost use Rattle.aud_maker.specs.Sessions.{sessions_of};
ghost use Rattle.aud_desk.specs.Faults.{IsNotWorkers};
ghost use Rattle.aud_verdict.specs.Verdicts.{AreVerdicts, IsVerdictAt};
ghost use Rattle.aud_desk.specs.Named.{session_verdict};

use crate::at_once::decide_all;
use crate::decide::Sessions;
use crate::fault::AuditFault;
use crate::gate::Gate;
use crate::slots::gather;
use crate::tickets::Tickets;
use aud_client::Recording;
use aud_maker::sessions;
use aud_tap::Text;
use aud_verdict::{SessionVerdict, Verdict};
use std::alloc::{AllocError, Global};
use std::sync::Wait;
use std::thread::Threads;
use std::time::Clock;

/// What an audit found.
#[derive(Drop)]
pub struct Report {
    /// The verdict on each session that the logs mention, in the order of their first mentions.
    pub verdicts: Vec<SessionVerdict>,
    /// How many of them are yes.
    pub yes: usize,
    /// How many of them are no.
    pub no: usize,
}

/// The report of these verdicts.
#[tactic(auto, using(crate::proofs::Reports::yes_at_most))]
fn counted(verdicts: Vec<SessionVerdict>) -> Report
    ensures verdicts { result.verdicts ≡ verdicts }
    ensures yes { result.yes ≡ count_by is_yes verdicts.items }
    ensures all { result.yes + result.no ≡ vec_len verdicts }
{
    let yes = verdicts.iter().filter(|entry| entry.is_yes()).count();
    let no = verdicts.len() - yes;
    Report { verdicts, yes, no }
}

/// The verdicts on these sessions, by index, found by so many workers.
fn verdicts<G: Gate + Sync, R: Threads + Wait + Clock + Sync>(
    rt: &R,
    alloc: Global,
    recording: &Recording<'_>,
    pids: &[String],
    workers: usize,
    whole: bool,
    gate: &G,
) -> Result<Vec<Verdict>, AuditFault>
    requires { (0 < workers) × (workers ≤ 64) }
    ensures len { IfOk result (λ all. vec_len all ≡ length pids.now) }
    ensures each { IfOk result (λ all. (i : ℕ) (verdict : Verdict)
        → slice_get all.items i ≡ Some verdict
        → IsVerdictAt recording.now whole (map string_bytes pids.now) i verdict) }
    ensures err { IfErr result IsNotWorkers }
{
    let Ok((tickets, seats)) = Tickets::new(alloc, pids.len(), workers) else {
        return Err(AuditFault::Memory(0));
    };
    let task = Sessions {
        recording,
        pids,
        whole,
    };
    let done = decide_all(rt, alloc, &tickets, &task, seats, gate)?;
    match gather(alloc, tickets, done) {
        Ok(verdicts) => Ok(verdicts),
        Err(_) => Err(AuditFault::Memory(pids.len())),
    }
}

/// Each verdict under the pid of its session.
fn named(
    alloc: Global,
    pids: Vec<String>,
    verdicts: Vec<Verdict>,
) -> Result<Vec<SessionVerdict>, AllocError>
    requires { vec_len verdicts ≡ vec_len pids }
    ensures { IfOk result (λ all. all.items ≡ map session_verdict (zip pids.items verdicts.items)) }
{
    let mut all = Vec::with_capacity(alloc, pids.len())?;
    let mut pids = pids.into_iter();
    for verdict in verdicts {
        let Some(pid) = pids.next() else {
            unreachable!()
        };
        let pid = Text::new(alloc, pid.as_str())?;
        all.push(SessionVerdict { pid, verdict })?;
    }
    Ok(all)
}

/// The verdict on each session that the logs mention, found by 1 to 64 workers, each in a thread of its own; with
/// `whole`, a session to which more is due than was received is answered no, by `TAIL`. How many workers there are, and
/// what the gate does, changes nothing in the report. Where memory could not be had, the fault has the
/// number of entries that all workers had made.
pub fn audit_with<G: Gate + Sync, R: Threads + Wait + Clock + Sync>(
    rt: &R,
    alloc: Global,
    recording: &Recording<'_>,
    workers: usize,
    whole: bool,
    gate: &G,
) -> Result<Report, AuditFault>
    // The workers' promise: for every number of workers and every gate.
    ensures verdicts { IfOk result (λ report. AreVerdicts recording.now whole
        (sessions_of recording.now) report.verdicts.items) }
    ensures yes { IfOk result (λ report. report.yes ≡ count_by is_yes report.verdicts.items) }
    ensures all { IfOk result (λ report. report.yes + report.no ≡ vec_len report.verdicts) }
    // The number of workers is refused only where it is none that can be.
    ensures workers { (0 < workers) × (workers ≤ 64) → IfErr result IsNotWorkers }
    ensures refused { (workers ≡ 0) ⊎ (64 < workers) → IsErrOf result AuditFault.Workers }
{
    if workers == 0 || workers > 64 {
        return Err(AuditFault::Workers);
    }
    let Ok(pids) = sessions(alloc, recording) else {
        return Err(AuditFault::Memory(0));
    };
    let made = pids.len();
    let found = verdicts(rt, alloc, recording, pids.as_slice(), workers, whole, gate)?;
    match named(alloc, pids, found) {
        Ok(verdicts) => Ok(counted(verdicts)),
        Err(_) => Err(AuditFault::Memory(made)),
    }
}

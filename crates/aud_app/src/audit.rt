//! The report of an audit, by several workers.
ghost use Rattle.std.specs.Prelude.{◌≡◌, ◌<◌, ◌≤◌, ◌⊎◌, IfOk, OnErr, Err};
ghost use Rattle.std.specs.List.{list_any};
ghost use Rattle.aud_node.specs.Lists.{is_empty};
ghost use Rattle.aud_node.specs.Recoverable.{is_recoverable};
ghost use Rattle.aud_maker.specs.Sessions.{sessions_of};
ghost use Rattle.aud_verdict.specs.Verdicts.{AreVerdicts};
ghost use Rattle.aud_app.specs.Output.{IsReport, status_over, yes_status};

use aud_base::RunFault;
use aud_client::Recording;
use aud_desk::{AuditFault, OpenGate, Report, audit_with};
use aud_node::Stream;
use aud_verdict::{Output, SessionVerdict, Status, report_on};
use std::alloc::Global;
use std::sync::Wait;
use std::thread::Threads;
use std::time::Clock;

/// What so many workers find on the sessions of this recording, with or without `--whole`.
fn found<H: Threads + Wait + Clock + Sync>(
    rt: &H,
    alloc: Global,
    workers: u8,
    whole: bool,
    recording: &Recording<'_>,
) -> Result<Report, RunFault>
    requires { (0 < workers) × (workers ≤ 64) }
    ensures verdicts { IfOk result (λ report. AreVerdicts recording.now whole
        (sessions_of recording.now) report.verdicts.items) }
    ensures err { OnErr result ((result ≡ Err RunFault.Memory) ⊎ (result ≡ Err RunFault.Spawn)) }
{
    match audit_with(rt, alloc, recording, workers as usize, whole, &OpenGate) {
        Ok(report) => Ok(report),
        Err(AuditFault::Workers) => unreachable!(),
        Err(AuditFault::Spawn) => Err(RunFault::Spawn),
        Err(AuditFault::Memory(_)) => Err(RunFault::Memory),
    }
}

/// Whether some entry of the stream is recoverable.
fn has_recoverable(stream: &Stream<'_>) -> bool
    ensures { result ≡ list_any is_recoverable stream.now }
{
    for before in 0..stream.entries().len() {
        if stream.recoverable(before as u64 + 1) {
            return true;
        }
    }
    false
}

/// Whether there is no verdict.
fn is_none(verdicts: &[SessionVerdict]) -> bool
    ensures { result ≡ is_empty verdicts.now }
{
    match verdicts {
        [] => true,
        _ => false,
    }
}

/// How an audit ends that answers yes for each session, of which there may be none.
fn yes_status(recording: &Recording<'_>, none: bool) -> Status
    requires { none ≡ is_empty (sessions_of recording.now) }
    ensures { result ≡ yes_status recording.now }
{
    if none {
        Status::NoSession
    } else if has_recoverable(recording.logs().stream()) {
        Status::AllYes
    } else {
        Status::NoneRecoverable
    }
}

/// How an audit ends whose report ends so, and of which there may be no session.
fn status_over(recording: &Recording<'_>, none: bool, status: Status) -> Status
    requires { none ≡ is_empty (sessions_of recording.now) }
    ensures { result ≡ status_over recording.now status }
{
    match status {
        Status::AllYes => yes_status(recording, none),
        _ => status,
    }
}

/// The report on the sessions of this recording, by so many workers, with or without `--whole`.
pub fn audited<H: Threads + Wait + Clock + Sync>(
    rt: &H,
    alloc: Global,
    workers: u8,
    whole: bool,
    recording: &Recording<'_>,
) -> Result<Output, RunFault>
    requires { (0 < workers) × (workers ≤ 64) }
    ensures report { IfOk result (λ o. IsReport whole recording.now o) }
    ensures err { OnErr result ((result ≡ Err RunFault.Memory) ⊎ (result ≡ Err RunFault.Spawn)) }
{
    let report = found(rt, alloc, workers, whole, recording)?;
    let none = is_none(&report.verdicts);
    let Output { status, text } = report_on(alloc, &report.verdicts)?;
    Ok(Output {
        status: status_over(recording, none, status),
        text,
    })
}

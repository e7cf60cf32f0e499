//! The verdict on a session: its certificate is made, and then checked.
ghost use Rattle.std.specs.Prelude.{◌≡◌, false, IfOk, Some};
ghost use Rattle.aud_maker.specs.Made.{IsMade};
ghost use Rattle.aud_verdict.specs.EveryRun.{HoldsInEveryRun};
ghost use Rattle.aud_verdict.specs.Judged.{IsJudged, IsJudgedBy, HasCertificate};
ghost use Rattle.aud_verdict.specs.Refused.{fault_found, IsOfSession};
ghost use Rattle.aud_verdict.specs.Verdict.{IsVerdict, asked_so};

use crate::laws::{verdict_by_certificate, verdict_in_every_run, verdict_of_whole};
use crate::verdict::Verdict;
use aud_cert::{Certificate, Fault};
use aud_check::{Accepted, Refusal, check_delivery};
use aud_client::Recording;
use aud_maker::{MakeFault, made_is_over, make};
use std::alloc::{AllocError, Global};

/// What is found of a session.
#[derive(Drop)]
pub enum Judged<'a> {
    /// The accepted certificate of all its turns, and how much of what was due was received.
    Shown(Certificate<'a>, Accepted),
    /// The first fault that holds; never [`Fault::Tail`], for which [`decide`] asks.
    Faulty(Fault),
}

/// The fault of the session whose certificate, of all its turns, is refused so.
fn fault_found(refusal: Refusal) -> Result<Fault, AllocError>
    requires { IsOfSession refusal }
    ensures { IfOk result (λ fault. fault_found refusal ≡ Some fault) }
{
    match refusal {
        Refusal::Names => Ok(Fault::Names),
        Refusal::Received(fault) => Ok(fault),
        Refusal::Memory => Err(AllocError),
        // The turns and the spans of a certificate that was made are the session's.
        _ => unreachable!(),
    }
}

/// The verdict on the session for which this certificate was made, where the whole isn't asked for. It costs the
/// session's stays, and what is due to it.
pub fn judge_made(
    alloc: Global,
    recording: &Recording<'_>,
    cert: &Certificate<'_>,
) -> Result<Verdict, AllocError>
    requires { IsMade recording.now cert.now.pid cert.now }
    ensures { IfOk result (IsJudgedBy recording.now cert.now) }
{
    verdict_by_certificate();
    verdict_in_every_run();
    recording.named_once();
    made_is_over();
    match check_delivery(alloc, recording, cert) {
        Ok(counts) => Ok(Verdict::Yes {
            got: counts.got,
            tail: counts.tail,
            turns: counts.turns,
        }),
        Err(refusal) => {
            let fault = fault_found(refusal)?;
            Ok(Verdict::No(fault))
        }
    }
}

/// What is found of the session with this pid, where the whole isn't asked for: the verdict on it, and where that is
/// yes its certificate. It costs the session's own records and stays, and what is due to it.
pub fn judge<'a>(
    alloc: Global,
    recording: &Recording<'a>,
    pid: &str,
) -> Result<Judged<'a>, AllocError>
    ensures { IfOk result (IsJudged recording.now pid.now) }
{
    verdict_by_certificate();
    let cert = match make(alloc, recording, pid) {
        Ok(cert) => cert,
        Err(MakeFault::Fault(fault)) => return Ok(Judged::Faulty(fault)),
        Err(MakeFault::Memory) => return Err(AllocError),
    };
    match judge_made(alloc, recording, &cert)? {
        Verdict::Yes { got, tail, turns } => {
            let counts = Accepted { got, tail, turns };
            Ok(Judged::Shown(cert, counts))
        }
        Verdict::No(fault) => Ok(Judged::Faulty(fault)),
    }
}

/// The verdict on the session with this pid, where the whole isn't asked for.
fn found(alloc: Global, recording: &Recording<'_>, pid: &str) -> Result<Verdict, AllocError>
    ensures verdict { IfOk result (IsVerdict recording.now false pid.now) }
    ensures certificate { IfOk result (HasCertificate recording.now pid.now) }
{
    match judge(alloc, recording, pid)? {
        Judged::Shown(_, counts) => {
            let Accepted { got, tail, turns } = counts;
            Ok(Verdict::Yes { got, tail, turns })
        }
        Judged::Faulty(fault) => Ok(Verdict::No(fault)),
    }
}

/// What becomes of a verdict that was found without asking for the whole, where it is asked for or isn't.
fn asked_so(whole: bool, verdict: Verdict) -> Verdict
    ensures { result ≡ asked_so whole verdict }
{
    match verdict {
        Verdict::Yes { got, tail, turns } => {
            if whole && tail > 0 {
                return Verdict::No(Fault::Tail(tail as u64));
            }
            Verdict::Yes { got, tail, turns }
        }
        Verdict::No(fault) => Verdict::No(fault),
    }
}

/// The verdict on the session with this pid, at the cost of [`judge`]. Where the whole is asked for, a session to which
/// more is due than was received is answered no, by [`Fault::Tail`]; all other verdicts are the same.
pub fn decide(
    alloc: Global,
    recording: &Recording<'_>,
    pid: &str,
    whole: bool,
) -> Result<Verdict, AllocError>
    ensures verdict { IfOk result (IsVerdict recording.now whole pid.now) }
    ensures certificate { IfOk result (HasCertificate recording.now pid.now) }
    // Delivery in every run.
    ensures every_run { IfOk result (HoldsInEveryRun recording.now pid.now) }
{
    verdict_of_whole();
    verdict_in_every_run();
    let verdict = found(alloc, recording, pid)?;
    Ok(asked_so(whole, verdict))
}

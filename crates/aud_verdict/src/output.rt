//! What a run writes, and how it ends.
ghost use Rattle.std.specs.Prelude.{◌≡◌, IfOk};
ghost use Rattle.aud_verdict.specs.Output.{status_of, report_of, proving_of, refusal_of};

use crate::proving::{are_all_shown, prove_text};
use crate::report::{are_all_yes, refusal_text, report_text};
use crate::verdict::SessionVerdict;
use aud_tap::Text;
use std::alloc::{AllocError, Global};
use std::marker::Model;

/// How a run ended.
#[derive(Clone, Copy, Debug, PartialEq, Eq, Drop)]
pub enum Status {
    /// Each session is answered yes, or each certificate is ok; a run was shown, or a bundle written.
    AllYes,
    /// No session was recorded, so an audit judged nothing.
    NoSession,
    /// Each session is answered yes, but no entry of the stream is recoverable, so that says nothing.
    NoneRecoverable,
    /// Some session is answered no, or has no certificate, or some certificate is bad; or there is no run.
    SomeNo,
    /// A line of the input is refused.
    Refused,
}

/// How a run ends, and the whole text that it writes.
#[derive(Drop)]
pub struct Output {
    pub status: Status,
    pub text: String,
}

impl Model for Output {
    ghost use Rattle.std.specs.Prelude.{string_bytes};
    ghost use Rattle.aud_verdict.specs.Output.{OutputSeen};

    ghost Value = { OutputSeen };

    ghost view = { λ o. record { status = o.status; text = string_bytes o.text } };
}

/// How a run ends whose answers are all good, or are not.
pub fn status_of(are_good: bool) -> Status
    ensures { result ≡ status_of are_good }
{
    if are_good {
        Status::AllYes
    } else {
        Status::SomeNo
    }
}

/// The report on sessions that are decided: a line for each, and the counts.
pub fn report_on(alloc: Global, entries: &[SessionVerdict]) -> Result<Output, AllocError>
    ensures { IfOk result (λ o. o ≡ report_of entries.now) }
{
    let text = report_text(alloc, entries)?;
    let status = status_of(are_all_yes(entries));
    Ok(Output { status, text })
}

/// The lines of certificates, of the sessions that have one.
pub fn proving_on(alloc: Global, proofs: &[Option<Text>]) -> Result<Output, AllocError>
    ensures { IfOk result (λ o. o ≡ proving_of proofs.now) }
{
    let text = prove_text(alloc, proofs)?;
    let status = status_of(are_all_shown(proofs));
    Ok(Output { status, text })
}

/// The one line that is written where a line of the input is refused by this name.
pub fn refusal(alloc: Global, line: u64, name: &str) -> Result<Output, AllocError>
    ensures { IfOk result (λ o. o ≡ refusal_of line name.now) }
{
    let text = refusal_text(alloc, line, name)?;
    Ok(Output {
        status: Status::Refused,
        text,
    })
}

//! The lines on certificates.
ghost use Rattle.std.specs.Prelude.{◌≡◌, ◌++◌, IfOk, OnOk, string_bytes, count_by};
ghost use Rattle.std.specs.List.{list_all};
ghost use Rattle.aud_app.specs.Lines.{is_ok, answer_line, counts_line, verify_text, verification_of};

use crate::answer::{Answer, Answered};
use aud_verdict::{Output, status_of};
use std::alloc::{AllocError, Global};

/// Puts the line on a certificate at the end.
fn push_answer(out: &mut String, answered: &Answered) -> Result<(), AllocError>
    ensures { OnOk result (string_bytes out.new
        ≡ string_bytes out.old ++ answer_line answered.now) }
{
    let line = answered.line;
    match &answered.answer {
        Answer::Accepted { pid, counts } => {
            let pid = pid.as_str();
            writeln!(out, "ok {line} {pid} {counts}")
        }
        Answer::Unread(fault) => writeln!(out, "bad {line} {fault}"),
        Answer::Refused(refusal) => writeln!(out, "bad {line} {refusal}"),
    }
}

/// Whether each certificate is accepted.
fn are_all_ok(all: &[Answered]) -> bool
    ensures { result ≡ list_all is_ok all.now }
{
    all.iter().all(|answered| answered.is_ok())
}

/// How many certificates are accepted.
fn count_ok(all: &[Answered]) -> usize
    ensures { result ≡ count_by is_ok all.now }
{
    all.iter().filter(|answered| answered.is_ok()).count()
}

/// Puts the counts at the end.
fn push_counts(out: &mut String, all: &[Answered]) -> Result<(), AllocError>
    ensures { OnOk result (string_bytes out.new ≡ string_bytes out.old ++ counts_line all.now) }
{
    let certs = all.len();
    let ok = count_ok(all);
    let bad = certs.saturating_sub(ok);
    writeln!(out, "certs={certs} ok={ok} bad={bad}")
}

/// The text on certificates: a line for each, and the counts.
fn verify_text(alloc: Global, all: &[Answered]) -> Result<String, AllocError>
    ensures { IfOk result (λ s. string_bytes s ≡ verify_text all.now) }
{
    let mut out = String::new(alloc);
    for answered in all {
        push_answer(&mut out, answered)?;
    }
    push_counts(&mut out, all)?;
    Ok(out)
}

/// The output on certificates with these answers: a line for each, and the counts.
pub fn verification_on(alloc: Global, all: &[Answered]) -> Result<Output, AllocError>
    ensures { IfOk result (λ o. o ≡ verification_of all.now) }
{
    let text = verify_text(alloc, all)?;
    let status = status_of(are_all_ok(all));
    Ok(Output { status, text })
}

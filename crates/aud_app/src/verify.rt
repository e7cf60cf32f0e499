//! The answers on the certificates of an input.
ghost use Rattle.std.specs.Prelude.{◌<◌, length, IfOk};
ghost use Rattle.aud_cert.specs.Certificate.{IsOver};
ghost use Rattle.aud_cert.specs.Reading.{certificate_of};
ghost use Rattle.aud_app.specs.AnswersInEveryRun.{AnswerHoldsInEveryRun};
ghost use Rattle.aud_app.specs.Verified.{IsAnswerOn, IsAnswerTo, IsAnswered, AreAnswered};

use crate::answer::{Answer, Answered};
use aud_base::try_map;
use aud_cert::{CertFault, Certificate, read_cert};
use aud_check::{Refusal, check};
use aud_client::Recording;
use aud_reader::Line;
use aud_tap::Text;
use std::alloc::{AllocError, Global};
use std::thread::Threads;

/// The answer on a certificate that is read.
fn answer_on(
    alloc: Global,
    recording: &Recording<'_>,
    cert: &Certificate<'_>,
) -> Result<Answer, AllocError>
    requires over { IsOver recording.now cert.now }
    requires some { 0 < length cert.now.turns }
    ensures answer { IfOk result (λ answer. IsAnswerOn recording.now cert.now answer) }
    ensures every_run { IfOk result (λ answer.
        AnswerHoldsInEveryRun recording.now cert.now answer) }
{
    match check(alloc, recording, cert) {
        Ok(counts) => Ok(Answer::Accepted {
            pid: Text::new(alloc, cert.pid.as_str())?,
            counts,
        }),
        Err(Refusal::Memory) => Err(AllocError),
        Err(refusal) => Ok(Answer::Refused(refusal)),
    }
}

/// The answer on a certificate's text.
fn answer_to(alloc: Global, recording: &Recording<'_>, text: &[u8]) -> Result<Answer, AllocError>
    ensures { IfOk result (λ answer. IsAnswerTo recording.now
        (certificate_of recording.now text.now) answer) }
{
    match read_cert(alloc, text, recording.logs()) {
        Ok(cert) => answer_on(alloc, recording, &cert),
        Err(CertFault::Memory) => Err(AllocError),
        Err(fault) => Ok(Answer::Unread(fault)),
    }
}

/// The answer on the certificate that stands on this line, by its number.
fn answered(alloc: Global, recording: &Recording<'_>, line: &Line) -> Result<Answered, AllocError>
    ensures { IfOk result (IsAnswered recording.now line.now) }
{
    let answer = answer_to(alloc, recording, line.bytes.as_slice())?;
    Ok(Answered {
        line: line.number,
        answer,
    })
}

/// The answers on these certificates, one for each, in order. They are shared out among at most `threads`
/// threads, as [`try_map`] says.
pub fn answers<H: Threads + Sync>(
    rt: &H,
    alloc: Global,
    threads: usize,
    recording: &Recording<'_>,
    lines: &[Line],
) -> Result<Vec<Answered>, AllocError>
    ensures { IfOk result (λ all. AreAnswered recording.now lines.now all.items) }
{
    try_map(
        rt,
        alloc,
        threads,
        lines,
        |line: &Line| -> Result<Answered, AllocError>
            ensures { IfOk result (IsAnswered recording.entry.now line.now) }
        { answered(alloc, recording, line) },
    )
}

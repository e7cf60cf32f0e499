//! The certificates of the sessions.
ghost use Rattle.std.specs.Prelude.{All, IfOk};
ghost use Rattle.aud_maker.specs.Made.{IsMade};
ghost use Rattle.aud_maker.specs.Sessions.{sessions_of};
ghost use Rattle.aud_base.specs.OneForEach.{OneForEach};
ghost use Rattle.aud_app.specs.Proofs.{IsProof, AreProofs};
ghost use Rattle.aud_app.specs.Private.Proven.{IsOfItsSession, IsProofBy};

use aud_base::try_map;
use aud_cert::{Certificate, Fault, write_cert};
use aud_client::Recording;
use aud_maker::{make_all, sessions};
use aud_tap::Text;
use aud_verdict::{Verdict, judge_made, verdict_by_certificate};
use std::alloc::{AllocError, Global};
use std::thread::Threads;

/// The text of the certificate, where the verdict on the session for which it was made is yes.
fn shown(
    alloc: Global,
    recording: &Recording<'_>,
    cert: &Certificate<'_>,
) -> Result<Option<Text>, AllocError>
    requires { IsMade recording.now cert.now.pid cert.now }
    ensures { IfOk result (IsProof recording.now cert.now.pid) }
{
    match judge_made(alloc, recording, cert)? {
        Verdict::Yes { .. } => {}
        Verdict::No(_) => return Ok(None),
    }
    match write_cert(alloc, cert) {
        Ok(text) => Ok(Some(Text::new(alloc, text.as_str())?)),
        Err(_) => Err(AllocError),
    }
}

/// The text of the certificate that was made, where the verdict is yes; none where it is no, or none was made.
fn proof(
    alloc: Global,
    recording: &Recording<'_>,
    made: &Result<Certificate<'_>, Fault>,
) -> Result<Option<Text>, AllocError>
    requires { IsOfItsSession recording.now made.now }
    ensures { IfOk result (IsProofBy recording.now made.now) }
{
    match made {
        Ok(cert) => shown(alloc, recording, cert),
        Err(_) => Ok(None),
    }
}

/// The texts of the certificates that were made, one place for each, in order.
fn proofs<H: Threads + Sync>(
    rt: &H,
    alloc: Global,
    threads: usize,
    recording: &Recording<'_>,
    made: &[Result<Certificate<'_>, Fault>],
) -> Result<Vec<Option<Text>>, AllocError>
    requires { All (IsOfItsSession recording.now) made.now }
    ensures { IfOk result (λ all. OneForEach (IsProofBy recording.now) made.now all.items) }
{
    try_map(
        rt,
        alloc,
        threads,
        made,
        |made: &Result<Certificate<'_>, Fault>| -> Result<Option<Text>, AllocError>
            requires { IsOfItsSession recording.now made.now }
            ensures { IfOk result (IsProofBy recording.entry.now made.now) }
        { proof(alloc, recording, made) },
    )
}

/// The certificate of each session that the logs mention and that is answered yes, in the order of their first
/// mentions, with an empty place for each of the others. All are made, and then checked, each time shared out among at
/// most `threads` threads, as [`try_map`] says.
pub fn prove<H: Threads + Sync>(
    rt: &H,
    alloc: Global,
    threads: usize,
    recording: &Recording<'_>,
) -> Result<Vec<Option<Text>>, AllocError>
    ensures { IfOk result (λ all. AreProofs recording.now (sessions_of recording.now) all.items) }
{
    verdict_by_certificate();
    let pids = sessions(alloc, recording)?;
    let made = make_all(rt, alloc, threads, recording, &pids)?;
    proofs(rt, alloc, threads, recording, &made)
}

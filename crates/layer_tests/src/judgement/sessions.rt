//! Which sessions there are, and of each its verdict and its certificate.
use crate::told::Told;
use aud_cert::{Certificate, read_cert, write_cert};
use aud_check::check;
use aud_client::Recording;
use aud_maker::{MakeFault, make, sessions};
use aud_verdict::{Verdict, decide};
use std::alloc::Global;

/// The sessions that nodes name, and a line for each session.
pub fn tell_sessions(recording: &Recording<'_>, alloc: Global, out: &mut Told) {
    out.text("named");
    for number in 0..recording.logs().named_count() {
        out.text(" ");
        out.text(recording.logs().named_pid(number));
    }
    let Ok(pids) = sessions(alloc, recording) else {
        return out.fail();
    };
    for pid in pids.iter() {
        out.text("\n");
        out.text(pid);
        tell_session(recording, alloc, pid, out);
    }
}

/// The verdict on the session, and the text of its certificate, or the word of its fault.
fn tell_session(recording: &Recording<'_>, alloc: Global, pid: &str, out: &mut Told) {
    match decide(alloc, recording, pid, false) {
        Ok(Verdict::Yes { got, tail, turns }) => {
            out.text(" yes");
            out.debug(&(got, tail, turns));
        }
        Ok(Verdict::No(fault)) => {
            out.text(" no ");
            out.show(&fault);
        }
        Err(_) => out.fail(),
    }
    out.text(", ");
    match make(alloc, recording, pid) {
        Ok(cert) => tell_certificate(recording, alloc, &cert, out),
        Err(MakeFault::Fault(fault)) => out.show(&fault),
        Err(MakeFault::Memory) => out.fail(),
    }
}

/// What is written for the certificate, and what the check answers to what is read from that.
fn tell_certificate(
    recording: &Recording<'_>,
    alloc: Global,
    cert: &Certificate<'_>,
    out: &mut Told,
) {
    let Ok(text) = write_cert(alloc, cert) else {
        return out.fail();
    };
    out.text(&text);
    out.text(" ");
    match read_cert(alloc, text.as_bytes(), recording.logs()) {
        Ok(cert) => match check(alloc, recording, &cert) {
            Ok(accepted) => out.show(&accepted),
            Err(refusal) => out.show(&refusal),
        },
        Err(fault) => out.show(&fault),
    }
}

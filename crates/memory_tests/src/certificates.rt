//! The calls on certificates.
use crate::bundle::CERTIFICATE;
use crate::counted::{begin, end};
use crate::given::Given;
use aud_cert::{CertFault, Certificate, Fault, read_cert};
use aud_check::{Refusal, check};
use aud_client::Recording;
use aud_maker::{MakeFault, make, make_all};
use std::alloc::Global;
use std::mem::ManuallyDrop;
use std::thread::Threads;

/// A call on certificates.
pub enum OnCertificates {
    Read,
    Check,
    Make,
    /// With so many threads.
    MakeAll(usize),
}

/// Makes the call.
pub fn given<R: Threads + Sync>(
    recording: &Recording<'_>,
    rt: &R,
    alloc: Global,
    pids: &[String],
    call: &OnCertificates,
) -> Given {
    match call {
        OnCertificates::Read => read(recording, alloc),
        OnCertificates::Check => checked(recording, alloc),
        OnCertificates::Make => made(recording, alloc),
        OnCertificates::MakeAll(threads) => all_made(recording, rt, alloc, pids, *threads),
    }
}

fn read(recording: &Recording<'_>, alloc: Global) -> Given {
    begin(alloc);
    let read = ManuallyDrop::new(read_cert(alloc, CERTIFICATE.as_bytes(), recording.logs()));
    end(alloc);
    match &*read {
        Ok(cert) => Given::Answer("turns", cert.turns.len()),
        Err(CertFault::Memory) => Given::Memory,
        Err(_) => Given::Wrong("the certificate isn't read"),
    }
}

fn checked(recording: &Recording<'_>, alloc: Global) -> Given {
    let Ok(cert) = read_cert(alloc, CERTIFICATE.as_bytes(), recording.logs()) else {
        return Given::Wrong("the certificate isn't read");
    };
    let cert = ManuallyDrop::new(cert);
    begin(alloc);
    let checked = check(alloc, recording, &cert);
    end(alloc);
    match checked {
        Ok(accepted) => Given::Accepted(accepted),
        Err(Refusal::Memory) => Given::Memory,
        Err(_) => Given::Wrong("the certificate is refused"),
    }
}

fn made(recording: &Recording<'_>, alloc: Global) -> Given {
    begin(alloc);
    let made = ManuallyDrop::new(make(alloc, recording, "P"));
    end(alloc);
    match &*made {
        Ok(cert) => Given::Answer("turns", cert.turns.len()),
        Err(MakeFault::Memory) => Given::Memory,
        Err(MakeFault::Fault(_)) => Given::Wrong("the session has no fault"),
    }
}

/// How many certificates were made.
fn certificates(all: &[Result<Certificate<'_>, Fault>]) -> usize {
    let mut count = 0usize;
    for made in all {
        count = count.saturating_add(usize::from(made.is_ok()));
    }
    count
}

fn all_made<R: Threads + Sync>(
    recording: &Recording<'_>,
    rt: &R,
    alloc: Global,
    pids: &[String],
    threads: usize,
) -> Given {
    begin(alloc);
    let made = ManuallyDrop::new(make_all(rt, alloc, threads, recording, pids));
    end(alloc);
    match &*made {
        Ok(all) => Given::Answer("certificates", certificates(all)),
        Err(_) => Given::Memory,
    }
}

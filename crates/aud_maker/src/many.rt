//! The certificates of many sessions, made in parallel.

ghost use Rattle.std.specs.Prelude.{IfOk, map, string_bytes};
ghost use Rattle.aud_maker.specs.Makings.{IsMadeOf, AreMadeOf};

use crate::maker::{MakeFault, make};
use aud_base::try_map;
use aud_cert::{Certificate, Fault};
use aud_client::Recording;
use std::alloc::{AllocError, Global};
use std::thread::Threads;

/// What `make` gives for the session, with running out of memory apart.
fn make_one<'a>(
    alloc: Global,
    recording: &Recording<'a>,
    pid: &str,
) -> Result<Result<Certificate<'a>, Fault>, AllocError>
    ensures { IfOk result (IsMadeOf recording.now pid.now) }
{
    match make(alloc, recording, pid) {
        Ok(cert) => Ok(Ok(cert)),
        Err(MakeFault::Fault(fault)) => Ok(Err(fault)),
        Err(MakeFault::Memory) => Err(AllocError),
    }
}

/// What `make` gives for each of these sessions, in their order: its certificate, or the first of the faults `NoLog`,
/// `Chain`, `Order` and `Client` that holds. Running out of memory at any of them is the one error. They are shared out
/// among at most `threads` threads, as [`try_map`] says. Each costs what it costs `make`.
pub fn make_all<'a, H: Threads + Sync>(
    rt: &H,
    alloc: Global,
    threads: usize,
    recording: &Recording<'a>,
    pids: &[String],
) -> Result<Vec<Result<Certificate<'a>, Fault>>, AllocError>
    ensures { IfOk result (λ all. AreMadeOf recording.now (map string_bytes pids.now) all.items) }
{
    try_map(
        rt,
        alloc,
        threads,
        pids,
        |pid: &String| -> Result<Result<Certificate<'_>, Fault>, AllocError>
            ensures { IfOk result (IsMadeOf recording.entry.now (string_bytes pid.now)) }
        { make_one(alloc, recording, pid.as_str()) },
    )
}

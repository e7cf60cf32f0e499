//! What is written for an input.
ghost use Rattle.std.specs.Prelude.{◌≡◌, ◌<◌, ◌≤◌, ◌⊎◌, IfOk, OnErr, Ok, Err};
ghost use Rattle.aud_node.specs.Names.{AreNamedOnce};
ghost use Rattle.aud_node.specs.Cluster.{cluster_of};
ghost use Rattle.aud_app.specs.Output.{IsReport, IsProving, IsVerification, IsOutputOver, layout_of};

use crate::audit::audited;
use crate::certificates::prove;
use crate::lines::verification_on;
use crate::order::ordered;
use crate::upgraded::upgraded;
use crate::verify::answers;
use crate::written::Written;
use aud_base::RunFault;
use aud_cli::{Mode, Options};
use aud_client::Recording;
use aud_input::{Input, Layout};
use aud_reader::{Line, ReadFault};
use aud_tap::Taps;
use aud_verdict::{Output, proving_on, refusal};
use std::alloc::{AllocError, Global};
use std::hash::RandomState;
use std::mem::ManuallyDrop;
use std::sync::Wait;
use std::thread::Threads;
use std::time::Clock;

/// The report on the sessions of these taps.
fn audited_taps<H: Threads + Wait + Clock + Sync>(
    rt: &H,
    alloc: Global,
    keys: RandomState,
    options: Options,
    taps: &Taps,
) -> Result<Output, RunFault>
    requires names { AreNamedOnce taps.now }
    requires workers { (0 < options.workers) × (options.workers ≤ 64) }
    ensures output { IfOk result (λ o. IsReport options.whole (cluster_of taps.now) o) }
    ensures err { OnErr result ((result ≡ Err RunFault.Memory) ⊎ (result ≡ Err RunFault.Spawn)) }
{
    let recording = Recording::read(rt, alloc, keys, options.workers as usize, taps)?;
    audited(
        rt,
        alloc,
        options.workers,
        options.whole,
        &ManuallyDrop::new(recording),
    )
}

/// The certificates of the sessions of these taps.
fn proved<H: Threads + Sync>(
    rt: &H,
    alloc: Global,
    keys: RandomState,
    threads: usize,
    taps: &Taps,
) -> Result<Output, AllocError>
    requires { AreNamedOnce taps.now }
    ensures { IfOk result (λ o. IsProving (cluster_of taps.now) o) }
{
    let recording = Recording::read(rt, alloc, keys, threads, taps)?;
    proved_sessions(rt, alloc, threads, &ManuallyDrop::new(recording))
}

/// The certificates of the recording's sessions.
fn proved_sessions<H: Threads + Sync>(
    rt: &H,
    alloc: Global,
    threads: usize,
    recording: &Recording<'_>,
) -> Result<Output, AllocError>
    ensures { IfOk result (λ o. IsProving recording.now o) }
{
    let proofs = prove(rt, alloc, threads, recording)?;
    proving_on(alloc, &proofs)
}

/// The answers on the certificates.
fn verified<H: Threads + Sync>(
    rt: &H,
    alloc: Global,
    keys: RandomState,
    threads: usize,
    input: &Input,
) -> Result<Output, AllocError>
    requires { AreNamedOnce input.now.taps }
    ensures { IfOk result (λ o. IsVerification
        (cluster_of input.now.taps) input.now.certificates o) }
{
    let recording = Recording::read(rt, alloc, keys, threads, &input.taps)?;
    verified_lines(
        rt,
        alloc,
        threads,
        &ManuallyDrop::new(recording),
        &input.certificates,
    )
}

/// The answers on these certificates over the recording.
fn verified_lines<H: Threads + Sync>(
    rt: &H,
    alloc: Global,
    threads: usize,
    recording: &Recording<'_>,
    certificates: &[Line],
) -> Result<Output, AllocError>
    ensures { IfOk result (λ o. IsVerification recording.now certificates.now o) }
{
    let all = answers(rt, alloc, threads, recording, certificates)?;
    verification_on(alloc, &all)
}

/// What the lines of a mode's input are.
pub fn layout_of(mode: Mode) -> Layout
    ensures { result ≡ layout_of mode }
{
    match mode {
        Mode::Audit | Mode::Prove | Mode::Order | Mode::Upgrade => Layout::Bundle,
        Mode::Verify => Layout::BundleAndCertificates,
    }
}

/// What is written for the taps and the certificates of an input.
fn output_over<H: Threads + Wait + Clock + Sync>(
    rt: &H,
    alloc: Global,
    keys: RandomState,
    options: Options,
    input: &Input,
) -> Result<Written, RunFault>
    requires names { AreNamedOnce input.now.taps }
    requires workers { (0 < options.workers) × (options.workers ≤ 64) }
    ensures output { IfOk result (λ o. IsOutputOver options.mode options.whole (Ok input.now) o) }
    ensures err { OnErr result ((result ≡ Err RunFault.Memory) ⊎ (result ≡ Err RunFault.Spawn)) }
{
    let threads = options.workers as usize;
    match options.mode {
        Mode::Audit => Ok(Written::of(audited_taps(rt, alloc, keys, options, &input.taps)?)),
        Mode::Prove => Ok(Written::of(proved(rt, alloc, keys, threads, &input.taps)?)),
        Mode::Verify => Ok(Written::of(verified(rt, alloc, keys, threads, input)?)),
        Mode::Order => Ok(Written::of(ordered(alloc, keys, &input.taps)?)),
        Mode::Upgrade => Ok(upgraded(alloc, keys, &input.taps)?),
    }
}

/// What is written for what was read: for the taps and the certificates, or for the first refused line.
pub fn output_of<H: Threads + Wait + Clock + Sync>(
    rt: &H,
    alloc: Global,
    keys: RandomState,
    options: Options,
    read: Result<Input, ReadFault>,
) -> Result<Written, RunFault>
    requires names { IfOk read (λ input. AreNamedOnce input.taps) }
    requires workers { (0 < options.workers) × (options.workers ≤ 64) }
    ensures output { IfOk result (λ o. IsOutputOver options.mode options.whole read o) }
    ensures err { OnErr result ((result ≡ Err RunFault.Memory) ⊎ (result ≡ Err RunFault.Spawn)) }
{
    match read {
        Ok(input) => output_over(rt, alloc, keys, options, &ManuallyDrop::new(input)),
        Err(ReadFault::Input(line, code)) => Ok(Written::of(refusal(alloc, line, code.name())?)),
        Err(ReadFault::Memory) => Err(RunFault::Memory),
    }
}

//! The command `split`.
ghost use Rattle.std.specs.Prelude.{◌≡◌, ◌<◌, length, IfOk};
ghost use Rattle.std.specs.List.{All};
ghost use Rattle.aud_parts.specs.Plan.{IsClosed};

use crate::failure::Failure;
use crate::part_files::{give_back, prepare_folder, write_text};
use crate::part_writing::{Splitting, write_split};
use crate::refusal::refuse;
use crate::run_files::RunFiles;
use crate::source::keys_of;
use aud_app::RunFault;
use aud_cli::{PartsWanted, SplitOptions, split_asked};
use aud_node::Logs;
use aud_parts::{
    ClientsRead, FirstRefusal, IndexedTaps, MeasuredClient, Plan, PlanFault, Planned, RefusedLine,
    Servers, SizedFault, TapIndex, listing_of_plan, listing_text, plan_parts, plan_within,
    read_clients, read_servers,
};
use aud_reader::ReadFault;
use std::alloc::{AllocError, Global};
use std::hash::RandomState;
use std::mem::ManuallyDrop;
use std::process::ExitCode;
use std::thread::Threads;

/// Writes which line of the input is refused.
fn refused(host: &HostRuntime, alloc: Global, line: RefusedLine) -> Result<Failure, Failure> {
    let (number, name) = (line.number, line.code.name());
    let text = format!(in alloc; "line {number}: {name}\n")?;
    write_text(host, text.as_bytes())?;
    Ok(Failure::Said(2))
}

/// Why no such parts can be made.
pub fn unplanned(alloc: Global, fault: SizedFault) -> Result<Failure, AllocError> {
    if let SizedFault::Plan(PlanFault::Memory) = &fault {
        return Ok(Failure::from(RunFault::Memory));
    }
    Ok(Failure::Line(format!(in alloc; "error: {fault}")?, 4))
}

/// The refusal that the index tells, if it does.
fn refusal_of(index: &TapIndex) -> FirstRefusal {
    let mut refusal = FirstRefusal::new();
    if let Some(ReadFault::Input(number, code)) = index.fault() {
        refusal.add(number, code);
    }
    refusal
}

/// Plans the parts that are wanted.
fn plan_of(
    alloc: Global,
    logs: &Logs<'_>,
    clients: &[MeasuredClient],
    wanted: PartsWanted,
) -> Result<Plan, SizedFault>
    ensures { IfOk result (IsClosed logs.now.taps clients.now) }
{
    match wanted {
        PartsWanted::Number(number) => {
            match plan_parts(alloc, logs, clients, usize::from(number)) {
                Ok(plan) => Ok(plan),
                Err(fault) => Err(SizedFault::Plan(fault)),
            }
        }
        PartsWanted::Bytes(most) => plan_within(alloc, logs, clients, most),
    }
}

/// The text of which part has which session.
fn sessions_of(alloc: Global, plan: &Plan) -> Result<String, AllocError>
    requires each { length plan.now.parts.items ≡ length plan.now.sessions }
    requires within { All (λ part. part < length plan.now.weights.items) plan.now.parts.items }
{
    let listing = listing_of_plan(alloc, plan)?;
    listing_text(alloc, &listing)
}

/// Writes the parts of a plan.
fn split_plan<H: Threads + Sync>(
    rt: &H,
    host: &HostRuntime,
    alloc: Global,
    options: &SplitOptions,
    files: &mut RunFiles<'_>,
    indexed: &IndexedTaps<'_>,
    logs: &Logs<'_>,
    clients: &[MeasuredClient],
    plan: &Plan,
) -> Result<(), Failure>
    requires { IsClosed logs.now.taps clients.now plan.now }
{
    let sessions = sessions_of(alloc, plan)?;
    let splitting = Splitting {
        rt,
        host,
        alloc,
        folder: options.into.as_str(),
        threads: usize::from(options.workers),
        plan,
        planned: Planned::new(alloc, logs, clients, plan),
        indexed,
        sessions: sessions.as_str(),
    };
    write_split(&splitting, files)
}

/// Plans the parts and writes them.
fn split_logs<H: Threads + Sync>(
    rt: &H,
    host: &HostRuntime,
    alloc: Global,
    options: &SplitOptions,
    files: &mut RunFiles<'_>,
    indexed: &IndexedTaps<'_>,
    logs: &Logs<'_>,
    clients: &[MeasuredClient],
) -> Result<(), Failure> {
    match plan_of(alloc, logs, clients, options.parts) {
        Ok(plan) => split_plan(
            rt, host, alloc, options, files, indexed, logs, clients, &plan,
        ),
        Err(fault) => Err(unplanned(alloc, fault)?),
    }
}

/// Reads the clients' taps.
fn clients_of<'x, H: Threads + Sync>(
    rt: &H,
    alloc: Global,
    keys: RandomState,
    threads: usize,
    files: &mut RunFiles<'_>,
    index: &'x TapIndex,
    servers: &'x Servers,
    logs: &Logs<'_>,
) -> Result<ClientsRead, RunFault> {
    let indexed = IndexedTaps {
        taps: index.taps(),
        kinds: servers.kinds.as_slice(),
        lines: servers.lines.as_slice(),
    };
    read_clients(rt, alloc, keys, threads, files, logs.stream(), &indexed)
}

/// Reads the clients' taps, and splits what was read.
fn split_servers<'x, H: Threads + Sync>(
    rt: &H,
    host: &HostRuntime,
    alloc: Global,
    keys: RandomState,
    options: &SplitOptions,
    files: &mut RunFiles<'_>,
    index: &'x TapIndex,
    servers: &'x Servers,
    refusal: FirstRefusal,
) -> Result<(), Failure> {
    let threads = usize::from(options.workers);
    let mut refusal = refusal;
    let indexed = IndexedTaps {
        taps: index.taps(),
        kinds: servers.kinds.as_slice(),
        lines: servers.lines.as_slice(),
    };
    let logs = Logs::build_in_threads(rt, alloc, keys, threads, &servers.taps)?;
    let logs = ManuallyDrop::new(logs);
    let read = match clients_of(rt, alloc, keys, threads, files, index, servers, &logs) {
        Ok(read) => read,
        Err(fault) => return Err(files.fault(fault)?),
    };
    files.clear();
    if let Some(line) = read.refused {
        refusal.add(line.number, line.code);
    }
    if let Some(line) = refusal.line() {
        return Err(refused(host, alloc, line)?);
    }
    split_logs(
        rt,
        host,
        alloc,
        options,
        files,
        &indexed,
        &logs,
        &read.clients,
    )
}

/// Reads the files, and splits what they have.
fn split_files<H: Threads + Sync>(
    rt: &H,
    host: &HostRuntime,
    alloc: Global,
    options: &SplitOptions,
    files: &mut RunFiles<'_>,
) -> Result<(), Failure> {
    let keys = keys_of(host)?;
    let index = match files.index(keys) {
        Ok(index) => index,
        Err(fault) => return Err(files.fault(fault)?),
    };
    let mut refusal = refusal_of(&index);
    let servers = match read_servers(alloc, keys, files, index.taps(), &mut refusal) {
        Ok(servers) => ManuallyDrop::new(servers),
        Err(fault) => return Err(files.fault(fault)?),
    };
    split_servers(
        rt, host, alloc, keys, options, files, &index, &servers, refusal,
    )
}

/// Splits the files into the folder, which is made if it isn't there, and left as it was if that fails.
fn split<H: Threads + Sync>(
    rt: &H,
    host: &HostRuntime,
    alloc: Global,
    options: &SplitOptions,
) -> Result<(), Failure> {
    let mut files = RunFiles::new(host, alloc, options.files.as_slice(), options.quiet);
    files.check()?;
    let folder = options.into.as_str();
    let was = prepare_folder(host, alloc, folder)?;
    let outcome = split_files(rt, host, alloc, options, &mut files);
    if outcome.is_err() {
        give_back(host, folder, was);
    }
    outcome
}

/// Splits the bundle that the arguments name.
pub fn splitting<H: Threads + Sync>(
    rt: &H,
    host: &HostRuntime,
    alloc: Global,
    words: &[&str],
) -> Result<ExitCode, Failure> {
    match split_asked(alloc, words) {
        Ok(options) => {
            split(rt, host, alloc, &options)?;
            Ok(ExitCode::SUCCESS)
        }
        Err(_) => refuse(host, alloc, words),
    }
}

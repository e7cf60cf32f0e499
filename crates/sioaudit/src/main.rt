//! `sioaudit`: reads a bundle and writes the report on it, explains or splits one, merges the reports on the parts of one,
//! or writes a simulated one.
#![tactic(auto)]

mod explain;
mod failure;
mod merge;
mod part_files;
mod part_writing;
mod progress;
mod refusal;
mod report;
mod run_files;
mod simulate;
mod source;
mod split;
mod tally;

use crate::explain::explanation;
use crate::failure::Failure;
use crate::merge::merging;
use crate::report::write_report;
use crate::simulate::simulation;
use crate::split::splitting;
use aud_app::{RunFault, Status};
use std::alloc::Global;
use std::process::ExitCode;
use std::sync::Wait;
use std::thread::Threads;
use std::time::Clock;
use std::{env, io};

/// The exit status of a run that wrote its output.
fn status_code(status: Status) -> ExitCode {
    match status {
        Status::AllYes | Status::NoSession | Status::NoneRecoverable => ExitCode::SUCCESS,
        Status::SomeNo => ExitCode::from(1),
        Status::Refused => ExitCode::from(2),
    }
}

/// Why the arguments could not be read.
fn unreadable(alloc: Global, error: &io::Error) -> Result<Failure, Failure> {
    if error.kind() == io::ErrorKind::OutOfMemory {
        return Err(Failure::from(RunFault::Memory));
    }
    Ok(Failure::Line(format!(in alloc; "error: a word is not UTF-8")?, 4))
}

/// Does what the arguments ask for, on the threads of `rt`.
fn command<H: Threads + Wait + Clock + Sync>(
    rt: &H,
    host: &HostRuntime,
    alloc: Global,
) -> Result<ExitCode, Failure> {
    let args = match env::args(host) {
        Ok(args) => args,
        Err(error) => return Err(unreadable(alloc, &error)?),
    };
    let owned = args.skip(1).collect::<Vec<String>>(alloc)?;
    let words = owned
        .iter()
        .map(|w| w.as_str())
        .collect::<Vec<&str>>(alloc)?;
    match words.first().copied() {
        Some("simulate") => simulation(host, alloc, &words, host.stdout()),
        Some("explain") => explanation(rt, host, alloc, &words),
        Some("split") => splitting(rt, host, alloc, &words),
        Some("merge") => merging(host, alloc, &words),
        _ => write_report(rt, host, alloc, &words),
    }
}

fn main(rt: HostRuntime) -> ExitCode {
    match command(&rt, &rt, rt.alloc()) {
        Ok(status) => status,
        Err(failure) => failure.end(&rt),
    }
}

//! The commands that write a report on a bundle: all that read one, but `explain`.
use crate::failure::{Failure, unread};
use crate::progress::Progress;
use crate::refusal::refuse;
use crate::source::{Source, keys_of, sources};
use crate::status_code;
use aud_app::{RunFault, Status, Watched, files, options, run};
use aud_input::Sources;
use std::alloc::{AllocError, Global};
use std::io::{IsTerminal, Stderr};
use std::process::ExitCode;
use std::sync::Wait;
use std::thread::Threads;
use std::time::Clock;

type Input<'a> = Watched<Progress<Stderr, Sources<Source<'a>>>>;

/// The file that could not be read.
fn unread_of(alloc: Global, input: Input<'_>) -> Result<Failure, AllocError> {
    let os_error = input.os_error();
    let sources = input.into_inner().into_inner();
    unread(alloc, sources.current().name(), os_error)
}

/// Says where a yes for each session says nothing.
fn note(rt: &impl Eprint, status: Status) {
    let why = match status {
        Status::NoSession => "nothing was judged: no session was recorded",
        Status::NoneRecoverable => "a yes says nothing here: no entry of the stream is recoverable",
        Status::AllYes | Status::SomeNo | Status::Refused => return,
    };
    let _ = eprintln!(rt; "sioaudit: {why}");
}

/// Writes the report that the arguments ask for, on the threads of `rt`.
pub fn write_report<H: Threads + Wait + Clock + Sync>(
    rt: &H,
    host: &HostRuntime,
    alloc: Global,
    words: &[&str],
) -> Result<ExitCode, Failure> {
    let chosen = match options(alloc, words) {
        Ok(chosen) => chosen,
        Err(_) => return refuse(host, alloc, words),
    };
    let named = files(alloc, words)?;
    let keys = keys_of(host)?;
    let sources = sources(host, alloc, named.names.as_slice(), named.quiet)?;
    let notes = host.stderr();
    let is_shown = !named.quiet && notes.is_terminal();
    let mut input = Watched::new(Progress::new(sources, notes, is_shown));
    let mut output = Watched::new(host.stdout());
    match run(rt, alloc, keys, &mut input, &mut output, chosen) {
        Ok(status) => {
            note(host, status);
            Ok(status_code(status))
        }
        Err(RunFault::Read) => Err(unread_of(alloc, input)?),
        Err(RunFault::Write) => Err(Failure::Fault(RunFault::Write, output.os_error())),
        Err(fault) => Err(Failure::from(fault)),
    }
}

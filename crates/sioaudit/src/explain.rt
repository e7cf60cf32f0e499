//! The command `explain`.
ghost use Rattle.std.specs.Prelude.{◌<◌, ◌≤◌, IfOk, OnOk, length};

use crate::failure::{Failure, refused_for, unread};
use crate::progress::Progress;
use crate::refusal::refuse;
use crate::source::{Source, bytes_in, first_and_others, keys_of};
use crate::status_code;
use aud_app::{RunFault, Watched};
use aud_cli::{ExplainOptions, explain_asked};
use aud_explain_app::{Ending, ExplainFault, Unexplained, explain};
use aud_explanation::{named, printed};
use aud_input::PartLines;
use aud_parts::{LinesFault, read_lines};
use std::alloc::{AllocError, Global};
use std::io::{IsTerminal, Stderr};
use std::process::ExitCode;
use std::sync::Wait;
use std::thread::Threads;
use std::time::Clock;

type Watch<'a> = Watched<Progress<Stderr, Source<'a>>>;

/// The files that the arguments name, standard input where they name none. None is opened yet.
fn files_of<'a>(
    host: &'a HostRuntime,
    alloc: Global,
    options: &'a ExplainOptions,
) -> Result<Vec<Watch<'a>>, AllocError>
    ensures { IfOk result (λ files. 0 < length files.items) }
{
    let (first, others) = first_and_others(options.files.as_slice());
    let mut files = Vec::new(alloc);
    push_file(host, &mut files, first, options.quiet)?;
    for name in others {
        push_file(host, &mut files, name.as_str(), options.quiet)?;
    }
    Ok(files)
}

/// Puts the file of this name as the next.
fn push_file<'a>(
    host: &'a HostRuntime,
    files: &mut Vec<Watch<'a>>,
    name: &'a str,
    quiet: bool,
) -> Result<(), AllocError>
    ensures { OnOk result (0 < length files.new.items) }
{
    let notes = host.stderr();
    let is_shown = !quiet && notes.is_terminal();
    let source = Source::new(host, name, quiet);
    files.push(Watched::new(Progress::new(source, notes, is_shown)))?;
    Ok(())
}

/// The lines of a part, as the file of this name names them.
fn lines_in(host: &HostRuntime, alloc: Global, name: &str) -> Result<PartLines, Failure> {
    let text = bytes_in(host, alloc, name)?;
    match read_lines(alloc, text.as_slice()) {
        Ok(part) => Ok(part),
        Err(LinesFault::Memory) => Err(Failure::from(RunFault::Memory)),
        Err(fault) => {
            let words = format!(in alloc; "{fault}")?;
            Err(refused_for(alloc, name, words.as_str())?)
        }
    }
}

/// The lines are those of another part, which is of this size.
fn other_part(
    alloc: Global,
    options: &ExplainOptions,
    part: Option<&PartLines>,
) -> Result<Failure, AllocError> {
    let (Some(name), Some(part)) = (&options.lines, part) else {
        return Ok(Failure::from(RunFault::Write));
    };
    let (lines, bytes) = (part.size.lines, part.size.bytes);
    let words = format!(in alloc; "is of a part of {lines} lines and {bytes} bytes")?;
    refused_for(alloc, name.as_str(), words.as_str())
}

/// Why nothing was explained.
fn unexplained(
    rt: &impl Eprint,
    alloc: Global,
    options: &ExplainOptions,
    files: &[Watch<'_>],
    why: Unexplained,
) -> Result<Failure, AllocError> {
    match why {
        Unexplained::Unread { file } => unread_at(rt, alloc, options, files, file),
        Unexplained::Memory => Ok(Failure::from(RunFault::Memory)),
        Unexplained::Spawn => Ok(Failure::from(RunFault::Spawn)),
        Unexplained::NoSession { number } => no_session(alloc, options, number),
    }
}

/// The file with this number could not be read. Where records are asked for, and it and the next one of the arguments could
/// be a tap and a number, a line says how the records of another tap are asked for.
fn unread_at(
    rt: &impl Eprint,
    alloc: Global,
    options: &ExplainOptions,
    files: &[Watch<'_>],
    file: usize,
) -> Result<Failure, AllocError> {
    let os_error = match files.get(file) {
        Some(watched) => watched.os_error(),
        None => None,
    };
    let names = options.files.as_slice().get(file..).unwrap_or(&[]);
    let name = match names.first() {
        Some(name) => name.as_str(),
        None => "-",
    };
    let failure = unread(alloc, name, os_error)?;
    match names {
        [_, number, ..]
            if !options.records.as_slice().is_empty() && number.as_str().parse::<u64>().is_ok() => {
            let (name, number) = (printed(alloc, name)?, number.as_str());
            let name = name.as_str();
            let _ = failure.end(rt);
            let _ = eprintln!(rt;
                "  tip: another tap has a --record of its own: --record {name} {number}"
            );
            Ok(Failure::Said(3))
        }
        _ => Ok(failure),
    }
}

/// A name as the text of an explanation has it: between quotes where it isn't plain, and printed so that all of it is seen.
fn shown_name(alloc: Global, name: &str) -> Result<String, AllocError> {
    let name = named(alloc, name)?;
    printed(alloc, name.as_str())
}

/// Nothing names a session of the arguments.
fn no_session(
    alloc: Global,
    options: &ExplainOptions,
    number: usize,
) -> Result<Failure, AllocError> {
    let pid = match options.pids.as_slice().get(number) {
        Some(pid) => shown_name(alloc, pid.as_str())?,
        None => String::new(alloc),
    };
    let pid = pid.as_str();
    let line = format!(in alloc; "error: nothing in the bundle names the session {pid}")?;
    Ok(Failure::Line(line, 4))
}

/// The bundle doesn't have a record of the arguments.
fn no_record(
    alloc: Global,
    options: &ExplainOptions,
    number: usize,
) -> Result<Failure, AllocError> {
    let Some(record) = options.records.as_slice().get(number) else {
        return Ok(Failure::from(RunFault::Memory));
    };
    let tap = shown_name(alloc, record.tap.as_str())?;
    let (number, tap) = (record.number, tap.as_str());
    let line = format!(in alloc; "error: the bundle has no record {number} of a tap {tap}")?;
    Ok(Failure::Line(line, 4))
}

/// Says which sessions of the arguments `--only` leaves out.
fn ended(rt: &impl Eprint, alloc: Global, ending: &Ending<'_>) -> Result<ExitCode, Failure> {
    for pid in &ending.left_out {
        let pid = shown_name(alloc, pid)?;
        let pid = pid.as_str();
        let _ = eprintln!(rt; "sioaudit: --only leaves out the session {pid}");
    }
    Ok(status_code(ending.status))
}

/// Explains what the arguments ask for, on the threads of `rt`.
pub fn explanation<H: Threads + Wait + Clock + Sync>(
    rt: &H,
    host: &HostRuntime,
    alloc: Global,
    words: &[&str],
) -> Result<ExitCode, Failure> {
    let Ok(options) = explain_asked(alloc, words) else {
        return refuse(host, alloc, words);
    };
    let Some(name) = &options.lines else {
        return explained(rt, host, alloc, &options, None);
    };
    let part = lines_in(host, alloc, name.as_str())?;
    explained(rt, host, alloc, &options, Some(&part))
}

/// The same, where these are the lines of the part, if it is one.
fn explained<H: Threads + Wait + Clock + Sync>(
    rt: &H,
    host: &HostRuntime,
    alloc: Global,
    options: &ExplainOptions,
    part: Option<&PartLines>,
) -> Result<ExitCode, Failure>
    requires { (0 < options.now.workers) × (options.now.workers ≤ 64) }
{
    let keys = keys_of(host)?;
    let mut output = Watched::new(host.stdout());
    let mut files = files_of(host, alloc, options)?;
    match explain(rt, alloc, keys, &mut files, &mut output, options, part) {
        Ok(ending) => ended(host, alloc, &ending),
        Err(ExplainFault::Write) => Err(Failure::Fault(RunFault::Write, output.os_error())),
        Err(ExplainFault::Unexplained(why)) => {
            Err(unexplained(host, alloc, options, &files, why)?)
        }
        Err(ExplainFault::NoRecord { number }) => Err(no_record(alloc, options, number)?),
        Err(ExplainFault::OtherPart) => Err(other_part(alloc, options, part)?),
    }
}

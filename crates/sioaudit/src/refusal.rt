//! Arguments that are refused, or that ask for help.
use crate::failure::Failure;
use aud_app::{RunFault, options};
use aud_cli::{explain_asked, merge_asked, split_asked};
use aud_explanation::printed;
use aud_schedule::plan_asked;
use clap::error::ErrorKind;
use std::alloc::{AllocError, Global};
use std::process::ExitCode;

/// The arguments as they are printed.
fn printed_words(alloc: Global, words: &[&str]) -> Result<Vec<String>, AllocError> {
    let mut shown = Vec::new(alloc);
    for word in words {
        shown.push(printed(alloc, word)?)?;
    }
    Ok(shown)
}

/// What the parser says on these arguments; nothing where they are understood.
fn said_on<'a>(alloc: Global, words: &'a [&'a str]) -> Option<clap::Error> {
    match words.first().copied() {
        Some("simulate") => plan_asked(alloc, words).err(),
        Some("explain") => explain_asked(alloc, words).err(),
        Some("split") => split_asked(alloc, words).err(),
        Some("merge") => merge_asked(alloc, words).err(),
        _ => options(alloc, words).err(),
    }
}

/// Prints the help that was asked for, or why the arguments, which are not understood, are refused. What it says of
/// them it says of the arguments as they are printed: those that have to be escaped are not understood either way.
pub fn refuse(
    rt: &(impl Print + Eprint),
    alloc: Global,
    words: &[&str],
) -> Result<ExitCode, Failure> {
    let owned = printed_words(alloc, words)?;
    let words = owned
        .iter()
        .map(|w| w.as_str())
        .collect::<Vec<&str>>(alloc)?;
    let Some(error) = said_on(alloc, &words) else {
        // (they were refused as memory ran out, and for nothing else)
        return Err(Failure::from(RunFault::Memory));
    };
    if error.kind() == ErrorKind::OutOfMemory {
        return Err(Failure::from(RunFault::Memory));
    }
    match error.print(rt) {
        _ if error.use_stderr() => Err(Failure::Said(4)),
        Err(error) => Err(Failure::Fault(RunFault::Write, error.raw_os_error())),
        Ok(()) => Ok(ExitCode::SUCCESS),
    }
}

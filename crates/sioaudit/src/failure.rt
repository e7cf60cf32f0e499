//! Why a command ends without its output, or with a part of it.
use aud_app::RunFault;
use aud_explanation::printed;
use std::alloc::{AllocError, AllocFailed, Global};
use std::io;
use std::process::ExitCode;

/// What is said on standard error where a command fails.
#[derive(Drop)]
pub enum Failure {
    /// A fault of the run, with the system's reason where there is one: status 3. Nothing is said where whoever read the
    /// output has closed it.
    Fault(RunFault, Option<i32>),
    /// This line, with this status.
    Line(String, u8),
    /// What was said already, with this status.
    Said(u8),
}

impl From<AllocError> for Failure {
    fn from(_: AllocError) -> Failure {
        Failure::Fault(RunFault::Memory, None)
    }
}

impl<T: Drop> From<AllocFailed<T>> for Failure {
    fn from(_: AllocFailed<T>) -> Failure {
        Failure::Fault(RunFault::Memory, None)
    }
}

impl From<RunFault> for Failure {
    fn from(fault: RunFault) -> Failure {
        Failure::Fault(fault, None)
    }
}

impl Failure {
    /// Says it, and gives the exit status.
    pub fn end(self, rt: &impl Eprint) -> ExitCode {
        match self {
            Failure::Fault(fault, None) => {
                let _ = eprintln!(rt; "sioaudit: {fault}");
                ExitCode::from(3)
            }
            Failure::Fault(fault, Some(number)) => {
                let reason = io::Error::from_raw_os_error(number);
                if reason.kind() != io::ErrorKind::BrokenPipe {
                    let _ = eprintln!(rt; "sioaudit: {fault}: {reason}");
                }
                ExitCode::from(3)
            }
            Failure::Line(line, status) => {
                let line = line.as_str();
                let _ = eprintln!(rt; "{line}");
                ExitCode::from(status)
            }
            Failure::Said(status) => ExitCode::from(status),
        }
    }
}

/// A file of this name could not be read or written, with the system's reason where there is one.
pub fn failed_at(
    alloc: Global,
    fault: RunFault,
    name: &str,
    os_error: Option<i32>,
) -> Result<Failure, AllocError> {
    let name = printed(alloc, name)?;
    let name = name.as_str();
    let line = match os_error {
        Some(number) => {
            let reason = io::Error::from_raw_os_error(number);
            format!(in alloc; "sioaudit: {fault}: {name}: {reason}")?
        }
        None => format!(in alloc; "sioaudit: {fault}: {name}")?,
    };
    Ok(Failure::Line(line, 3))
}

/// A file of the arguments is refused, in these words.
pub fn refused_for(alloc: Global, name: &str, words: &str) -> Result<Failure, AllocError> {
    let name = printed(alloc, name)?;
    let name = name.as_str();
    Ok(Failure::Line(format!(in alloc; "error: {name}: {words}")?, 4))
}

/// A file of the input could not be read, or standard input for `-`, with the system's reason where there is one.
pub fn unread(alloc: Global, name: &str, os_error: Option<i32>) -> Result<Failure, AllocError> {
    if name == "-" {
        return Ok(Failure::Fault(RunFault::Read, os_error));
    }
    failed_at(alloc, RunFault::Read, name, os_error)
}

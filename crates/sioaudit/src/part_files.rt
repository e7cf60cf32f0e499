//! The folder that the parts are written to.
use crate::failure::{Failure, failed_at, refused_for};
use aud_app::{RunFault, Watched};
use aud_base::write_out;
use std::alloc::{AllocError, Global};
use std::fs::{self, File};
use std::io;

/// The name of the file that lists the sessions of each part, in the folder of the parts.
pub const SESSIONS: &str = "sessions";

/// The name that it has until it is whole.
const NEW_SESSIONS: &str = "sessions.new";

/// The name of the file of the part with this number, which counts from 0; in the name from 1.
pub fn part_name(alloc: Global, part: usize) -> Result<String, AllocError> {
    let number = part.saturating_add(1);
    format!(in alloc; "part-{number:04}.jsonl")
}

/// The name of the file beside it, which says from which lines of the whole those of the part come.
pub fn lines_name(alloc: Global, part: usize) -> Result<String, AllocError> {
    let number = part.saturating_add(1);
    format!(in alloc; "part-{number:04}.lines")
}

/// Whether a file of this name could be that of a part, or the one beside it.
fn is_part_name(name: &str) -> bool {
    name.starts_with("part-") && (name.ends_with(".jsonl") || name.ends_with(".lines"))
}

/// The path of the file of this name in the folder.
pub fn path_in(alloc: Global, folder: &str, name: &str) -> Result<String, AllocError> {
    format!(in alloc; "{folder}/{name}")
}

/// Whether the folder has the parts of a bundle, or some of them.
fn has_parts(host: &HostRuntime, alloc: Global, folder: &str) -> io::Result<bool> {
    let path = path_in(alloc, folder, SESSIONS)?;
    if fs::exists(host, path.as_str())? {
        return Ok(true);
    }
    for entry in fs::read_dir(host, folder)? {
        if is_part_name(entry?.file_name()) {
            return Ok(true);
        }
    }
    Ok(false)
}

/// Whether the folder was made now.
#[derive(Clone, Copy, PartialEq, Eq, Drop)]
pub enum Folder {
    Made,
    WasThere,
}

/// Makes the folder, or sees that the one that is there has no parts; the failure is why it can't be used.
pub fn prepare_folder(host: &HostRuntime, alloc: Global, folder: &str) -> Result<Folder, Failure> {
    match fs::create_dir(host, folder) {
        Ok(()) => return Ok(Folder::Made),
        Err(error) if error.kind() == io::ErrorKind::AlreadyExists => {}
        Err(error) => return Err(unwritten_at(alloc, folder, error.raw_os_error())?),
    }
    match has_parts(host, alloc, folder) {
        Ok(false) => Ok(Folder::WasThere),
        Ok(true) => {
            let words = "the parts of a bundle are there already";
            Err(refused_for(alloc, folder, words)?)
        }
        Err(error) => {
            let os_error = error.raw_os_error();
            Err(failed_at(alloc, RunFault::Read, folder, os_error)?)
        }
    }
}

/// Removes the folder again, if it was made now and is empty, as far as that can be done.
pub fn give_back(host: &HostRuntime, folder: &str, was: Folder) {
    if was == Folder::Made {
        let _ = fs::remove_dir(host, folder);
    }
}

/// A file or a folder of this name could not be written, with the system's reason where there is one.
pub fn unwritten_at(
    alloc: Global,
    name: &str,
    os_error: Option<i32>,
) -> Result<Failure, AllocError> {
    failed_at(alloc, RunFault::Write, name, os_error)
}

/// Makes a file that is to be written.
pub fn create(host: &HostRuntime, alloc: Global, path: &str) -> Result<Watched<File>, Failure> {
    match fs::create(host, path) {
        Ok(file) => Ok(Watched::new(file)),
        Err(error) => Err(unwritten_at(alloc, path, error.raw_os_error())?),
    }
}

/// Writes a file of this name in the folder, with this text.
pub fn write_file(
    host: &HostRuntime,
    alloc: Global,
    folder: &str,
    name: &str,
    text: &str,
) -> Result<(), Failure> {
    let path = path_in(alloc, folder, name)?;
    let mut file = create(host, alloc, path.as_str())?;
    match write_out(&mut file, text.as_bytes()) {
        Ok(()) => Ok(()),
        Err(_) => Err(unwritten_at(alloc, path.as_str(), file.os_error())?),
    }
}

/// Writes the file that lists the sessions of each part: first under another name.
pub fn write_sessions(
    host: &HostRuntime,
    alloc: Global,
    folder: &str,
    text: &str,
) -> Result<(), Failure> {
    let new = path_in(alloc, folder, NEW_SESSIONS)?;
    let path = path_in(alloc, folder, SESSIONS)?;
    write_file(host, alloc, folder, NEW_SESSIONS, text)?;
    match fs::rename(host, new.as_str(), path.as_str()) {
        Ok(()) => Ok(()),
        Err(error) => Err(unwritten_at(alloc, path.as_str(), error.raw_os_error())?),
    }
}

/// Removes the file of this name from the folder, as far as that can be done.
fn remove(host: &HostRuntime, alloc: Global, folder: &str, name: &str) {
    if let Ok(path) = path_in(alloc, folder, name) {
        let _ = fs::remove_file(host, path.as_str());
    }
}

/// Removes the files of a split into so many parts, as far as that can be done.
pub fn remove_split(host: &HostRuntime, alloc: Global, folder: &str, parts: usize) {
    remove(host, alloc, folder, SESSIONS);
    remove(host, alloc, folder, NEW_SESSIONS);
    for part in 0..parts {
        if let Ok(name) = part_name(alloc, part) {
            remove(host, alloc, folder, name.as_str());
        }
        if let Ok(name) = lines_name(alloc, part) {
            remove(host, alloc, folder, name.as_str());
        }
    }
}

/// Writes a text to standard output.
pub fn write_text(host: &HostRuntime, text: &[u8]) -> Result<(), Failure> {
    let mut output = Watched::new(host.stdout());
    match write_out(&mut output, text) {
        Ok(()) => Ok(()),
        Err(fault) => Err(Failure::Fault(fault, output.os_error())),
    }
}

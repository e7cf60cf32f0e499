//! The command `merge`.
ghost use Rattle.std.specs.Prelude.{IfOk, IsTrue};
ghost use Rattle.aud_parts.specs.Listing.{are_within};

use crate::failure::{Failure, failed_at};
use crate::part_files::{SESSIONS, part_name, path_in, write_text};
use crate::refusal::refuse;
use crate::source::{bytes_in, keys_of};
use aud_app::RunFault;
use aud_cli::{MergeOptions, merge_asked};
use aud_explanation::printed;
use aud_parts::{Listing, ListingFault, MergeAnswer, MergeFault, ReportFault, merge, read_listing};
use aud_tap::{Bytes, Text};
use std::alloc::{AllocError, Global};
use std::fs;
use std::hash::RandomState;
use std::process::ExitCode;

/// Which part has which session, as the folder's file says.
fn listing_in(
    host: &HostRuntime,
    alloc: Global,
    keys: RandomState,
    folder: &str,
) -> Result<Listing, Failure>
    ensures { IfOk result (λ listing. IsTrue (are_within listing)) }
{
    let path = path_in(alloc, folder, SESSIONS)?;
    let path = path.as_str();
    let text = match fs::read(host, path) {
        Ok(text) => text,
        Err(error) => {
            let os_error = error.raw_os_error();
            return Err(failed_at(alloc, RunFault::Read, path, os_error)?);
        }
    };
    match read_listing(alloc, keys, &text) {
        Ok(listing) => Ok(listing),
        Err(ListingFault::Memory) => Err(Failure::from(RunFault::Memory)),
        Err(fault) => {
            let path = printed(alloc, path)?;
            let path = path.as_str();
            Err(Failure::Line(format!(in alloc; "error: {path}: {fault}")?, 2))
        }
    }
}

/// The bytes of all reports.
fn reports_in(host: &HostRuntime, alloc: Global, names: &[Text]) -> Result<Vec<Bytes>, Failure> {
    let mut reports = Vec::new(alloc);
    for name in names {
        reports.push(bytes_in(host, alloc, name.as_str())?)?;
    }
    Ok(reports)
}

/// Says what is wrong with the reports of these names, or which part has none.
fn say_all(
    rt: &impl Eprint,
    alloc: Global,
    names: &[Text],
    faults: &[MergeFault],
) -> Result<(), AllocError> {
    for fault in faults {
        match fault {
            MergeFault::Report(number, fault) => say_report(rt, alloc, names, *number, *fault)?,
            MergeFault::Missing(part) => {
                let name = part_name(alloc, *part)?;
                let name = name.as_str();
                let _ = eprintln!(rt; "error: no report of {name}");
            }
        }
    }
    Ok(())
}

/// Says what is wrong with a report.
fn say_report(
    rt: &impl Eprint,
    alloc: Global,
    names: &[Text],
    number: usize,
    fault: ReportFault,
) -> Result<(), AllocError> {
    let name = match names.get(number) {
        Some(name) => printed(alloc, name.as_str())?,
        None => String::new(alloc),
    };
    let name = name.as_str();
    let _ = eprintln!(rt; "error: {name}: {fault}");
    Ok(())
}

/// Merges the reports that the options name, and writes the one on the whole.
fn merge_reports(
    host: &HostRuntime,
    alloc: Global,
    options: &MergeOptions,
) -> Result<ExitCode, Failure> {
    let keys = keys_of(host)?;
    let names = options.reports.as_slice();
    let listing = listing_in(host, alloc, keys, options.folder.as_str())?;
    let reports = reports_in(host, alloc, names)?;
    match merge(alloc, keys, &listing, &reports)? {
        MergeAnswer::Whole(merged) => {
            write_text(host, merged.text.as_slice())?;
            Ok(ExitCode::from(if merged.are_all_yes { 0 } else { 1 }))
        }
        MergeAnswer::Faults(faults) => {
            say_all(host, alloc, names, faults.as_slice())?;
            Err(Failure::Said(2))
        }
    }
}

/// Merges the reports that the arguments name.
pub fn merging(host: &HostRuntime, alloc: Global, words: &[&str]) -> Result<ExitCode, Failure> {
    match merge_asked(alloc, words) {
        Ok(options) => merge_reports(host, alloc, &options),
        Err(_) => refuse(host, alloc, words),
    }
}

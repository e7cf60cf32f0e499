//! The one report of the reports on the parts.
pub mod fault;
pub mod laws;
pub mod report_lines;

ghost use Rattle.std.specs.Prelude.{◌≡◌, ◌<◌, ◌+◌, ◌^◌, ◌++◌, [], slice_get, List, ℕ, IfOk, IfSome, IsTrue, OnOk, map, length, replicate, take};
ghost use Rattle.std.specs.List.{list_all};
ghost use Rattle.aud_base.specs.Places.{places_of};
ghost use Rattle.aud_parts.specs.Listing.{are_within, is_within};
ghost use Rattle.aud_parts.specs.Merged.{told, answer_of, merged, merged_lines, merged_of};
ghost use Rattle.aud_parts.specs.Private.PartPlaces.{places_by_first};
ghost use Rattle.aud_parts.specs.Private.Slots.{fault_with, slots_with, slots_of, report_faults, missing_in, all_in, left_in, next_after};

use crate::listing::by_part::{part_of, pids_by_part, places_by_first};
use crate::listing::{ListedSession, Listing};
use crate::merging::fault::{MergeFault, ReportFault};
use crate::merging::report_lines::{ReportLine, are_all_yes, report_in, report_of};
use aud_base::{Bytes, Listed, Places};
use aud_tap::Text;
use std::alloc::{AllocError, Global};
use std::hash::RandomState;

/// The report on the whole.
#[derive(Drop)]
pub struct Merged {
    /// The report, as `sioaudit audit` writes it.
    pub text: Bytes,
    /// Whether each session is answered yes.
    pub are_all_yes: bool,
}

/// What a merge gives.
#[derive(Drop)]
pub enum MergeAnswer {
    /// The report on the whole.
    Whole(Merged),
    /// All that is wrong: report by report in the order in which they are given, and then the parts that have none, by
    /// their numbers.
    Faults(Listed<MergeFault>),
}

/// Of each part the lines of its report, once it came.
type Slots<'a> = Vec<Option<Listed<ReportLine<'a>>>>;

/// Takes in a report: puts its lines to its part, or tells what is wrong with it.
#[tactic(auto, unfolding(crate::specs::Merged::told))]
fn take_report<'a>(
    alloc: Global,
    parts: &[Vec<Text>],
    index: &Places,
    text: &'a [u8],
    slots: &mut Slots<'a>,
) -> Result<Option<ReportFault>, AllocError>
    requires { (pid : List ℕ) → places_of index.now pid
        ≡ places_by_first (map (λ part. part.items) parts.now) pid }
    ensures slots { OnOk result (slots.new.items ≡ slots_with slots.old.items
        (told (map (λ part. part.items) parts.now) text.now)) }
    ensures fault { IfOk result (λ fault. fault ≡ fault_with slots.old.items
        (told (map (λ part. part.items) parts.now) text.now)) }
{
    if text.starts_with(b"line ") {
        return Ok(Some(ReportFault::Refused));
    }
    let Some(lines) = report_in(alloc, text)? else {
        return Ok(Some(ReportFault::NotWhole));
    };
    let Some(part) = part_of(parts, index, lines.as_slice()) else {
        return Ok(Some(ReportFault::OtherSplit));
    };
    if let Some(Some(_)) = slots.get(part) {
        return Ok(Some(ReportFault::Doubled));
    }
    if part < slots.len() {
        slots[part] = Some(lines);
    }
    Ok(None)
}

/// Puts to each part the lines of the first report on it, and to the faults what is wrong with the reports, and
/// then the parts that have none.
fn gather<'a>(
    alloc: Global,
    keys: RandomState,
    parts: &[Vec<Text>],
    reports: &'a [Bytes],
    slots: &mut Slots<'a>,
    faults: &mut Vec<MergeFault>,
) -> Result<(), AllocError>
    ensures slots { slots.old.items ≡ replicate (length parts.now) None
        → OnOk result (slots.new.items
        ≡ slots_of (map (λ part. part.items) parts.now) reports.now) }
    ensures faults { slots.old.items ≡ replicate (length parts.now) None → faults.old.items ≡ []
        → OnOk result (faults.new.items
        ≡ report_faults (map (λ part. part.items) parts.now) reports.now
        ++ missing_in slots.new.items) }
{
    let index = places_by_first(alloc, keys, parts)?;
    for (number, report) in reports.iter().enumerate() {
        if let Some(fault) = take_report(alloc, parts, &index, report.as_slice(), slots)? {
            faults.push(MergeFault::Report(number, fault))?;
        }
    }
    push_missing(faults, slots)
}

/// Puts the parts without a report to the faults.
fn push_missing(
    faults: &mut Vec<MergeFault>,
    slots: &[Option<Listed<ReportLine<'_>>>],
) -> Result<(), AllocError>
    ensures { OnOk result (faults.new.items ≡ faults.old.items ++ missing_in slots.now) }
{
    for (part, slot) in slots.iter().enumerate() {
        if slot.is_none() {
            faults.push(MergeFault::Missing(part))?;
        }
    }
    Ok(())
}

/// The line with this number of the part's report. Numbers count from 0.
fn line_at<'a>(
    slots: &[Option<Listed<ReportLine<'a>>>],
    part: usize,
    number: usize,
) -> Option<ReportLine<'a>>
    ensures value { result ≡ slice_get (all_in slots.now part) number }
    ensures few { IfSome result (λ line. number + 1 < 2 ^ 64) }
{
    let Some(slot) = slots.get(part) else {
        return None;
    };
    let Some(lines) = slot else {
        return None;
    };
    let lines = lines.as_slice();
    if number < lines.len() {
        let line = &lines[number];
        Some(ReportLine {
            pid: line.pid,
            is_yes: line.is_yes,
            text: line.text,
        })
    } else {
        None
    }
}

/// Puts the next line of the part at the end, if there is one, and counts it.
fn push_next<'a>(
    merged: &mut Vec<ReportLine<'a>>,
    next: &mut Vec<usize>,
    slots: &[Option<Listed<ReportLine<'a>>>],
    part: usize,
) -> Result<(), AllocError>
    requires { part < length next.old.items }
    ensures merged { OnOk result (merged.new.items
        ≡ merged.old.items ++ take 1 (left_in slots.now next.old.items part)) }
    ensures next { OnOk result (next.new.items ≡ next_after slots.now next.old.items part) }
{
    let number = next[part];
    if let Some(line) = line_at(slots, part, number) {
        merged.push(line)?;
        next[part] = number + 1;
    }
    Ok(())
}

/// Of each session the line that is next in its part's report.
fn merged_lines<'a>(
    alloc: Global,
    sessions: &[ListedSession],
    slots: &[Option<Listed<ReportLine<'a>>>],
) -> Result<Vec<ReportLine<'a>>, AllocError>
    requires { IsTrue (list_all (is_within (length slots.now)) sessions.now) }
    ensures { IfOk result (λ lines. lines.items ≡ merged_lines (all_in slots.now) sessions.now) }
{
    let mut merged = Vec::new(alloc);
    let mut next = vec![in alloc; 0usize; slots.len()]?;
    for session in sessions {
        push_next(&mut merged, &mut next, slots, session.part)?;
    }
    Ok(merged)
}

/// The report on the whole, of the parts' lines, if nothing is wrong.
fn answer(
    alloc: Global,
    sessions: &[ListedSession],
    slots: &[Option<Listed<ReportLine<'_>>>],
    faults: Vec<MergeFault>,
) -> Result<MergeAnswer, AllocError>
    requires { IsTrue (list_all (is_within (length slots.now)) sessions.now) }
    ensures { IfOk result (λ answer. answer ≡ answer_of faults.items
        (merged_of (merged_lines (all_in slots.now) sessions.now))) }
{
    if faults.is_empty() {
        let lines = merged_lines(alloc, sessions, slots)?;
        return Ok(MergeAnswer::Whole(Merged {
            text: report_of(alloc, &lines)?,
            are_all_yes: are_all_yes(&lines),
        }));
    }
    Ok(MergeAnswer::Faults(Listed::new(faults)))
}

/// The report on the whole, of the reports on the parts of a split, in whatever order; or all that is wrong with them.
///
/// Which part a report is on is told by its sessions: the pids of its lines are, in their order, those of the part. Its
/// lines are copied as they stand. Of two reports on one part the later one is `Doubled`. Pids are hashed with these
/// keys.
pub fn merge(
    alloc: Global,
    keys: RandomState,
    listing: &Listing,
    reports: &[Bytes],
) -> Result<MergeAnswer, AllocError>
    requires { IsTrue (are_within listing.now) }
    ensures { IfOk result (λ answer. answer ≡ merged listing.now reports.now) }
{
    let parts = pids_by_part(alloc, listing)?;
    let count = parts.len();
    let mut slots = Vec::new(alloc);
    for _part in 0..count {
        slots.push(None)?;
    }
    let mut faults = Vec::new(alloc);
    gather(alloc, keys, &parts, reports, &mut slots, &mut faults)?;
    answer(alloc, listing.sessions.as_slice(), &slots, faults)
}

//! The sessions of each part.
ghost use Rattle.std.specs.Prelude.{◌≡◌, List, ℕ, IfOk, IsTrue, map};
ghost use Rattle.std.specs.Cmp.Lexicographic.{pointwise};
ghost use Rattle.std.specs.Str.{bytes_eq};
ghost use Rattle.aud_base.specs.Places.{places_of};
ghost use Rattle.aud_parts.specs.Listing.{are_within, pids_by_part};
ghost use Rattle.aud_parts.specs.Merged.{part_of};
ghost use Rattle.aud_parts.specs.ReportLines.{pids_of};
ghost use Rattle.aud_parts.specs.Private.PartPlaces.{first_or_none, has_pids, places_by_first};

use crate::listing::Listing;
use crate::merging::report_lines::ReportLine;
use aud_base::Places;
use aud_tap::Text;
use std::alloc::{AllocError, Global};
use std::hash::RandomState;

/// The pids of each part's sessions, in their order. They are shared with the listing.
pub(crate) fn pids_by_part(alloc: Global, listing: &Listing) -> Result<Vec<Vec<Text>>, AllocError>
    requires { IsTrue (are_within listing.now) }
    ensures { IfOk result (λ parts. map (λ part. part.items) parts.items
        ≡ pids_by_part listing.now) }
{
    let mut parts = Vec::new(alloc);
    for _part in 0..listing.parts {
        parts.push(Vec::new(alloc))?;
    }
    for session in listing.sessions.as_slice() {
        let pid = session.pid.share()?;
        parts[session.part].push(pid)?;
    }
    Ok(parts)
}

/// The first of these pids; nothing where there is none.
fn first_pid(pids: &[Text]) -> &str
    ensures { result.now ≡ first_or_none pids.now }
{
    match pids.first() {
        Some(pid) => pid.as_str(),
        None => "",
    }
}

/// The pid of the first of these lines; nothing where there is none.
fn first_told<'a>(lines: &[ReportLine<'a>]) -> &'a str
    ensures { result.now ≡ first_or_none (pids_of lines.now) }
{
    match lines.first() {
        Some(line) => line.pid,
        None => "",
    }
}

/// The parts by their first pids.
pub(crate) fn places_by_first(
    alloc: Global,
    keys: RandomState,
    parts: &[Vec<Text>],
) -> Result<Places, AllocError>
    ensures { IfOk result (λ index. (pid : List ℕ) → places_of index pid
        ≡ places_by_first (map (λ part. part.items) parts.now) pid) }
{
    let mut index = Places::new(alloc, keys);
    for (number, pids) in parts.iter().enumerate() {
        index.note(number, first_pid(pids))?;
    }
    Ok(index)
}

/// Whether these are the pids of the lines.
fn are_pids(pids: &[Text], lines: &[ReportLine<'_>]) -> bool
    ensures { result ≡ pointwise bytes_eq pids.now (pids_of lines.now) }
{
    if pids.len() != lines.len() {
        return false;
    }
    for i in 0..pids.len() {
        let line = &lines[i];
        if pids[i].as_str() != line.pid {
            return false;
        }
    }
    true
}

/// Whether the part with this number has the pids of the lines.
fn has_pids(parts: &[Vec<Text>], part: usize, lines: &[ReportLine<'_>]) -> bool
    ensures { result ≡ has_pids (map (λ part. part.items) parts.now) (pids_of lines.now) part }
{
    match parts.get(part) {
        Some(pids) => are_pids(pids, lines),
        None => false,
    }
}

/// The first part whose sessions have the pids of the lines, in this order.
pub(crate) fn part_of(
    parts: &[Vec<Text>],
    index: &Places,
    lines: &[ReportLine<'_>],
) -> Option<usize>
    requires { (pid : List ℕ) → places_of index.now pid
        ≡ places_by_first (map (λ part. part.items) parts.now) pid }
    ensures { result ≡ part_of (map (λ part. part.items) parts.now) (pids_of lines.now) }
{
    for part in index.of(first_told(lines)) {
        if has_pids(parts, *part, lines) {
            return Some(*part);
        }
    }
    None
}

//! The reading of the text that says which part has which session.
ghost use Rattle.std.specs.Prelude.{◌≡◌, [], IfOk, IsTrue};
ghost use Rattle.std.specs.List.{list_all};
ghost use Rattle.aud_parts.specs.Listing.{Gives, are_new, are_within, is_full, is_listing, is_within, listing_in, listing_of, number_under, numbers_under, session_in, session_of_words, sessions_in};

use crate::cut::{LentBytes, cut_at, number_in, pid_in, whole_lines};
use crate::listing::by_part::pids_by_part;
use crate::listing::fault::ListingFault;
use crate::listing::{ListedSession, Listing};
use aud_base::{Listed, Places};
use aud_tap::Text;
use std::alloc::{AllocError, Global};
use std::hash::RandomState;

/// The number after these bytes.
pub(crate) fn number_under(key: &[u8], word: &[u8]) -> Option<usize>
    ensures { result ≡ number_under key.now word.now }
{
    number_in(word.strip_prefix(key)?)
}

/// The numbers of a line's two words, after these bytes in the one and after those in the other.
pub(crate) fn numbers_under(one: &[u8], other: &[u8], line: &[u8]) -> Option<(usize, usize)>
    ensures { result ≡ numbers_under one.now other.now line.now }
{
    let (left, right) = cut_at(b' ', line)?;
    let first = number_under(one, left)?;
    let second = number_under(other, right)?;
    Some((first, second))
}

/// The session of a line: its part, one of so many, and its pid.
#[tactic(auto, unfolding(crate::specs::Listing::session_of_words))]
fn session_in(alloc: Global, parts: usize, line: &[u8]) -> Result<ListedSession, ListingFault>
    ensures { Gives (λ s. s) result (session_in parts line.now) }
{
    let Some((number, pid)) = cut_at(b' ', line) else {
        return Err(ListingFault::NoListing);
    };
    let Some(number) = number_in(number) else {
        return Err(ListingFault::NoListing);
    };
    if number < 1 || parts < number {
        return Err(ListingFault::NoPart);
    }
    let Some(pid) = pid_in(pid) else {
        return Err(ListingFault::NoPid);
    };
    let pid = Text::new(alloc, pid)?;
    Ok(ListedSession {
        part: number - 1,
        pid,
    })
}

/// The sessions of the lines.
fn sessions_in(
    alloc: Global,
    parts: usize,
    lines: &[LentBytes<'_>],
) -> Result<Vec<ListedSession>, ListingFault>
    ensures reads { Gives (λ all. all.items) result (sessions_in parts lines.now) }
    ensures within { IfOk result (λ all. IsTrue (list_all (is_within parts) all.items)) }
{
    let mut sessions = Vec::new(alloc);
    for line in lines {
        let session = session_in(alloc, parts, line.as_slice())?;
        let Ok(()) = sessions.push(session) else {
            return Err(ListingFault::Memory);
        };
    }
    Ok(sessions)
}

/// Whether no session has the pid of one before it.
fn are_new(alloc: Global, keys: RandomState, sessions: &[ListedSession]) -> Result<bool, AllocError>
    ensures { IfOk result (λ answer. answer ≡ are_new [] sessions.now) }
{
    let mut seen = Places::new(alloc, keys);
    for session in sessions {
        let before = seen.len();
        seen.note(0, session.pid.as_str())?;
        if seen.len() == before {
            return Ok(false);
        }
    }
    Ok(true)
}

/// Whether each part has a session, or there is one part and no session.
fn is_full(alloc: Global, listing: &Listing) -> Result<bool, AllocError>
    requires { IsTrue (are_within listing.now) }
    ensures { IfOk result (λ answer. answer ≡ is_full listing.now) }
{
    if listing.parts == 1 && listing.sessions.as_slice().is_empty() {
        return Ok(true);
    }
    if listing.parts > listing.sessions.as_slice().len() {
        return Ok(false);
    }
    for pids in &pids_by_part(alloc, listing)? {
        if pids.is_empty() {
            return Ok(false);
        }
    }
    Ok(true)
}

/// The listing of the lines, if it has as many sessions as the first of them says, no pid twice and no empty part.
#[tactic(auto, unfolding(crate::specs::Listing::listing_after, crate::specs::Listing::checked))]
fn listing_in(
    alloc: Global,
    keys: RandomState,
    lines: &[LentBytes<'_>],
) -> Result<Listing, ListingFault>
    ensures { Gives (λ l. l) result (listing_in lines.now) }
{
    let Some((first, rest)) = lines.split_first() else {
        return Err(ListingFault::NoListing);
    };
    let first = first.as_slice();
    let Some((parts, count)) = numbers_under(b"parts=", b"sessions=", first) else {
        return Err(ListingFault::NoListing);
    };
    let sessions = sessions_in(alloc, parts, rest)?;
    let listing = Listing {
        parts,
        sessions: Listed::new(sessions),
    };
    if listing.sessions.as_slice().len() != count {
        return Err(ListingFault::CutShort);
    }
    if !are_new(alloc, keys, listing.sessions.as_slice())? {
        return Err(ListingFault::PidTwice);
    }
    if !is_full(alloc, &listing)? {
        return Err(ListingFault::EmptyPart);
    }
    Ok(listing)
}

/// The listing that a text is, as [`listing_text`](crate::listing_text) writes it. Pids are copied, and hashed with
/// these keys. `Memory` may come in place of each other refusal.
pub fn read_listing(alloc: Global, keys: RandomState, text: &[u8]) -> Result<Listing, ListingFault>
    ensures reads { Gives (λ listing. listing) result (listing_of text.now) }
    ensures sound { IfOk result (λ listing. IsTrue (is_listing listing)) }
    ensures within { IfOk result (λ listing. IsTrue (are_within listing)) }
{
    match whole_lines(alloc, text)? {
        Some(lines) => listing_in(alloc, keys, &lines),
        None if text.starts_with(b"parts=") => Err(ListingFault::CutShort),
        None => Err(ListingFault::NoListing),
    }
}

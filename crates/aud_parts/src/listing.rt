//! Which part has which session, and the text of it.
pub mod by_part;
pub mod fault;
pub mod reading;

ghost use Rattle.std.specs.Prelude.{◌≡◌, ◌<◌, length, map, true, IfOk, IsTrue, Ok, string_bytes};
ghost use Rattle.std.specs.List.{All};
ghost use Rattle.aud_parts.specs.Listing.{are_within, is_listing, listing_of, listing_text};

use crate::plan::Plan;
use aud_base::Listed;
use aud_tap::Text;
use std::alloc::{AllocError, Global};

/// A session of the report on the whole, and the part that has it.
#[derive(Drop)]
pub struct ListedSession {
    /// The number of the part. Parts count from 0; in texts and in the names of files from 1.
    pub part: usize,
    pub pid: Text,
}

/// Which part has which session.
#[derive(Drop)]
pub struct Listing {
    /// How many parts there are.
    pub parts: usize,
    /// The sessions, in the order of the report on the whole.
    pub sessions: Listed<ListedSession>,
}

/// The text of a listing: a line `parts=<number> sessions=<number>`, and for each session, in their order, a line
/// `<part> <pid>`. [`read_listing`](crate::read_listing) reads it.
pub fn listing_text(alloc: Global, listing: &Listing) -> Result<String, AllocError>
    requires { IsTrue (are_within listing.now) }
    ensures written { IfOk result (λ text. string_bytes text ≡ listing_text listing.now) }
    ensures reads_back { IfOk result (λ text. is_listing listing.now ≡ true
        → listing_of (string_bytes text) ≡ Ok listing.now) }
{
    let mut out = String::new(alloc);
    let parts = listing.parts;
    let sessions = listing.sessions.as_slice();
    let count = sessions.len();
    writeln!(&mut out, "parts={parts} sessions={count}")?;
    for session in sessions {
        let number = session.part + 1;
        let pid = session.pid.as_str();
        writeln!(&mut out, "{number} {pid}")?;
    }
    Ok(out)
}

/// Which part has which session, by this plan.
pub fn listing_of_plan(alloc: Global, plan: &Plan) -> Result<Listing, AllocError>
    requires each { length plan.now.parts.items ≡ length plan.now.sessions }
    requires within { All (λ part. part < length plan.now.weights.items) plan.now.parts.items }
    ensures within { IfOk result (λ listing. IsTrue (are_within listing)) }
    ensures parts { IfOk result (λ listing. listing.parts ≡ length plan.now.weights.items) }
    ensures pids { IfOk result (λ listing. map (λ session. session.pid) listing.sessions
        ≡ plan.now.sessions) }
    ensures each { IfOk result (λ listing. map (λ session. session.part) listing.sessions
        ≡ plan.now.parts.items) }
{
    let mut sessions = Vec::new(alloc);
    for number in 0..plan.sessions.len() {
        let pid = Text::new(alloc, plan.sessions.pid(number))?;
        let part = plan.parts[number];
        sessions.push(ListedSession { part, pid })?;
    }
    Ok(Listing {
        parts: plan.weights.len(),
        sessions: Listed::new(sessions),
    })
}

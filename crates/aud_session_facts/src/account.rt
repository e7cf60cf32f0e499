//! What a client received of a session, and what was due to it.
ghost use Rattle.std.specs.Prelude.{◌≡◌, IfOk, MatchOption, Some, map, slice_get};
ghost use Rattle.aud_cert.specs.declared.fault.Fault.{Fault};
ghost use Rattle.std.specs.List.{All};
ghost use Rattle.aud_client.specs.Replies.{naming_places};
ghost use Rattle.aud_client.specs.StaySeen.{TellsAltered};
ghost use Rattle.aud_maker.specs.Faults.{HasMakeFault};
ghost use Rattle.aud_maker.specs.Made.{IsMade};
ghost use Rattle.aud_check.specs.Difference.{IsAscending};
ghost use Rattle.aud_check.specs.Faults.{IsReceived};
ghost use Rattle.aud_check.specs.Findings.{IsFirstFinding, by_stays};
ghost use Rattle.aud_session_facts.specs.Account.{IsAccount, IsAccountOf, IsFound, difference_found, found_for, is_as};

use crate::due::due_by_turns;
use aud_cert::{Certificate, Fault};
use aud_check::{Difference, Finding, first_finding, frames_in};
use aud_client::{IndexedTranscript, Recording, Stay, stays_tell_altered};
use aud_maker::{MakeFault, make};
use aud_node::Stream;
use std::alloc::{AllocError, Global};

/// What a client received of a session, and what was due to it.
#[derive(Drop)]
pub struct Account<'r, 'a> {
    /// The certificate of all turns of the session.
    pub cert: Certificate<'a>,
    /// The place of the one client tap with a reply that names the session; places count from 0, in the order of the
    /// headers.
    pub client: usize,
    /// The stays of that tap whose reply names the session, in the tap's order, borrowed. Their frames are what was
    /// received.
    pub stays: Vec<&'r Stay<'a>>,
    /// The positions that were due to the session by its turns, ascending. They count from 1.
    pub due: Vec<u64>,
    /// What is wrong first with what was received; none where nothing is.
    pub found: Option<Finding>,
}

impl Account<'_, '_> {
    /// Where what was received first parts from what was due, if that is what is wrong first.
    pub fn difference(&self) -> Option<Difference>
        ensures { result ≡ difference_found self.now.found }
    {
        match self.found {
            Some(Finding::Delivery(difference)) => Some(difference),
            _ => None,
        }
    }

    /// What was found, if the fault is one of that kind: of `CONTENT`, of `EXTRA`, `DOUBLED`, `SWAPPED` and `LOST`, or of
    /// `WINDOW`.
    pub fn found_for(&self, fault: &Fault) -> Option<Finding>
        ensures { result ≡ found_for fault.now self.now.found }
    {
        match self.found {
            Some(found) if is_as(found, fault) => Some(found),
            _ => None,
        }
    }
}

/// Whether it is such a fault as the finding.
fn is_as(found: Finding, fault: &Fault) -> bool
    ensures { result ≡ is_as found fault.now }
{
    match found {
        Finding::Frame | Finding::Orphan => false,
        Finding::Content(_) => matches!(fault, Fault::Content(_)),
        Finding::Delivery(_) => matches!(
            fault,
            Fault::Extra(_) | Fault::Doubled(_) | Fault::Swapped(_) | Fault::Lost(_)
        ),
        Finding::Window(_) => matches!(fault, Fault::Window(_)),
    }
}

/// The account of the session with this pid; none where it has one of the faults `NoLog`, `Chain`, `Order` and
/// `Client`, so that its turns or its client are not known. It costs the session's own records and stays, and what is
/// due to it.
pub fn account_of<'r, 'a>(
    alloc: Global,
    recording: &'r Recording<'a>,
    pid: &str,
) -> Result<Option<Account<'r, 'a>>, AllocError>
    ensures { IfOk result (λ found. MatchOption found
        ((fault : Fault) × HasMakeFault recording.now pid.now fault)
        (IsAccountOf recording.now pid.now)) }
{
    let cert = match make(alloc, recording, pid) {
        Ok(cert) => cert,
        Err(MakeFault::Fault(_)) => return Ok(None),
        Err(MakeFault::Memory) => return Err(AllocError),
    };
    let account = made_account(alloc, recording, cert)?;
    Ok(Some(account))
}

/// The account of the session for which the certificate was made.
fn made_account<'r, 'a>(
    alloc: Global,
    recording: &'r Recording<'a>,
    cert: Certificate<'a>,
) -> Result<Account<'r, 'a>, AllocError>
    requires { IsMade recording.now cert.pid cert }
    ensures cert { IfOk result (λ a. a.cert ≡ cert.entry) }
    ensures account { IfOk result (λ a. IsAccount recording.now cert.entry.pid a.client
        (map (λ stay. stay.now) a.stays.items) a.due.items) }
    ensures found { IfOk result (λ a. IsFound recording.now a.client
        (map (λ stay. stay.now) a.stays.items) a.due.items a.found) }
{
    let due = due_by_turns(alloc, recording, &cert)?;
    let Some(client) = first_naming(recording, cert.pid.as_str()) else {
        unreachable!()
    };
    let Some(tap) = recording.client(client) else {
        unreachable!()
    };
    stays_tell_altered();
    let stays = tap.naming(alloc, cert.pid.as_str())?;
    let stream = recording.logs().stream();
    let found = found_in(alloc, stream, tap, stays.as_slice(), due.as_slice())?;
    Ok(Account {
        cert,
        client,
        stays,
        due,
        found,
    })
}

/// The place of the first client tap with a reply that names the session.
fn first_naming(recording: &Recording<'_>, pid: &str) -> Option<usize>
    ensures { result ≡ slice_get (naming_places recording.now.taps pid.now) 0 }
{
    recording.naming(pid).first().copied()
}

/// What is wrong first with what these stays of the tap received, where these positions were due.
fn found_in(
    alloc: Global,
    stream: &Stream<'_>,
    tap: &IndexedTranscript<'_>,
    stays: &[&Stay<'_>],
    due: &[u64],
) -> Result<Option<Finding>, AllocError>
    requires altered { All (TellsAltered stream.now) (map (λ stay. stay.now) stays.now) }
    requires ascending { IsAscending due.now }
    ensures { IfOk result (λ found. MatchOption found
        (IsReceived (by_stays stream.now tap.now (map (λ stay. stay.now) stays.now) due.now))
        (IsFirstFinding (by_stays stream.now tap.now (map (λ stay. stay.now) stays.now)
        due.now))) }
{
    let frames = frames_in(alloc, stays)?;
    first_finding(
        alloc,
        stream,
        tap.transcript(),
        stays,
        frames.as_slice(),
        due,
    )
}

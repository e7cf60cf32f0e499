//! Sessions with the same fault at the same record.
ghost use Rattle.std.specs.Prelude.{◌≡◌, ◌++◌, IfOk, OnOk, map, option_map, string_bytes};
ghost use Rattle.std.specs.Option.{option_copied};
ghost use Rattle.aud_base.specs.Places.{places_of};
ghost use Rattle.aud_node.specs.Cluster.{Cluster};
ghost use Rattle.aud_node.specs.Stream.{Text};
ghost use Rattle.aud_findings.specs.Prepared.{IsPreparedOf};
ghost use Rattle.aud_explain_app.specs.Alike.{alone, numbers_at, pids_at, records_of, shared_records, tap_name, taps_of, telling_of, tellings, told_by, told_once};
ghost use Rattle.aud_explain_app.specs.Asked.{AreAsked};

use crate::asked::Asked;
use crate::events::only_client;
use aud_base::Places;
use aud_cert::{Fault, fault_word};
use aud_client::Recording;
use aud_findings::{Prepared, unordered_of};
use aud_tap::{Tap, Text};
use aud_verdict::{SessionVerdict, Verdict};
use std::alloc::{AllocError, Global};
use std::hash::RandomState;

/// A session that is explained, and those that its explanation names. Both are borrowed from the sessions.
#[derive(Drop)]
pub struct Told<'s> {
    pub session: &'s SessionVerdict,
    /// The pids of the later ones with the same fault at the same record.
    pub alike: Vec<&'s str>,
}

/// What is told of the sessions that are shown: those with the same fault at the same records once, or each, where
/// these pids name them. Records are looked up by these keys.
pub(crate) fn tellings<'s>(
    recording: &Recording<'_>,
    alloc: Global,
    keys: RandomState,
    prepared: &Prepared,
    asked: &Asked,
    pids: &[Text],
    sessions: &[&'s SessionVerdict],
) -> Result<Vec<Told<'s>>, AllocError>
    requires prepared { IsPreparedOf recording.now prepared.now }
    requires asked { AreAsked recording.now asked.now }
    ensures { IfOk result (λ told. map telling_of told.items
        ≡ tellings recording.now pids.now (map (λ s. s.now) sessions.now)) }
{
    if pids.is_empty() {
        return told_once(recording, alloc, keys, prepared, asked, sessions);
    }
    let mut told = Vec::new(alloc);
    for session in sessions {
        told.push(alone(alloc, *session))?;
    }
    Ok(told)
}

/// The session, which names nobody.
fn alone<'s>(alloc: Global, session: &'s SessionVerdict) -> Told<'s>
    ensures { telling_of result ≡ alone session.now }
{
    Told {
        session,
        alike: Vec::new(alloc),
    }
}

/// Of the sessions those that share records once: the first, which names the others.
fn told_once<'s>(
    recording: &Recording<'_>,
    alloc: Global,
    keys: RandomState,
    prepared: &Prepared,
    asked: &Asked,
    sessions: &[&'s SessionVerdict],
) -> Result<Vec<Told<'s>>, AllocError>
    requires prepared { IsPreparedOf recording.now prepared.now }
    requires asked { AreAsked recording.now asked.now }
    ensures { IfOk result (λ told. map telling_of told.items
        ≡ told_once recording.now (map (λ s. s.now) sessions.now)) }
{
    let index = by_record(recording, alloc, keys, prepared, asked, sessions)?;
    let mut told = Vec::new(alloc);
    for (number, session) in sessions.iter().enumerate() {
        let at = shared_records(recording, alloc, prepared, asked, *session)?;
        push_told(
            &mut told,
            alloc,
            &index,
            sessions,
            number,
            *session,
            at.as_deref(),
        )?;
    }
    Ok(told)
}

/// The numbers of the sessions by the records that they share.
fn by_record(
    recording: &Recording<'_>,
    alloc: Global,
    keys: RandomState,
    prepared: &Prepared,
    asked: &Asked,
    sessions: &[&SessionVerdict],
) -> Result<Places, AllocError>
    requires prepared { IsPreparedOf recording.now prepared.now }
    requires asked { AreAsked recording.now asked.now }
    ensures { IfOk result (λ index. (spot : Text)
        → places_of index spot ≡ numbers_at recording.now (map (λ s. s.now) sessions.now) spot) }
{
    let mut index = Places::new(alloc, keys);
    for (number, session) in sessions.iter().enumerate() {
        let at = shared_records(recording, alloc, prepared, asked, *session)?;
        if let Some(records) = at.as_deref() {
            index.note(number, records)?;
        }
    }
    Ok(index)
}

/// Adds what is told of the session with this number, with these records, by the numbers of those that share
/// them: the first of these names the others.
fn push_told<'s>(
    told: &mut Vec<Told<'s>>,
    alloc: Global,
    index: &Places,
    sessions: &[&'s SessionVerdict],
    number: usize,
    session: &'s SessionVerdict,
    at: Option<&str>,
) -> Result<(), AllocError>
    ensures { (c : Cluster)
        → ((spot : Text) → places_of index.now spot
        ≡ numbers_at c (map (λ s. s.now) sessions.now) spot)
        → OnOk result (map telling_of told.new.items
        ≡ map telling_of told.old.items
        ++ told_by c (map (λ s. s.now) sessions.now) number session.now
        (option_copied at.entry)) }
{
    match at {
        Some(at) => match index.of(at) {
            [first, others @ ..] if *first == number => {
                let alike = pids_at(alloc, sessions, others)?;
                Ok(told.push(Told { session, alike })?)
            }
            _ => Ok(()),
        },
        None => Ok(told.push(alone(alloc, session))?),
    }
}

/// The pids of the sessions with these numbers.
fn pids_at<'s>(
    alloc: Global,
    sessions: &[&'s SessionVerdict],
    numbers: &[usize],
) -> Result<Vec<&'s str>, AllocError>
    ensures { IfOk result (λ pids. map (λ pid. pid.now) pids.items
        ≡ pids_at (map (λ s. s.now) sessions.now) numbers.now) }
{
    let mut pids = Vec::new(alloc);
    for number in numbers {
        if let Some(session) = sessions.get(*number) {
            pids.push(session.pid.as_str())?;
        }
    }
    Ok(pids)
}

/// The records that the session may share with others.
fn shared_records(
    recording: &Recording<'_>,
    alloc: Global,
    prepared: &Prepared,
    asked: &Asked,
    session: &SessionVerdict,
) -> Result<Option<String>, AllocError>
    requires prepared { IsPreparedOf recording.now prepared.now }
    requires asked { AreAsked recording.now asked.now }
    ensures { IfOk result (λ at. option_map string_bytes at
        ≡ shared_records recording.now session.now) }
{
    let pid = session.pid.as_str();
    if asked.is_refused(pid) {
        return Ok(None);
    }
    match &session.verdict {
        Verdict::Yes { .. } => Ok(None),
        Verdict::No(fault) => {
            let places = taps_of(recording, alloc, prepared, pid, fault)?;
            records_of(alloc, recording.logs().taps(), fault, places.as_slice())
        }
    }
}

/// The records, by the fault and the taps at these places.
fn records_of(
    alloc: Global,
    taps: &[Tap],
    fault: &Fault,
    places: &[usize],
) -> Result<Option<String>, AllocError>
    ensures { IfOk result (λ at. option_map string_bytes at
        ≡ records_of fault.now taps.now places.now) }
{
    if places.is_empty() {
        return Ok(None);
    }
    let mut name = String::new(alloc);
    name.push_str(fault_word(fault))?;
    for place in places {
        push_tap(&mut name, taps.get(*place))?;
    }
    Ok(Some(name))
}

/// Puts the name of the tap at the end, behind a blank.
fn push_tap(name: &mut String, tap: Option<&Tap>) -> Result<(), AllocError>
    ensures { OnOk result (string_bytes name.new
        ≡ string_bytes name.old ++ tap_name (option_copied tap.entry)) }
{
    match tap {
        Some(tap) => {
            name.push_str(" ")?;
            name.push_str(tap.name.as_str())
        }
        None => Ok(()),
    }
}

/// The places of the taps whose first records of the fault show it.
fn taps_of(
    recording: &Recording<'_>,
    alloc: Global,
    prepared: &Prepared,
    pid: &str,
    fault: &Fault,
) -> Result<Vec<usize>, AllocError>
    requires { IsPreparedOf recording.now prepared.now }
    ensures { IfOk result (λ places. places.items ≡ taps_of recording.now pid.now fault.now) }
{
    match fault {
        Fault::Order => {
            let found = unordered_of(alloc, recording.logs(), prepared, pid)?;
            let mut nodes = Vec::new(alloc);
            for at in &found {
                nodes.push(at.node)?;
            }
            Ok(nodes)
        }
        Fault::Frame | Fault::Orphan => only_client(recording, pid).into_iter().collect(alloc),
        _ => Ok(Vec::new(alloc)),
    }
}

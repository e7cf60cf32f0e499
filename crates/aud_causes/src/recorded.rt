//! What a fault of the recording may come from: one for which the session has no certificate; of the nodes' logs.
ghost use Rattle.std.specs.Prelude.{◌≡◌, IfOk, ◌<◌, length, map, suc};
ghost use Rattle.std.specs.List.{list_any};
ghost use Rattle.aud_causes.specs.Recorded.{AreRecordedCauses, first_on, first_own, has_first_turn, is_node, is_of_first_turn, no_log_causes, open_not_recorded, order_causes};
ghost use Rattle.aud_node.specs.Cursors.{cursor_at};
ghost use Rattle.aud_causes.specs.Logs.{first_cause, later_cause, order_cause, recoveries, taken_again};
ghost use Rattle.std.specs.Option.{option_copied};
ghost use Rattle.aud_causes.specs.NamedEntries.{is_in_log, is_named, is_named_at, names_entry};

use crate::cause::Cause;
use crate::facts::is_recovery;
use crate::list::{held, push_some};
use crate::names::client_causes;
use crate::turns::chain_causes;
use aud_cert::Fault;
use aud_client::{Recording, Stay};
use aud_node::{Logs, NodeLog, Stream};
use aud_session_facts::RecordPlace;
use aud_tap::{NodeRec, Records, Tap};
use std::alloc::{AllocError, Global};

/// The causes of such a fault of the session with this pid, whose one client's tap is at this place, if it has one,
/// where these records of its nodes are out of order.
pub(crate) fn recorded_causes(
    alloc: Global,
    recording: &Recording<'_>,
    client: Option<usize>,
    pid: &str,
    fault: &Fault,
    unordered: &[RecordPlace],
) -> Result<Vec<Cause>, AllocError>
    ensures { IfOk result (λ found.
        AreRecordedCauses recording.now client pid.now unordered.now fault.now found.items) }
{
    match fault {
        Fault::NoLog => no_log_causes(alloc, recording.logs(), pid),
        Fault::Chain => chain_causes(alloc, recording, client, pid),
        Fault::Order => order_causes(alloc, recording.logs(), unordered),
        Fault::Client => client_causes(alloc, recording, pid),
        _ => Ok(Vec::new(alloc)),
    }
}

/// The causes of a session that no node opened: its `open` alone is missing; or its node isn't tapped. Where no log has a
/// record of it, it costs the taps up to the first node's.
fn no_log_causes(alloc: Global, logs: &Logs<'_>, pid: &str) -> Result<Vec<Cause>, AllocError>
    ensures { IfOk result (λ found. found.items ≡ no_log_causes logs.now pid.now) }
{
    let open = open_not_recorded(logs, first_own(logs, pid));
    let tapped = has_first_turn(logs, pid, logs.nodes_of(pid));
    held(alloc, &[open, (!tapped).then_some(Cause::NodeNotTapped(0))])
}

/// Where this is the session's first record on a node; or where it has none, and a node is tapped.
fn open_not_recorded(logs: &Logs<'_>, first: Option<RecordPlace>) -> Option<Cause>
    ensures { result ≡ open_not_recorded logs.now first }
{
    match first {
        Some(first) => Some(Cause::OpenNotRecorded(Some(first))),
        None if has_node(logs.taps()) => Some(Cause::OpenNotRecorded(None)),
        None => None,
    }
}

/// Whether one of the taps is a node's.
fn has_node(taps: &[Tap]) -> bool
    ensures { result ≡ list_any is_node taps.now }
{
    taps.iter()
        .any(|tap| matches!(tap.records, Records::Node(_)))
}

/// Whether the session's first record on one of these nodes is of its turn 0.
fn has_first_turn(logs: &Logs<'_>, pid: &str, nodes: &[usize]) -> bool
    ensures { result ≡ has_first_turn logs.now pid.now nodes.now }
{
    for node in nodes {
        if is_of_first_turn(logs, pid, *node) {
            return true;
        }
    }
    false
}

/// Whether the session's first record in the log of this node is of its turn 0.
fn is_of_first_turn(logs: &Logs<'_>, pid: &str, node: usize) -> bool
    ensures { result ≡ is_of_first_turn (first_on logs.now pid.now node) }
{
    let Some(log) = logs.node(node) else {
        return false;
    };
    let Some(number) = log.own(pid).first() else {
        return false;
    };
    match log.recs().get(*number) {
        None | Some(NodeRec::Back { .. }) => false,
        Some(NodeRec::Broke { turn, .. }) => *turn == 0,
        Some(_) => true,
    }
}

/// The session's first record on the first node that has any.
fn first_own(logs: &Logs<'_>, pid: &str) -> Option<RecordPlace>
    ensures { result ≡ first_own logs.now pid.now }
{
    let node = *logs.nodes_of(pid).first()?;
    let number = *logs.node(node)?.own(pid).first()?;
    Some(RecordPlace { node, number })
}

/// The causes for which these records of nodes are out of order.
fn order_causes(
    alloc: Global,
    logs: &Logs<'_>,
    unordered: &[RecordPlace],
) -> Result<Vec<Cause>, AllocError>
    ensures { IfOk result (λ found. found.items ≡ order_causes logs.now unordered.now) }
{
    let mut found = Vec::new(alloc);
    for place in unordered {
        push_some(&mut found, order_cause(logs, *place))?;
    }
    Ok(found)
}

/// The numbers of the stays by which the client came back: the recoveries follow the turns in their order.
pub(crate) fn recoveries(alloc: Global, stays: &[&Stay<'_>]) -> Result<Vec<usize>, AllocError>
    ensures { IfOk result (λ came. came.items ≡ recoveries (map (λ stay. stay.now) stays.now)) }
{
    let mut came = Vec::new(alloc);
    for number in 0..stays.len() {
        push_some(&mut came, is_recovery(stays, number).then_some(number))?;
    }
    Ok(came)
}

/// The cause for which this record of a node is out of order.
pub(crate) fn order_cause(logs: &Logs<'_>, place: RecordPlace) -> Option<Cause>
    ensures { result ≡ order_cause logs.now place }
{
    let log = logs.node(place.node)?;
    let rec = log.recs().get(place.number)?;
    if place.number == 0 {
        return first_cause(logs.stream(), place, rec);
    }
    later_cause(logs.stream(), place, cursor_before(log, place.number), rec)
}

/// The node's cursor before the record with this number.
fn cursor_before(log: &NodeLog<'_>, number: usize) -> u64
    requires { number < length log.now.recs }
    ensures { result ≡ cursor_at log.now.stream log.now.recs number }
{
    if number == 0 {
        return 0;
    }
    cursor_after(log, number - 1)
}

/// The node's cursor after the record with this number.
fn cursor_after(log: &NodeLog<'_>, number: usize) -> u64
    requires { number < length log.now.recs }
    ensures { result ≡ cursor_at log.now.stream log.now.recs (suc number) }
{
    log.cursor_after(number).unwrap_or(0)
}

/// Of a log's first record: it is no `start`, or one after an entry that the stream doesn't have.
fn first_cause(stream: &Stream<'_>, place: RecordPlace, rec: &NodeRec) -> Option<Cause>
    ensures { result ≡ first_cause stream.now place rec.now }
{
    let NodeRec::Start { off } = rec else {
        return Some(Cause::NoStart(place));
    };
    match stream.position(off.as_ref()?.as_str()) {
        Some(_) => None,
        None => Some(Cause::NotInStream(place)),
    }
}

/// Of a later record, where the node has this cursor before it: it is a `start`, or a `take` or `takes` out of order.
fn later_cause(stream: &Stream<'_>, place: RecordPlace, cursor: u64, rec: &NodeRec) -> Option<Cause>
    ensures { result ≡ later_cause stream.now place cursor rec.now }
{
    match rec {
        NodeRec::Start { .. } => Some(Cause::RestartedInOldLog(place)),
        NodeRec::Take { off } => match stream.position(off.as_str()) {
            Some(position) if position > cursor && position - cursor > 1 => {
                Some(Cause::EntriesSkippedByNode {
                    taken: place,
                    cursor,
                    position,
                })
            }
            Some(position) => taken_again(place, cursor, position),
            None => Some(Cause::NotInStream(place)),
        },
        NodeRec::Takes { off } => match stream.position(off.as_str()) {
            Some(position) => taken_again(place, cursor, position),
            None => Some(Cause::NotInStream(place)),
        },
        _ => None,
    }
}

/// Where the node has taken the entry.
fn taken_again(place: RecordPlace, cursor: u64, position: u64) -> Option<Cause>
    ensures { result ≡ taken_again place cursor position }
{
    if cursor < position {
        return None;
    }
    Some(Cause::EntryTakenAgain {
        taken: place,
        cursor,
        position,
    })
}

/// Whether a node's log that is out of order takes the entry of this offset, or starts after it. It costs the records of
/// these logs.
pub(crate) fn is_named(logs: &Logs<'_>, off: &str) -> bool
    ensures { result ≡ is_named logs.now off.now }
{
    let mut named = false;
    for place in 0..logs.taps().len() {
        named |= is_named_at(logs, off, place);
    }
    named
}

/// The same of the log of the node at this place, if one is there.
fn is_named_at(logs: &Logs<'_>, off: &str, place: usize) -> bool
    ensures { result ≡ is_named_at logs.now off.now place }
{
    match logs.node(place) {
        Some(log) => !log.ordered() && is_in_log(log, off),
        None => false,
    }
}

/// Whether a record of the log names the entry.
fn is_in_log(log: &NodeLog<'_>, off: &str) -> bool
    ensures { result ≡ is_in_log off.now log.now.recs }
{
    let recs = log.recs();
    let mut named = false;
    for number in 0..recs.len() {
        named |= names_entry(recs.get(number), off);
    }
    named
}

/// Whether the record takes the entry, or starts after it.
fn names_entry(rec: Option<&NodeRec>, off: &str) -> bool
    ensures { result ≡ names_entry off.now (option_copied rec.entry) }
{
    match rec {
        Some(NodeRec::Start { off: Some(after) }) => off == after.as_str(),
        Some(NodeRec::Take { off: taken }) => off == taken.as_str(),
        Some(NodeRec::Takes { off: taken }) => off == taken.as_str(),
        _ => false,
    }
}

//! What shows that a node on which a session was is out of order.
ghost use Rattle.std.specs.Prelude.{◌≡◌, IfOk, IfSome, MatchOption, is_some, map, suc};
ghost use Rattle.aud_node.specs.Cluster.{node_log};
ghost use Rattle.aud_node.specs.Cursors.{is_position, position_if_past};
ghost use Rattle.aud_node.specs.Ordered.{is_in_order};
ghost use Rattle.aud_node.specs.OwnPlaces.{own_places};
ghost use Rattle.aud_node.specs.Stream.{position};
ghost use Rattle.aud_rows.specs.Seen.{row_seen};
ghost use Rattle.aud_session_facts.specs.RowLists.{AreTrueRows};
ghost use Rattle.aud_findings.specs.Order.{AreInOrder, IsFirstOutOfOrder};
ghost use Rattle.aud_findings.specs.Prepared.{IsOrderRead, IsPreparedOf};
ghost use Rattle.aud_findings.specs.ShowsOrder.{AreOrdered, AreOutOfOrder, ShowsOrder, order_records};

use crate::prepared::{Prepared, PreparedTap};
use aud_node::{Logs, NodeLog, Stream};
use aud_rows::{Role, Row, Sheet};
use aud_session_facts::{NodeRecord, RecordPlace, node_rows};
use aud_tap::NodeRec;
use std::alloc::{AllocError, Global};

/// The rows of the first record out of order of a node that has records of the session, the first such node in the
/// order of the taps, and of the record before; none where the logs of all those nodes are in order. A log whose order
/// wasn't prepared is gone through.
pub fn order_shown<'r>(
    alloc: Global,
    sheet: &Sheet<'r, '_>,
    prepared: &Prepared,
    pid: &str,
) -> Result<Option<Vec<Row<'r>>>, AllocError>
    requires { IsPreparedOf sheet.now.recording.now prepared.now }
    ensures shown { IfOk result (λ found. MatchOption found
        (AreOrdered sheet.now.recording.now pid.now)
        (λ rows. ShowsOrder sheet.now.recording.now sheet.now.lines.now pid.now
        (map row_seen rows.items))) }
    ensures truth { IfOk result (λ found. IfSome found
        (λ rows. AreTrueRows sheet.now.recording.now sheet.now.lines.now rows.items)) }
{
    let found = unordered_of(alloc, sheet.recording.logs(), prepared, pid)?;
    match found.first().copied() {
        Some(at) => {
            let records = order_records(alloc, at)?;
            Ok(Some(node_rows(alloc, sheet, &records)?))
        }
        None => Ok(None),
    }
}

/// The record before that at the place, if there is one, which tells the cursor, and that one, which is out of order.
fn order_records(alloc: Global, at: RecordPlace) -> Result<Vec<NodeRecord>, AllocError>
    ensures { IfOk result (λ records. records.items ≡ order_records at.node at.number) }
{
    let mut records = Vec::new(alloc);
    if at.number > 0 {
        records.push(NodeRecord {
            place: RecordPlace {
                node: at.node,
                number: at.number - 1,
            },
            role: Role::Earlier,
        })?;
    }
    records.push(NodeRecord {
        place: at,
        role: Role::Fault,
    })?;
    Ok(records)
}

/// Of the nodes that have records of the session, in the order of the taps, those whose logs are out of order, each with
/// the first record that is. A log whose order wasn't prepared is gone through.
pub fn unordered_of(
    alloc: Global,
    logs: &Logs<'_>,
    prepared: &Prepared,
    pid: &str,
) -> Result<Vec<RecordPlace>, AllocError>
    requires { IsPreparedOf logs.now prepared.now }
    ensures { IfOk result (λ found.
        AreOutOfOrder logs.now (own_places logs.now pid.now) found.items) }
{
    let mut found = Vec::new(alloc);
    for node in logs.nodes_of(pid) {
        if let Some(number) = unordered_at(logs, prepared, *node) {
            found.push(RecordPlace {
                node: *node,
                number,
            })?;
        }
    }
    Ok(found)
}

/// The number of the first record out of order of the node at this place.
fn unordered_at(logs: &Logs<'_>, prepared: &Prepared, node: usize) -> Option<usize>
    requires { IsPreparedOf logs.now prepared.now }
    ensures { IsOrderRead logs.now node result }
{
    match prepared.taps.get(node) {
        Some(PreparedTap::Order { unordered }) => *unordered,
        _ => first_unordered(logs, node),
    }
}

/// The number of the first record out of order in the log of the node at this place: a first record that is no `start`
/// of the stream's begin or of one of its entries; a later `start`; a `take` that isn't of the position after the
/// cursor; or a `takes` that isn't of one past it. Records count from 0; none where all are in order, or the tap there
/// is no node's.
pub(crate) fn first_unordered(logs: &Logs<'_>, node: usize) -> Option<usize>
    ensures { MatchOption result (AreInOrder logs.now.stream (node_log logs.now node))
        (IsFirstOutOfOrder logs.now.stream (node_log logs.now node)) }
{
    match logs.node(node) {
        Some(log) => first_out_of_order(log, logs.stream()),
        None => None,
    }
}

/// The same of a log, whose node takes from this stream.
fn first_out_of_order(log: &NodeLog<'_>, stream: &Stream<'_>) -> Option<usize>
    requires { log.now.stream ≡ stream.now }
    ensures { MatchOption result (AreInOrder stream.now log.now.recs)
        (IsFirstOutOfOrder stream.now log.now.recs) }
{
    let recs = log.recs();
    let mut cursor = 0;
    for number in 0..recs.len() {
        let Some(rec) = recs.get(number) else {
            return Some(number);
        };
        if !is_in_order(stream, number, cursor, rec) {
            return Some(number);
        }
        cursor = log.cursor_after(number).unwrap_or(0);
    }
    None
}

/// Whether the entry of this offset stands past the cursor.
fn is_past(stream: &Stream<'_>, cursor: u64, off: &str) -> bool
    ensures { result ≡ is_some (position_if_past (position stream.now off.now) cursor) }
{
    match stream.position(off) {
        Some(position) => position > cursor,
        None => false,
    }
}

/// Whether the record with this number is in order after this cursor.
fn is_in_order(stream: &Stream<'_>, number: usize, cursor: u64, rec: &NodeRec) -> bool
    ensures { result ≡ is_in_order stream.now number cursor rec.now }
{
    match rec {
        NodeRec::Start { off: None } => number == 0,
        NodeRec::Start { off: Some(off) } => number == 0 && stream.position(off.as_str()).is_some(),
        NodeRec::Take { off } => number != 0 && is_next(stream, cursor, off.as_str()),
        NodeRec::Takes { off } => number != 0 && is_past(stream, cursor, off.as_str()),
        _ => number != 0,
    }
}

/// Whether the entry with this offset stands at the position after the cursor.
fn is_next(stream: &Stream<'_>, cursor: u64, off: &str) -> bool
    ensures { result ≡ is_position (position stream.now off.now) (suc cursor) }
{
    match stream.position(off) {
        Some(position) => position != 0 && position - 1 == cursor,
        None => false,
    }
}

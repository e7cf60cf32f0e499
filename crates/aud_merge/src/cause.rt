//! What can make a record allowed that isn't.
ghost use Rattle.std.specs.Prelude.{◌≡◌, option_map, slice_get};
ghost use Rattle.std.specs.Option.{option_copied};
ghost use Rattle.aud_node.specs.Cluster.{node_log};
ghost use Rattle.aud_merge.specs.Private.Causes.{awaited, awaited_by, cause_seen, told, told_by, told_entry};

use crate::step::Step;
use aud_node::Logs;
use aud_tap::{NodeRec, Records};

/// An entry is appended: its offset, and 0. Or a session may begin a turn: its pid, and the turn's number.
pub(crate) type Cause<'a> = (&'a str, u32);

/// What can make the record allowed; none where nothing can.
pub(crate) fn awaited<'a>(logs: &Logs<'a>, step: Step) -> Option<Cause<'a>>
    ensures { option_map cause_seen result ≡ awaited logs.now step }
{
    match node_record(logs, step) {
        Some(rec) => awaited_by(rec),
        None => None,
    }
}

/// What can make the node's record allowed; none where nothing can.
fn awaited_by(rec: &NodeRec) -> Option<Cause<'_>>
    ensures { option_map cause_seen result ≡ awaited_by rec.now }
{
    match rec {
        NodeRec::Start { off: Some(off) } => Some((off.as_str(), 0)),
        NodeRec::Take { off } | NodeRec::Takes { off } => Some((off.as_str(), 0)),
        NodeRec::Back { pid, turn } => Some((pid.as_str(), u32::from(*turn))),
        _ => None,
    }
}

/// What the step makes so, once it is taken; none where it can't make a record of another log allowed.
pub(crate) fn told<'a>(logs: &Logs<'a>, step: Step) -> Option<Cause<'a>>
    ensures { option_map cause_seen result ≡ told logs.now step }
{
    match node_record(logs, step) {
        Some(rec) => told_by(rec),
        None => told_entry(logs, step),
    }
}

/// What a node's record makes so.
fn told_by(rec: &NodeRec) -> Option<Cause<'_>>
    ensures { option_map cause_seen result ≡ told_by rec.now }
{
    match rec {
        NodeRec::Broke { pid, turn } => Some((pid.as_str(), u32::from(*turn) + 1)),
        _ => None,
    }
}

/// What a record of the stream makes so.
fn told_entry<'a>(logs: &Logs<'a>, step: Step) -> Option<Cause<'a>>
    ensures { option_map cause_seen result ≡ told_entry logs.now step }
{
    match logs.stream_place() {
        Some(place) if place == step.log => match logs.stream().entries().get(step.index) {
            Some(entry) => Some((entry.offset().as_str(), 0)),
            None => None,
        },
        _ => None,
    }
}

/// The record of the step, where its log is a node's.
fn node_record<'a>(logs: &Logs<'a>, step: Step) -> Option<&'a NodeRec>
    ensures { option_copied result ≡ slice_get (node_log logs.now step.log) step.index }
{
    let Some(tap) = logs.taps().get(step.log) else {
        return None;
    };
    match &tap.records {
        Records::Node(recs) => recs.get(step.index),
        _ => None,
    }
}

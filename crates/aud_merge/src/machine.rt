//! Which step is allowed, and what it does.
ghost use Rattle.std.specs.Prelude.{◌≡◌, ◌<◌, ◌+◌, ◌^◌, OnOk, OnErr, IsSome, Some, is_some, take, slice_get};
ghost use Rattle.aud_node.specs.Stream.{position};
ghost use Rattle.aud_merge.specs.Machine.{after, after_next, after_record, allowed_cursor};

use crate::progress::Progress;
use crate::state::State;
use crate::step::Step;
use aud_node::{Logs, Stream};
use aud_tap::{NodeRec, Records};
use std::alloc::AllocError;

/// Whether the step is allowed in the state.
pub fn allowed(state: &State, logs: &Logs, step: &Step) -> bool
    ensures { result ≡ is_some (after logs.now state.now step.now) }
{
    let Some(done) = state.progress(step.log) else {
        return false;
    };
    if done.taken != step.index {
        return false;
    }
    match logs.taps().get(step.log) {
        Some(tap) => next_allowed(state, logs, step.log, done, &tap.records),
        None => false,
    }
}

/// Whether the log, which has come so far, has a next record, and this is allowed.
fn next_allowed(state: &State, logs: &Logs, place: usize, done: Progress, log: &Records) -> bool
    ensures { result ≡ is_some (after_next logs.now state.now place done log.now) }
{
    match log {
        Records::Stream(recs) => done.taken < recs.len(),
        Records::Node(recs) => match recs.get(done.taken) {
            Some(rec) => record_allowed(state, logs, place, done, rec),
            None => false,
        },
        Records::Client(_) => false,
    }
}

/// Whether the next record of the node is allowed.
fn record_allowed(state: &State, logs: &Logs, node: usize, done: Progress, rec: &NodeRec) -> bool
    ensures { result ≡ is_some (after_record logs.now state.now node done rec.now) }
{
    let appended = state.appended(logs);
    allowed_cursor(logs.stream(), appended, rec, done).is_some() && state.allows(node, rec)
}

/// The cursor after the next record of a node that has come so far; none where it isn't allowed.
fn allowed_cursor(stream: &Stream, appended: usize, rec: &NodeRec, done: Progress) -> Option<u64>
    ensures { result ≡ allowed_cursor (take appended stream.now) done.taken rec.now done.cursor }
{
    match rec {
        NodeRec::Start { off: None } if done.taken == 0 => Some(0),
        NodeRec::Start { off: Some(off) } if done.taken == 0 => {
            appended_position(stream, appended, off.as_str())
        }
        NodeRec::Start { .. } => None,
        NodeRec::Take { off } => match appended_position(stream, appended, off.as_str()) {
            Some(position) if position > 0 && position - 1 == done.cursor => Some(position),
            _ => None,
        },
        NodeRec::Takes { off } => match appended_position(stream, appended, off.as_str()) {
            Some(position) if position > done.cursor => Some(position),
            _ => None,
        },
        _ => Some(done.cursor),
    }
}

/// The position of the offset, if its entry is among the appended ones.
#[tactic(auto, using(crate::proofs::Positions::appended_positions))]
fn appended_position(stream: &Stream, appended: usize, off: &str) -> Option<u64>
    ensures { result ≡ position (take appended stream.now) off.now }
{
    match stream.position(off) {
        Some(position) if position <= appended as u64 => Some(position),
        _ => None,
    }
}

/// Takes the step, which is allowed. Where memory is wanted, the state is as it was.
pub fn apply<'a>(state: &mut State<'a>, logs: &Logs<'a>, step: &Step) -> Result<(), AllocError>
    requires { IsSome (after logs.now state.old step.now) }
    ensures taken { OnOk result (after logs.now state.old step.now ≡ Some state.new) }
    ensures unchanged { OnErr result (state.new ≡ state.old) }
{
    match (state.progress(step.log), logs.taps().get(step.log)) {
        (Some(done), Some(tap)) => take_next(state, logs, step.log, done, &tap.records),
        _ => unreachable!(),
    }
}

/// Takes the next record of the log, which has come so far.
fn take_next<'a>(
    state: &mut State<'a>,
    logs: &Logs<'a>,
    place: usize,
    done: Progress,
    log: &'a Records,
) -> Result<(), AllocError>
    requires progress { slice_get state.old.logs place ≡ Some done }
    requires allowed { IsSome (after_next logs.now state.old place done log.now) }
    ensures taken { OnOk result (after_next logs.now state.old place done log.now
        ≡ Some state.new) }
    ensures unchanged { OnErr result (state.new ≡ state.old) }
{
    match log {
        Records::Stream(recs) => {
            if done.taken >= recs.len() {
                unreachable!()
            }
            state.advance(place, done.taken + 1, done.cursor);
            Ok(())
        }
        Records::Node(recs) => match recs.get(done.taken) {
            Some(rec) if done.taken < recs.len() => take_record(state, logs, place, done, rec),
            _ => unreachable!(),
        },
        Records::Client(_) => unreachable!(),
    }
}

/// Takes the next record of the node, which has come so far.
fn take_record<'a>(
    state: &mut State<'a>,
    logs: &Logs<'a>,
    node: usize,
    done: Progress,
    rec: &'a NodeRec,
) -> Result<(), AllocError>
    requires progress { slice_get state.old.logs node ≡ Some done }
    requires counted { done.taken + 1 < 2 ^ 64 }
    requires allowed { IsSome (after_record logs.now state.old node done rec.now) }
    ensures taken { OnOk result (after_record logs.now state.old node done rec.now
        ≡ Some state.new) }
    ensures unchanged { OnErr result (state.new ≡ state.old) }
{
    let Some(cursor) = allowed_cursor(logs.stream(), state.appended(logs), rec, done) else {
        unreachable!()
    };
    state.change(node, rec)?;
    state.advance(node, done.taken + 1, cursor);
    Ok(())
}

//! Which lists of steps are runs.
ghost use Rattle.std.specs.Prelude.{◌≡◌, ◌↔◌, IfOk, Some, true};
ghost use Rattle.aud_merge.specs.Runs.{IsRun, log_length};
ghost use Rattle.aud_merge.specs.Private.RunsOn.{IsFinished};

use crate::machine::{allowed, apply};
use crate::state::State;
use crate::step::Step;
use aud_node::Logs;
use aud_tap::Records;
use std::alloc::{AllocError, Global};

/// Whether the steps are all records of the stream and of the nodes, in an order in which each of them is allowed.
#[tactic(auto, using(crate::proofs::Merged::whole_runs))]
pub fn is_run(alloc: Global, logs: &Logs, steps: &[Step]) -> Result<bool, AllocError>
    ensures { IfOk result (λ answer. answer ≡ true ↔ IsRun logs.now steps.now) }
{
    let mut state = State::new(alloc, logs)?;
    for step in steps {
        if !allowed(&state, logs, step) {
            return Ok(false);
        }
        apply(&mut state, logs, step)?;
    }
    Ok(is_finished(&state, logs))
}

/// Whether no log has a record that wasn't taken.
fn is_finished(state: &State, logs: &Logs) -> bool
    ensures { result ≡ true ↔ IsFinished logs.now state.now }
{
    for (place, tap) in logs.taps().iter().enumerate() {
        if state.taken(place) < step_count(&tap.records) {
            return false;
        }
    }
    true
}

/// How many steps the log has: one for each record of the stream's or of a node's tap, none for a client's.
pub fn step_count(log: &Records) -> usize
    ensures { result ≡ log_length (Some log.now) }
{
    match log {
        Records::Stream(recs) => recs.len(),
        Records::Node(recs) => recs.len(),
        Records::Client(_) => 0,
    }
}

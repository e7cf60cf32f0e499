//! The logs that aren't finished.
ghost use Rattle.std.specs.Prelude.{◌≡◌, IfOk, length};
ghost use Rattle.aud_merge.specs.Order.{unfinished_fronts};

use crate::run::step_count;
use crate::state::State;
use crate::step::Step;
use aud_node::Logs;
use std::alloc::{AllocError, Global};

/// The next record of each log that isn't finished, in the order of the taps.
pub(crate) fn unfinished(
    alloc: Global,
    state: &State<'_>,
    logs: &Logs<'_>,
) -> Result<Vec<Step>, AllocError>
    ensures { IfOk result (λ fronts. fronts.items
        ≡ unfinished_fronts logs.now state.now 0 (length logs.now.taps)) }
{
    let mut fronts = Vec::new(alloc);
    for (log, tap) in logs.taps().iter().enumerate() {
        let index = state.taken(log);
        if index < step_count(&tap.records) {
            fronts.push(Step { log, index })?;
        }
    }
    Ok(fronts)
}

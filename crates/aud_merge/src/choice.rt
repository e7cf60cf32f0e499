//! The order of a run.
ghost use Rattle.std.specs.Prelude.{IfOk};
ghost use Rattle.aud_merge.specs.Shown.{IsShown};

use crate::answer::Order;
use crate::fronts::unfinished;
use crate::walk::Walk;
use aud_node::Logs;
use std::alloc::{AllocError, Global};

/// A run of the logs, or the records that block: each step costs a look-up.
pub fn order(alloc: Global, logs: &Logs<'_>) -> Result<Order, AllocError>
    ensures { IfOk result (IsShown logs.now) }
{
    let mut walk = Walk::new(alloc, logs)?;
    let mut steps = Vec::new(alloc);
    while let Some(step) = walk.choose(logs)? {
        walk.take(logs, step)?;
        steps.push(step)?;
    }
    let fronts = unfinished(alloc, &walk.state, logs)?;
    if fronts.is_empty() {
        Ok(Order::Run(steps))
    } else {
        Ok(Order::Blocked(fronts))
    }
}

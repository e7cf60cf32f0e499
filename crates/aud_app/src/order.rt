//! A run of the logs, or the records that block.
ghost use Rattle.std.specs.Prelude.{◌≡◌, IfOk};
ghost use Rattle.aud_node.specs.Cluster.{cluster_of};
ghost use Rattle.aud_app.specs.Orders.{IsOrdering, order_status};

use aud_merge::{Order, order, order_text};
use aud_node::Logs;
use aud_tap::Taps;
use aud_verdict::{Output, Status};
use std::alloc::{AllocError, Global};
use std::hash::RandomState;
use std::mem::ManuallyDrop;

/// How a run ends that shows this.
fn order_status(order: &Order) -> Status
    ensures { result ≡ order_status order.now }
{
    match order {
        Order::Run(_) => Status::AllYes,
        Order::Blocked(_) => Status::SomeNo,
    }
}

/// The steps of a run of the logs of these taps, or the records that block every run.
pub fn ordered(alloc: Global, keys: RandomState, taps: &Taps) -> Result<Output, AllocError>
    ensures { IfOk result (IsOrdering (cluster_of taps.now)) }
{
    let logs = Logs::build(alloc, keys, taps)?;
    ordered_logs(alloc, &ManuallyDrop::new(logs))
}

/// The steps of a run of these logs, or the records that block every run.
fn ordered_logs(alloc: Global, logs: &Logs<'_>) -> Result<Output, AllocError>
    ensures { IfOk result (IsOrdering logs.now) }
{
    let shown = order(alloc, logs)?;
    let text = order_text(alloc, logs, &shown)?;
    let status = order_status(&shown);
    Ok(Output { status, text })
}

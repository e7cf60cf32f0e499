//! A node's log by the place of its tap, at any number of records.
ghost use Rattle.std.specs.Prelude.{◌≡◌};
ghost use Rattle.aud_node.specs.Cluster.{node_log};
ghost use Rattle.aud_node.specs.Cursors.{cursor_at};

use aud_node::{Logs, NodeLog};

/// The cursor of the node at this place after so many of its records, or after all where it has fewer; 0 where no node
/// is there.
#[tactic(auto, using(crate::proofs::Cursors::cursor_none))]
pub(crate) fn cursor_at(logs: &Logs<'_>, node: usize, count: usize) -> u64
    ensures { result ≡ cursor_at logs.now.stream (node_log logs.now node) count }
{
    match logs.node(node) {
        Some(log) => cursor_in(log, count),
        None => 0,
    }
}

/// The same in the node's log.
#[tactic(auto, using(crate::proofs::Cursors::cursor_clipped))]
fn cursor_in(log: &NodeLog<'_>, count: usize) -> u64
    ensures { result ≡ cursor_at log.now.stream log.now.recs count }
{
    let count = count.min(log.recs().len());
    if count == 0 {
        return 0;
    }
    log.cursor_after(count - 1).unwrap_or(0)
}

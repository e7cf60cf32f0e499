//! Which record of a node takes a position first.
ghost use Rattle.std.specs.Prelude.{◌≡◌, ◌-◌};
ghost use Rattle.aud_node.specs.Cluster.{node_log};
ghost use Rattle.aud_merge.specs.ByTurns.{first_reaching};

use crate::at_place::cursor_at;
use aud_node::Logs;
use aud_rooms::TurnPlace;

/// Of the turn's records, the number of the first after which the node's cursor is at least at the position. The
/// cursors rise, so half of the records that are left are passed with each look.
pub(crate) fn first_reaching(logs: &Logs<'_>, turn: TurnPlace, position: u64) -> Option<usize>
    ensures { result ≡ first_reaching logs.now.stream
        (node_log logs.now turn.node) position turn.from (turn.to - turn.from) }
{
    let mut low = turn.from;
    let mut high = turn.to;
    while low < high {
        let middle = low + (high - low) / 2;
        if cursor_at(logs, turn.node, middle + 1) < position {
            low = middle + 1;
        } else {
            high = middle;
        }
    }
    if low < turn.to { Some(low) } else { None }
}

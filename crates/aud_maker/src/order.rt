//! Whether the nodes of turns are ordered.
ghost use Rattle.std.specs.Prelude.{◌≡◌};
ghost use Rattle.std.specs.List.{list_all};
ghost use Rattle.aud_maker.specs.Made.{is_turn_ordered};

use aud_node::Logs;
use aud_rooms::TurnPlace;

/// Whether the node of each turn is ordered.
pub(crate) fn are_ordered(logs: &Logs<'_>, turns: &[TurnPlace]) -> bool
    ensures { result ≡ list_all (is_turn_ordered logs.now) turns.now }
{
    for turn in turns {
        if !is_on_ordered(logs, turn) {
            return false;
        }
    }
    true
}

/// Whether the turn's node is ordered; a log without records isn't.
fn is_on_ordered(logs: &Logs<'_>, turn: &TurnPlace) -> bool
    ensures { result ≡ is_turn_ordered logs.now turn.now }
{
    match logs.node(turn.node) {
        Some(log) => log.ordered(),
        None => false,
    }
}

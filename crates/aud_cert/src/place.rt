//! Where a turn of a certificate stands in the logs.
ghost use Rattle.std.specs.Prelude.{◌≡◌};
ghost use Rattle.aud_cert.specs.Certificate.{turn_at};

use crate::certificate::Turn;
use aud_node::Logs;
use aud_rooms::TurnPlace;

/// Where the turn stands in the logs; its node's place is the number of all taps where none has the name of its node.
pub fn turn_place(logs: &Logs<'_>, turn: &Turn<'_>) -> TurnPlace
    ensures { result ≡ turn_at logs.now turn.now }
{
    TurnPlace {
        node: logs.place_of(turn.node).unwrap_or(logs.taps().len()),
        from: turn.from as usize,
        to: turn.to as usize,
    }
}

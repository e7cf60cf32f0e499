//! Where a session first reached a position.
ghost use Rattle.std.specs.Prelude.{◌≡◌, IfSome, Some, map, option_map};
ghost use Rattle.aud_cert.specs.Certificate.{turn_at};
ghost use Rattle.aud_merge.specs.ByTurns.{reaching_step};
ghost use Rattle.aud_session_facts.specs.Reach.{first_turn_reaching, step_of};
ghost use Rattle.aud_session_facts.specs.Private.Found.{reach_in, reach_from};

use crate::at_place::cursor_at;
use crate::search::first_reaching;
use aud_cert::{Turn, turn_place};
use aud_node::Logs;
use aud_rooms::TurnPlace;

/// Where a session first reached a position: a record of a node, in one of the session's turns there.
#[derive(Clone, Copy, Debug, PartialEq, Eq, Drop)]
pub struct Reach {
    /// The turn. Turns count from 0.
    pub turn: usize,
    /// The place of the node's tap.
    pub node: usize,
    /// The number of the record in the tap. Numbers count from 0.
    pub number: usize,
}

/// Where the session of these turns first reached the position, which counts from 1: in the first turn whose node had
/// taken it by the turn's end, the record by which the node did, or the turn's `open` or `back` where the node had
/// taken it by then. None where the session reached it in no turn. It costs the turns, and one search in a node's
/// cursors.
pub fn first_reach(logs: &Logs<'_>, turns: &[Turn<'_>], position: u64) -> Option<Reach>
    ensures step { option_map step_of result
        ≡ reaching_step logs.now (map (turn_at logs.now) turns.now) position }
    ensures turn { IfSome result (λ reach. first_turn_reaching logs.now
        (map (turn_at logs.now) turns.now) position ≡ Some reach.turn) }
{
    reach_from(logs, turns, position)
}

fn reach_from(logs: &Logs<'_>, turns: &[Turn<'_>], position: u64) -> Option<Reach>
    ensures { result ≡ reach_from logs.now 0 (map (turn_at logs.now) turns.now) position }
{
    for (number, turn) in turns.iter().enumerate() {
        let place = turn_place(logs, turn);
        if position <= cursor_at(logs, place.node, place.to) {
            return reach_in(logs, number, place, position);
        }
    }
    None
}

/// The same in this turn.
fn reach_in(logs: &Logs<'_>, turn: usize, place: TurnPlace, position: u64) -> Option<Reach>
    ensures { result ≡ reach_in logs.now turn place position }
{
    match first_reaching(logs, place, position) {
        Some(number) => Some(Reach {
            turn,
            node: place.node,
            number,
        }),
        None => None,
    }
}

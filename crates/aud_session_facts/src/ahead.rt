//! Where the node of a turn was behind the turns before it.
ghost use Rattle.std.specs.Prelude.{◌≡◌};
ghost use Rattle.std.specs.Option.{option_copied};
ghost use Rattle.aud_session_facts.specs.Ahead.{ahead_of, last_reached};

use aud_cert::Turn;

/// Where the turn with this number, from 0, began before the position, which counts from 1: the last turn in front of it
/// that had reached that, borrowed. It costs the turns between the two.
pub fn ahead_of<'t, 'a>(turns: &'t [Turn<'a>], position: u64, number: usize) -> Option<&'t Turn<'a>>
    ensures { option_copied result ≡ ahead_of position turns.now number }
{
    let turn = turns.get(number)?;
    if position <= turn.low {
        return None;
    }
    let (before, _) = turns.split_at(number);
    last_reached(before, position)
}

/// The last of the turns that reached this position.
fn last_reached<'t, 'a>(turns: &'t [Turn<'a>], position: u64) -> Option<&'t Turn<'a>>
    ensures { option_copied result ≡ last_reached position turns.now }
{
    turns.iter().rev().find(|turn| position <= turn.high)
}

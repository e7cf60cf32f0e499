//! Which turn of a session a stay of its client is of.
ghost use Rattle.std.specs.Prelude.{◌≡◌, map, slice_get};
ghost use Rattle.aud_session_facts.specs.StayTurns.{asked_after, begins_as_turn, stay_of_frame, stays_match};

use aud_cert::Turn;
use aud_client::Stay;
use aud_node::Stream;

/// The number of the stay in which the frame stands: both count from 0, frames over those of all these stays, stay after
/// stay. The number of all stays where they don't have so many frames. It costs the stays.
pub fn stay_of_frame(stays: &[&Stay<'_>], frame: usize) -> usize
    ensures { result ≡ stay_of_frame (map (λ stay. stay.now) stays.now) 0 frame }
{
    let mut left = frame;
    for (number, stay) in stays.iter().enumerate() {
        let count = stay.frames.len();
        if left < count {
            return number;
        }
        left -= count;
    }
    stays.len()
}

/// The position after which the client asked to go on in the stay with this number, from 0, if that is a recovery. None
/// where the stream doesn't have it. Positions count from 1.
pub fn asked_after(stream: &Stream<'_>, stays: &[&Stay<'_>], number: usize) -> Option<u64>
    ensures { result ≡ asked_after stream.now
        (slice_get (map (λ stay. stay.now) stays.now) number) }
{
    let stay = stays.get(number).copied()?;
    if !stay.is_recovered() {
        return None;
    }
    let asked = stay.asked.as_ref()?;
    stream.position(asked.offset.as_ref()?.as_str())
}

/// Whether the stays match the turns one by one, where these are the turns of a session, from turn 0 on, and the stays
/// whose reply names it: there are as many, and each begins as its turn does. No record of a client names a turn, so
/// which stay is of which is known only where they do. It costs the stays.
pub fn stays_match(stream: &Stream<'_>, turns: &[Turn<'_>], stays: &[&Stay<'_>]) -> bool
    ensures { result ≡ stays_match stream.now turns.now (map (λ stay. stay.now) stays.now) }
{
    if turns.len() != stays.len() {
        return false;
    }
    let mut high = 0;
    for (number, turn) in turns.iter().enumerate() {
        if !begins_as_turn(stream, stays, number, high) {
            return false;
        }
        high = turn.high.max(high);
    }
    true
}

/// Whether the stay with this number begins as the turn with it does, where those before it reached up to this position.
fn begins_as_turn(stream: &Stream<'_>, stays: &[&Stay<'_>], number: usize, high: u64) -> bool
    ensures { result ≡ begins_as_turn stream.now number high
        (slice_get (map (λ stay. stay.now) stays.now) number) }
{
    let Some(stay) = stays.get(number).copied() else {
        return false;
    };
    if number == 0 {
        return !stay.is_recovered();
    }
    if !stay.is_recovered() {
        return false;
    }
    match asked_after(stream, stays, number) {
        Some(after) => after <= high,
        None => true,
    }
}

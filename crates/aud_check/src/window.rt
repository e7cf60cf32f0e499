//! The first recovery that was asked for where it does not fit what had come.
ghost use Rattle.std.specs.Prelude.{◌≡◌, ◌≤◌, ◌-◌, ◌&&◌, [], None, Some, MatchOption, length, map, nat_le, nat_lt, not, true, false, slice_index};
ghost use Rattle.std.specs.Option.{option_copied};
ghost use Rattle.aud_client.specs.Received.{is_recovered};
ghost use Rattle.aud_check.specs.Difference.{IsAscending};
ghost use Rattle.aud_check.specs.Frames.{asked_position, wrong_window};
ghost use Rattle.aud_check.specs.Window.{IsBadWindow, IsMisfit, asked_offset, positions_received};
ghost use Rattle.aud_check.specs.Private.Misplaced.{IsMisplaced, is_cut, is_cut_or_not};

use aud_client::{Asked, Stay};
use aud_node::Stream;

/// A stay that is recovered, and whose client asked to go on where it does not fit what had come.
#[derive(Clone, Copy, Debug, PartialEq, Eq, Drop)]
pub struct BadWindow {
    /// The number of the stay, from 0 among those that name the session.
    pub stay: usize,
    /// The number of its connection, as the client's tap has it.
    pub c: u64,
    pub why: Misfit,
}

/// Why an offset that a client asked to go on after does not fit. Frames count from 0 in the list of all that was
/// received.
#[derive(Clone, Copy, Debug, PartialEq, Eq, Drop)]
pub enum Misfit {
    /// The client gave no offset.
    NoOffset,
    /// The stream has no entry with that offset.
    Unknown,
    /// The entry stands before that of this frame, the last one that had come.
    Behind { frame: usize },
    /// The entry doesn't stand before that of this frame, the next one that came.
    NotBehind { frame: usize },
}

/// The first of the stays that is recovered, and whose client asked to go on after no position that lies between the
/// frames in front of the stay and those from it on; none where there is none. The stays are those that name one
/// session, and these are the positions of their frames. They are to ascend, as those do that were due, so only the
/// last one before and the first one after are compared.
pub(crate) fn first_bad_window(
    stream: &Stream<'_>,
    stays: &[&Stay<'_>],
    positions: &[u64],
) -> Option<BadWindow>
    requires { positions.now ≡ positions_received (map (λ stay. stay.now) stays.now) }
    ensures { IsAscending positions.now → MatchOption result
        (wrong_window stream.now [] (map (λ stay. stay.now) stays.now) ≡ None)
        (IsBadWindow stream.now (map (λ stay. stay.now) stays.now)) }
{
    let mut left = positions.len();
    for (number, stay) in stays.iter().enumerate() {
        let stay: &Stay<'_> = *stay;
        if let Some(why) = misfit_of(stream, stay, positions, positions.len() - left) {
            return Some(BadWindow {
                stay: number,
                c: stay.c,
                why,
            });
        }
        left -= stay.frames.len();
    }
    None
}

/// Why the stay, if it is recovered, was asked for where it doesn't fit so many frames in front and the others.
fn misfit_of(
    stream: &Stream<'_>,
    stay: &Stay<'_>,
    positions: &[u64],
    count: usize,
) -> Option<Misfit>
    requires { count ≤ length positions.now }
    ensures { IsAscending positions.now
        → MatchOption result
        ((is_recovered stay.now
        && not (is_cut_or_not positions.now count (asked_position stream.now stay.now.asked)))
        ≡ false) (λ why. (is_recovered stay.now ≡ true)
        × (is_cut_or_not positions.now count (asked_position stream.now stay.now.asked) ≡ false)
        × IsMisfit stream.now positions.now stay.now.asked count why) }
{
    if !stay.is_recovered() {
        return None;
    }
    misfit_asked(stream, &stay.asked, positions, count)
}

/// Why what was asked for doesn't fit so many frames and the others.
fn misfit_asked(
    stream: &Stream<'_>,
    asked: &Option<Asked>,
    positions: &[u64],
    count: usize,
) -> Option<Misfit>
    requires { count ≤ length positions.now }
    ensures { IsAscending positions.now
        → MatchOption result
        (is_cut_or_not positions.now count (asked_position stream.now asked.now) ≡ true)
        (λ why. (is_cut_or_not positions.now count (asked_position stream.now asked.now) ≡ false)
        × IsMisfit stream.now positions.now asked.now count why) }
{
    match asked_offset(asked) {
        None => Some(Misfit::NoOffset),
        Some(off) => match stream.position(off) {
            None => Some(Misfit::Unknown),
            Some(position) => misplaced(positions, count, position),
        },
    }
}

/// The offset after which the client asked to go on.
fn asked_offset<'s>(asked: &'s Option<Asked>) -> Option<&'s str>
    ensures { option_copied result ≡ asked_offset asked.now }
{
    match asked {
        Some(asked) => match &asked.offset {
            Some(off) => Some(off.as_str()),
            None => None,
        },
        None => None,
    }
}

/// Why the position doesn't lie after so many first ones and before the others.
fn misplaced(positions: &[u64], count: usize, position: u64) -> Option<Misfit>
    requires { count ≤ length positions.now }
    ensures { IsAscending positions.now
        → MatchOption result (is_cut positions.now count position ≡ true)
        (λ why. (is_cut positions.now count position ≡ false)
        × IsMisplaced positions.now count position why) }
{
    if is_last_past(positions, count, position) {
        return Some(Misfit::Behind { frame: count - 1 });
    }
    if is_next_reached(positions, count, position) {
        return Some(Misfit::NotBehind { frame: count });
    }
    None
}

/// Whether the last of so many first ones is past the position.
fn is_last_past(positions: &[u64], count: usize, position: u64) -> bool
    requires { count ≤ length positions.now }
    ensures { result ≡ (nat_lt 0 count && nat_lt position (slice_index positions.now (count - 1))) }
{
    count > 0 && position < positions[count - 1]
}

/// Whether the one after so many isn't past the position.
fn is_next_reached(positions: &[u64], count: usize, position: u64) -> bool
    ensures { result ≡ (nat_lt count (length positions.now)
        && nat_le (slice_index positions.now count) position) }
{
    count < positions.len() && positions[count] <= position
}

//! What is found wrong with what a client received of a session.
ghost use Rattle.std.specs.Prelude.{◌≡◌, IfOk, MatchOption, map};
ghost use Rattle.std.specs.List.{All};
ghost use Rattle.aud_client.specs.StaySeen.{FrameSeen, TellsAltered};
ghost use Rattle.aud_check.specs.Difference.{IsAscending};
ghost use Rattle.aud_check.specs.Faults.{IsReceived, named, position_in};
ghost use Rattle.aud_check.specs.Findings.{IsFirstFinding, by_stays, fault_shown};
ghost use Rattle.aud_check.specs.Frames.{frames_in, offset_at};

use crate::content::{Altered, altered_in};
use crate::difference::{Difference, first_difference};
use crate::window::{BadWindow, first_bad_window};
use aud_cert::Fault;
use aud_client::{Frame, Stay, Transcript};
use aud_node::Stream;
use aud_tap::Text;
use std::alloc::{AllocError, Global};

/// What is wrong with what a client received of a session, and where it shows.
#[derive(Clone, Copy, Debug, PartialEq, Eq, Drop)]
pub enum Finding {
    /// A record of the client's tap does not decode.
    Frame,
    /// The client's tap has an event in a stay of which nobody knows the session.
    Orphan,
    /// An event isn't its entry.
    Content(Altered),
    /// The events aren't those due.
    Delivery(Difference),
    /// A recovery was asked for where it doesn't fit what had come.
    Window(BadWindow),
}

/// The first that is wrong, in the order of [`Finding`]; none where nothing is. The stays are those of the client's tap
/// that name the session, and these are their frames, stay after stay. The frames are compared with their entries only
/// where one of the stays tells of a frame that isn't its entry; what stays tell is true of all that were read over this
/// stream ([`stays_tell_altered`](aud_client::stays_tell_altered)).
pub fn first_finding(
    alloc: Global,
    stream: &Stream<'_>,
    received: &Transcript<'_>,
    stays: &[&Stay<'_>],
    frames: &[&Frame<'_>],
    due: &[u64],
) -> Result<Option<Finding>, AllocError>
    requires frames { map (λ frame. frame.now) frames.now
        ≡ frames_in (map (λ stay. stay.now) stays.now) }
    requires altered { All (TellsAltered stream.now) (map (λ stay. stay.now) stays.now) }
    requires ascending { IsAscending due.now }
    ensures { IfOk result (λ found. MatchOption found
        (IsReceived (by_stays stream.now received.now (map (λ stay. stay.now) stays.now) due.now))
        (IsFirstFinding (by_stays stream.now received.now (map (λ stay. stay.now) stays.now)
        due.now))) }
{
    if received.bad.is_some() {
        return Ok(Some(Finding::Frame));
    }
    if received.orphan {
        return Ok(Some(Finding::Orphan));
    }
    if let Some(altered) = altered_in(stream, stays, frames) {
        return Ok(Some(Finding::Content(altered)));
    }
    let positions = positions_of(alloc, frames)?;
    let positions = positions.as_slice();
    if let Some(difference) = first_difference(positions, due) {
        return Ok(Some(Finding::Delivery(difference)));
    }
    match first_bad_window(stream, stays, positions) {
        Some(window) => Ok(Some(Finding::Window(window))),
        None => Ok(None),
    }
}

/// The positions of the frames.
fn positions_of(alloc: Global, frames: &[&Frame<'_>]) -> Result<Vec<u64>, AllocError>
    ensures { IfOk result (λ positions. positions.items
        ≡ map (λ (frame : FrameSeen). frame.position) (map (λ frame. frame.now) frames.now)) }
{
    let mut positions = Vec::new(alloc);
    for frame in frames {
        positions.push(position_of(*frame))?;
    }
    Ok(positions)
}

fn position_of(frame: &Frame<'_>) -> u64
    ensures { result ≡ frame.now.position }
{
    frame.position
}

/// The fault that a verdict names for what was found over this stream.
pub(crate) fn fault_shown(
    alloc: Global,
    stream: &Stream<'_>,
    finding: Finding,
) -> Result<Fault, AllocError>
    ensures { IfOk result (λ fault. fault ≡ fault_shown stream.now finding) }
{
    match finding {
        Finding::Frame => Ok(Fault::Frame),
        Finding::Orphan => Ok(Fault::Orphan),
        Finding::Content(altered) => {
            Ok(Fault::Content(offset_at(alloc, stream, altered.position)?))
        }
        Finding::Delivery(difference) => {
            let off = offset_at(alloc, stream, position_in(difference))?;
            Ok(named(difference, off))
        }
        Finding::Window(window) => Ok(Fault::Window(window.c)),
    }
}

/// The position that the difference is about.
fn position_in(difference: Difference) -> u64
    ensures { result ≡ position_in difference }
{
    match difference {
        Difference::Extra { position, .. } | Difference::Doubled { position, .. } => position,
        Difference::Swapped { due, .. } | Difference::Lost { due, .. } => due,
    }
}

/// The difference as a fault about this offset.
fn named(difference: Difference, off: Text) -> Fault
    ensures { result ≡ named difference off }
{
    match difference {
        Difference::Extra { .. } => Fault::Extra(off),
        Difference::Doubled { .. } => Fault::Doubled(off),
        Difference::Swapped { .. } => Fault::Swapped(off),
        Difference::Lost { .. } => Fault::Lost(off),
    }
}

/// The offset of the entry at the position, in memory of its own; the empty text where there is none.
fn offset_at(alloc: Global, stream: &Stream<'_>, position: u64) -> Result<Text, AllocError>
    ensures { IfOk result (λ off. off ≡ offset_at stream.now position) }
{
    let off = match stream.entry(position) {
        Some(entry) => entry.offset().as_str(),
        None => "",
    };
    Text::new(alloc, off)
}

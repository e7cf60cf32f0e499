//! What a client received of a session against what was due to it.
ghost use Rattle.std.specs.Prelude.{◌≡◌, IfErr, IfOk, OnOk, length, map};
ghost use Rattle.std.specs.List.{All};
ghost use Rattle.aud_client.specs.StaySeen.{TellsAltered};
ghost use Rattle.aud_check.specs.Difference.{IsAscending};
ghost use Rattle.aud_check.specs.Faults.{IsReceived};
ghost use Rattle.aud_check.specs.Findings.{by_stays};
ghost use Rattle.aud_check.specs.Frames.{frames_in};
ghost use Rattle.aud_check.specs.Private.ReceivedCheck.{IsReceivedRefusal};

use crate::finding::{fault_shown, first_finding};
use crate::refusal::Refusal;
use crate::stays::frames_in;
use aud_client::{Stay, Transcript};
use aud_node::Stream;
use std::alloc::Global;

/// How many of the due positions were received, where nothing is wrong; else the first fault that holds. The stays are
/// those that name the session.
pub(crate) fn check_received(
    alloc: Global,
    stream: &Stream<'_>,
    received: &Transcript<'_>,
    stays: &[&Stay<'_>],
    due: &[u64],
) -> Result<usize, Refusal>
    requires altered { All (TellsAltered stream.now) (map (λ stay. stay.now) stays.now) }
    requires ascending { IsAscending due.now }
    ensures received { OnOk result (IsReceived (by_stays stream.now received.now
        (map (λ stay. stay.now) stays.now) due.now)) }
    ensures got { IfOk result (λ got. got ≡ length (frames_in (map (λ stay. stay.now) stays.now))) }
    ensures refused { IfErr result (IsReceivedRefusal (by_stays stream.now received.now
        (map (λ stay. stay.now) stays.now) due.now)) }
{
    let frames = frames_in(alloc, stays)?;
    let frames = frames.as_slice();
    match first_finding(alloc, stream, received, stays, frames, due)? {
        Some(finding) => Err(Refusal::Received(fault_shown(alloc, stream, finding)?)),
        None => Ok(frames.len()),
    }
}

//! What a client's tap tells of its sessions, and which events came to it.
ghost use Rattle.std.specs.Prelude.{◌≡◌, ◌++◌, ℕ, IfOk, OnOk, Some};
ghost use Rattle.std.specs.List.Sorted.{IsStrictlyIncreasing};
ghost use Rattle.std.specs.Option.{option_to_list};
ghost use Rattle.aud_maker.specs.Sessions.{reply_pids, stay_pid};
ghost use Rattle.aud_parts.specs.ClientFacts.{frame_positions, has_come_at, is_one_of};
ghost use Rattle.aud_parts.specs.ClientFacts.{TellEvents};

use aud_client::{Stay, read_transcript};
use aud_node::Stream;
use aud_tap::{ClientRec, Text, Texts};
use std::alloc::{AllocError, Global};

/// What a client's tap tells of its sessions, and which events came to it: all that is needed of it to plan the parts
/// of a recording and to make those of the stream and of the nodes.
#[derive(Drop)]
pub struct ClientFacts {
    /// The pids that its replies name, stay after stay; one stands here as often as it is named. They are shared with
    /// no record.
    pub pids: Texts,
    /// The positions in the stream of the entries whose events came, in whichever stay: ascending, each once.
    /// Positions count from 1.
    pub came: Vec<u64>,
}

/// The facts of a client's tap with these records, by the recoverable entries of this stream. The records are read
/// once, and nothing of them is kept.
pub fn client_facts(
    alloc: Global,
    recs: &[ClientRec],
    stream: &Stream<'_>,
) -> Result<ClientFacts, AllocError>
    ensures pids { IfOk result (λ facts. facts.pids ≡ reply_pids stream.now (Some recs.now)) }
    ensures came { IfOk result (λ facts. (position : ℕ)
        → is_one_of facts.came.items position ≡ has_come_at stream.now recs.now position) }
    ensures events { IfOk result (λ facts. TellEvents stream.now recs.now facts.came.items) }
    ensures ascending { IfOk result (λ facts. IsStrictlyIncreasing facts.came.items) }
{
    let transcript = read_transcript(alloc, recs, stream)?;
    let stays = transcript.stays.as_slice();
    let mut named = Vec::new(alloc);
    let mut came = Vec::new(alloc);
    for stay in stays {
        push_pid(&mut named, stay)?;
        push_positions(&mut came, stay)?;
    }
    came.sort_unstable();
    came.dedup();
    let pids = Texts::new(named);
    Ok(ClientFacts { pids, came })
}

/// Adds the session that the stay's reply names, if it names one.
fn push_pid(pids: &mut Vec<Text>, stay: &Stay<'_>) -> Result<(), AllocError>
    ensures { OnOk result (pids.new.items
        ≡ pids.old.items ++ option_to_list (stay_pid stay.now)) }
{
    let Some(reply) = &stay.reply else {
        return Ok(());
    };
    let Some(pid) = &reply.pid else {
        return Ok(());
    };
    pids.push(pid.share()?)?;
    Ok(())
}

/// Adds the positions of the stay's frames.
fn push_positions(positions: &mut Vec<u64>, stay: &Stay<'_>) -> Result<(), AllocError>
    ensures { OnOk result (positions.new.items
        ≡ positions.old.items ++ frame_positions stay.now) }
{
    for frame in &stay.frames {
        positions.push(frame.position)?;
    }
    Ok(())
}

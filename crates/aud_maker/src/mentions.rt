//! The sessions that the logs mention.
ghost use Rattle.std.specs.Prelude.{◌≡◌, IfOk, OnOk, map, option_map, string_bytes};
ghost use Rattle.std.specs.List.{filter_map};
ghost use Rattle.aud_base.specs.FirstTexts.{with_texts};
ghost use Rattle.aud_node.specs.NodeTaps.{client_at};
ghost use Rattle.aud_maker.specs.Sessions.{stay_pid, reply_pids, sessions_of};

use crate::mentioned::Mentioned;
use aud_client::{Recording, Stay};
use std::alloc::{AllocError, Global};

/// The pids of the sessions, each once, by first mention: in the nodes' taps, in the order of their headers and then of
/// their records, and then in the clients' taps, in the order of their headers and then of the stays whose replies
/// name them. Each stay is looked at once; no tap is read again.
pub fn sessions(alloc: Global, recording: &Recording<'_>) -> Result<Vec<String>, AllocError>
    ensures { IfOk result (λ pids. map string_bytes pids.items ≡ sessions_of recording.now) }
{
    let logs = recording.logs();
    let mut mentioned = Mentioned::new(alloc, logs.keys());
    for number in 0..logs.named_count() {
        mentioned.mention(logs.named_pid(number))?;
    }
    for place in 0..logs.taps().len() {
        mention_client(recording, &mut mentioned, place)?;
    }
    mentioned.into_pids()
}

/// The pids that the replies of the tap at this place name, if it is a client's.
fn mention_client(
    recording: &Recording<'_>,
    mentioned: &mut Mentioned,
    place: usize,
) -> Result<(), AllocError>
    ensures { OnOk result (mentioned.new
        ≡ with_texts mentioned.old (reply_pids recording.now.stream
        (client_at recording.now place))) }
{
    match recording.client(place) {
        Some(transcript) => mention_replies(mentioned, &transcript.transcript().stays),
        None => Ok(()),
    }
}

fn mention_replies(mentioned: &mut Mentioned, stays: &[Stay<'_>]) -> Result<(), AllocError>
    ensures { OnOk result (mentioned.new
        ≡ with_texts mentioned.old (filter_map stay_pid stays.now)) }
{
    for stay in stays {
        if let Some(named) = reply_pid(stay) {
            mentioned.mention(named)?;
        }
    }
    Ok(())
}

/// The session that the stay's reply names.
fn reply_pid<'s>(stay: &'s Stay<'_>) -> Option<&'s str>
    ensures { option_map (λ pid. pid.now) result ≡ stay_pid stay.now }
{
    let Some(reply) = &stay.reply else {
        return None;
    };
    match &reply.pid {
        Some(pid) => Some(pid.as_str()),
        None => None,
    }
}

//! A client's tap that was read, with its stays by session.
ghost use Rattle.std.specs.Prelude.{◌≡◌, IfOk, map, slice_get};
ghost use Rattle.std.specs.Option.{option_copied};
ghost use Rattle.aud_client.specs.Received.{transcript_of, numbers_naming, stays_naming, stays_numbered};

use crate::by_session::by_session;
use crate::stay::Stay;
use crate::tap::read_transcript;
use crate::transcript::Transcript;
use aud_base::Places;
use aud_node::Stream;
use aud_tap::ClientRec;
use std::alloc::{AllocError, Global};
use std::hash::RandomState;
use std::marker::Model;

/// What a client's tap tells, and which of its stays name which session: a session then costs its own stays. Seen as
/// what the tap tells.
#[derive(Drop)]
pub struct IndexedTranscript<'a> {
    transcript: Transcript<'a>,
    /// Of each pid, the numbers of the stays whose reply names it.
    by_session: Places,
}

impl<'a> Model for IndexedTranscript<'a> {
    ghost use Rattle.aud_client.specs.Received.{TranscriptSeen};
    ghost use Rattle.aud_client.specs.Private.IndexedTranscript.{HoldsStaysByPid};

    ghost Value = { TranscriptSeen };

    ghost view = { λ t. t.transcript };

    ghost invariant = { HoldsStaysByPid };
}

impl<'a> IndexedTranscript<'a> {
    /// Reads the records, all of them once. Pids are hashed with these keys.
    pub fn read(
        alloc: Global,
        keys: RandomState,
        recs: &'a [ClientRec],
        stream: &Stream<'a>,
    ) -> Result<IndexedTranscript<'a>, AllocError>
        ensures { IfOk result (λ transcript. transcript ≡ transcript_of stream.now recs.now) }
    {
        let transcript = read_transcript(alloc, recs, stream)?;
        let by_session = by_session(alloc, keys, transcript.stays.as_slice())?;
        Ok(IndexedTranscript {
            transcript,
            by_session,
        })
    }

    /// What the tap tells, borrowed.
    pub fn transcript(&self) -> &Transcript<'a>
        ensures { result.now ≡ self.now }
    {
        &self.transcript
    }

    /// The numbers, ascending, of the stays whose reply names the session, borrowed; stays count from 0 in the tap's
    /// order.
    pub fn numbers_naming(&self, pid: &str) -> &[usize]
        ensures { result.now ≡ numbers_naming pid.now self.now.stays }
    {
        self.by_session.of(pid)
    }

    /// The stays whose reply names the session, in the tap's order, borrowed. No other stay is looked at.
    #[tactic(auto, using(crate::proofs::Numbers::numbered_naming))]
    pub fn naming<'s>(&'s self, alloc: Global, pid: &str) -> Result<Vec<&'s Stay<'a>>, AllocError>
        ensures { IfOk result (λ naming. map (λ stay. stay.now) naming.items
            ≡ stays_naming pid.now self.now.stays) }
    {
        stays_at(alloc, &self.transcript.stays, self.numbers_naming(pid))
    }
}

/// The stays with these numbers, borrowed.
fn stays_at<'s, 'a>(
    alloc: Global,
    stays: &'s [Stay<'a>],
    numbers: &[usize],
) -> Result<Vec<&'s Stay<'a>>, AllocError>
    ensures { IfOk result (λ at. map (λ stay. stay.now) at.items
        ≡ stays_numbered stays.now numbers.now) }
{
    let mut at = Vec::new(alloc);
    for number in numbers {
        let Some(stay) = stay_at(stays, *number) else {
            continue;
        };
        at.push(stay)?;
    }
    Ok(at)
}

/// The stay with this number.
fn stay_at<'s, 'a>(stays: &'s [Stay<'a>], number: usize) -> Option<&'s Stay<'a>>
    ensures { option_copied result ≡ slice_get stays.now number }
{
    stays.get(number)
}

//! What the clients' taps tell, and which of them name which session.
ghost use Rattle.std.specs.Prelude.{◌≡◌, IfOk, OnOk, map};
ghost use Rattle.std.specs.Option.{option_copied};
ghost use Rattle.aud_base.specs.Places.{noted, places_of};
ghost use Rattle.aud_node.specs.Stream.{Text};
ghost use Rattle.aud_client.specs.Received.{transcript_at};
ghost use Rattle.aud_client.specs.Private.Clients.{AreRead, has_naming_stay, naming_transcripts, transcript_in};

use crate::by_session::note_stays;
use crate::indexed_transcript::IndexedTranscript;
use aud_base::{Places, make_room, numbers_to, try_map};
use aud_node::Logs;
use aud_tap::Tap;
use std::alloc::{AllocError, Global};
use std::hash::RandomState;
use std::thread::Threads;

/// The bytes of memory that what a record tells may take, while the list that has it grows.
const RECORD_ROOM: usize = 128;

/// What the clients' taps tell, each read once.
#[derive(Drop)]
pub struct Clients<'a> {
    /// What each tap tells, where it is a client's.
    pub transcripts: Vec<Option<IndexedTranscript<'a>>>,
    /// Of each pid, the places of the clients' taps with a reply that names it.
    pub naming: Places,
}

impl<'a> Clients<'a> {
    /// Reads the clients' taps, in at most so many threads.
    pub fn read<H: Threads + Sync>(
        rt: &H,
        alloc: Global,
        keys: RandomState,
        threads: usize,
        logs: &Logs<'a>,
    ) -> Result<Clients<'a>, AllocError>
        ensures { IfOk result (AreRead logs.now) }
    {
        let transcripts = transcripts_of(rt, alloc, keys, threads, logs)?;
        let naming = naming_of(alloc, keys, transcripts.as_slice())?;
        Ok(Clients {
            transcripts,
            naming,
        })
    }
}

/// What the tap at each place tells, where it is a client's. The places are shared out among at most so many threads.
fn transcripts_of<'a, H: Threads + Sync>(
    rt: &H,
    alloc: Global,
    keys: RandomState,
    threads: usize,
    logs: &Logs<'a>,
) -> Result<Vec<Option<IndexedTranscript<'a>>>, AllocError>
    ensures { IfOk result (λ transcripts. transcripts.items
        ≡ map (transcript_in logs.now.stream) logs.now.taps) }
{
    let places = numbers_to(alloc, logs.taps().len())?;
    try_map(
        rt,
        alloc,
        threads,
        places.as_slice(),
        |place: &usize| -> Result<Option<IndexedTranscript<'_>>, AllocError>
            ensures { IfOk result (λ transcript. transcript
                ≡ transcript_at logs.entry.now place.now) }
        { transcript_at(alloc, keys, logs, *place) },
    )
}

/// What the tap at the place tells, if it is a client's.
fn transcript_at<'a>(
    alloc: Global,
    keys: RandomState,
    logs: &Logs<'a>,
    place: usize,
) -> Result<Option<IndexedTranscript<'a>>, AllocError>
    ensures { IfOk result (λ transcript. transcript ≡ transcript_at logs.now place) }
{
    match logs.client(place) {
        Some(recs) => {
            make_room(alloc, recs.len().saturating_mul(RECORD_ROOM));
            let transcript = IndexedTranscript::read(alloc, keys, recs, logs.stream())?;
            Ok(Some(transcript))
        }
        None => Ok(None),
    }
}

/// Of each pid, the places of those that tell of a stay whose reply names it.
fn naming_of(
    alloc: Global,
    keys: RandomState,
    transcripts: &[Option<IndexedTranscript<'_>>],
) -> Result<Places, AllocError>
    ensures { IfOk result (λ naming. (pid : Text)
        → places_of naming pid ≡ naming_transcripts transcripts.now pid) }
{
    let mut naming = Places::new(alloc, keys);
    for (place, transcript) in transcripts.iter().enumerate() {
        note_transcript(&mut naming, place, transcript.as_ref())?;
    }
    Ok(naming)
}

/// Notes what the tap at this place tells, after all those noted so far.
fn note_transcript(
    naming: &mut Places,
    place: usize,
    transcript: Option<&IndexedTranscript<'_>>,
) -> Result<(), AllocError>
    ensures { OnOk result ((q : Text)
        → places_of naming.new q
        ≡ noted place (has_naming_stay q (option_copied transcript.entry))
        (places_of naming.old q)) }
{
    match transcript {
        Some(transcript) => note_stays(naming, place, transcript.transcript().stays.as_slice()),
        None => Ok(()),
    }
}

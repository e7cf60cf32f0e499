//! All that was recorded, read once.
ghost use Rattle.std.specs.Prelude.{◌≡◌, IfOk};
ghost use Rattle.std.specs.Option.{option_copied};
ghost use Rattle.aud_tap.specs.Names.{AreNamedOnce};
ghost use Rattle.aud_node.specs.Cluster.{cluster_of};
ghost use Rattle.aud_client.specs.Received.{transcript_at};
ghost use Rattle.aud_client.specs.Replies.{naming_places};

use crate::clients::Clients;
use crate::indexed_transcript::IndexedTranscript;
use aud_node::Logs;
use aud_tap::{Records, Tap, Taps};
use std::alloc::{AllocError, Global};
use std::hash::RandomState;
use std::marker::Model;
use std::thread::Threads;

/// So few records are read by one thread: to start others takes as long.
const FEW: usize = 12_288;

/// The taps, borrowed, with all that was made of them, each read once: the logs of the stream and of the nodes, and
/// what each client's tap tells. Seen as the cluster. A tap is named by its place, which counts from 0 in the order of
/// the headers, and no two have one name.
#[derive(Drop)]
pub struct Recording<'a> {
    logs: Logs<'a>,
    clients: Clients<'a>,
}

impl<'a> Model for Recording<'a> {
    ghost use Rattle.aud_node.specs.Cluster.{Cluster};
    ghost use Rattle.aud_client.specs.Private.Clients.{HoldsRecording};

    ghost Value = { Cluster };

    ghost view = { λ r. r.logs };

    ghost invariant = { HoldsRecording };
}

impl<'a> Recording<'a> {
    /// Reads the taps, in at most so many threads: with 0 or 1, or where there are fewer than 12,288 records, none is
    /// started. How many there are changes nothing in what is read. A client's packets are dropped record after record:
    /// what the stays keep of them is moved out. Names, pids and offsets are hashed with these keys.
    pub fn read<H: Threads + Sync>(
        rt: &H,
        alloc: Global,
        keys: RandomState,
        threads: usize,
        taps: &'a Taps,
    ) -> Result<Recording<'a>, AllocError>
        requires { AreNamedOnce taps.now }
        ensures { IfOk result (λ recording. recording ≡ cluster_of taps.now) }
    {
        let threads = threads_for(threads, taps.as_slice());
        let logs = Logs::build_in_threads(rt, alloc, keys, threads, taps)?;
        let clients = Clients::read(rt, alloc, keys, threads, &logs)?;
        Ok(Recording { logs, clients })
    }

    /// The logs of the stream and of the nodes, borrowed.
    pub fn logs(&self) -> &Logs<'a>
        ensures { result.now ≡ self.now }
    {
        &self.logs
    }

    /// No two taps have one name.
    pub fn named_once(&self)
        ensures { AreNamedOnce self.now.taps }
    {
        let _logs = &self.logs;
    }

    /// What the tap at this place tells, borrowed; none where it is no client's.
    pub fn client(&self, place: usize) -> Option<&IndexedTranscript<'a>>
        ensures { option_copied result ≡ transcript_at self.now place }
    {
        match self.clients.transcripts.get(place) {
            Some(transcript) => transcript.as_ref(),
            None => None,
        }
    }

    /// The places, ascending, of the clients' taps in which a CONNECT from the server names the pid.
    pub fn naming(&self, pid: &str) -> &[usize]
        ensures { result.now ≡ naming_places self.now.taps pid.now }
    {
        self.clients.naming.of(pid)
    }
}

/// How many threads read these taps, of at most so many.
fn threads_for(threads: usize, taps: &[Tap]) -> usize {
    let mut records = 0usize;
    for tap in taps {
        records = records.saturating_add(record_count(tap));
    }
    if records < FEW { 1 } else { threads }
}

/// How many records the tap has.
fn record_count(tap: &Tap) -> usize {
    match &tap.records {
        Records::Stream(records) => records.len(),
        Records::Node(records) => records.len(),
        Records::Client(records) => records.as_slice().len(),
    }
}

//! What the clients' taps tell.
pub mod facts;
pub mod measured;

ghost use Rattle.std.specs.Prelude.{◌≡◌, ◌++◌, ◌∷◌, [], ℕ, List, IfOk, OnOk, None, Some, map};
ghost use Rattle.std.specs.List.{All};
ghost use Rattle.aud_reader.specs.declared.line.Line.{Line};
ghost use Rattle.aud_parts.specs.ClientsRead.{AreToldOf, others_among};
ghost use Rattle.aud_parts.specs.ServersRead.{kind_told};
ghost use Rattle.aud_parts.specs.TapRuns.{MayBeRead, TapRuns};
ghost use Rattle.aud_parts.specs.Private.ClientSteps.{AreSoFar, AreTold, IsTold, clients_told, refused_told};
ghost use Rattle.aud_parts.specs.Private.TapsRead.{HoldsLines, IsReadOf};

use crate::clients::facts::client_facts;
use crate::clients::measured::MeasuredClient;
use crate::tap_index::first_refusal::{FirstRefusal, RefusedLine};
use crate::tap_index::tap_lines::client_header;
use crate::tap_index::tap_reading::{HeldRun, TapRead, hold, read_held, read_tap, tap_named};
use crate::tap_index::tap_runs::{IndexedTaps, RunSource, TapRuns};
use aud_base::{RunFault, try_map};
use aud_node::Stream;
use aud_reader::ReadFault;
use aud_tap::Records;
use std::alloc::{AllocError, Global};
use std::hash::RandomState;
use std::thread::Threads;

/// The most bytes of clients' taps that are held at once: of taps that are read side by side. A tap that has more is read
/// by itself.
const MOST_HELD: u64 = 33_554_432;

/// What is told of a client's tap: nothing, where it is read as no such tap.
type Told = Result<Option<MeasuredClient>, RefusedLine>;

/// What is told of a client's tap of which this was read.
fn told_of(
    alloc: Global,
    stream: &Stream<'_>,
    tap: &TapRuns,
    read: TapRead,
) -> Result<Told, AllocError>
    ensures { (lines : List Line) → IsReadOf lines read
        → IfOk result (IsTold stream.now tap.now.name lines) }
{
    let TapRead {
        read,
        first,
        bytes,
        ..
    } = read;
    let taps = match read {
        Ok(taps) => taps,
        Err(ReadFault::Input(number, code)) => return Ok(Err(RefusedLine { number, code })),
        Err(ReadFault::Memory) => return Err(AllocError),
    };
    let Some(one) = tap_named(taps.as_slice(), tap.name()) else {
        return Ok(Ok(None));
    };
    let Records::Client(records) = &one.records else {
        return Ok(Ok(None));
    };
    let facts = client_facts(alloc, records.as_slice(), stream)?;
    let header = client_header(alloc, tap.name())?.len() as u64;
    let bytes = bytes.saturating_sub(first).saturating_add(header);
    Ok(Ok(Some(MeasuredClient { facts, bytes })))
}

/// A client's tap, and the bytes of its runs.
#[derive(Drop)]
struct HeldTap<'a> {
    tap: &'a TapRuns,
    runs: Vec<HeldRun>,
}

/// The clients' taps that were read, in the order of the index.
#[derive(Drop)]
struct ClientsReading<'a> {
    alloc: Global,
    keys: RandomState,
    threads: usize,
    stream: &'a Stream<'a>,
    clients: Vec<MeasuredClient>,
    refusal: FirstRefusal,
    /// Taps that are held, and not read yet.
    held: Vec<HeldTap<'a>>,
    /// How many bytes these have.
    bytes: u64,
}

impl<'a> ClientsReading<'a> {
    /// Adds what is told of the next tap.
    fn add(&mut self, told: Told) -> Result<(), AllocError>
        ensures clients { OnOk result (self.new.clients.items
            ≡ self.old.clients.items ++ clients_told told) }
        ensures refusal { self.new.refusal ≡ refused_told told self.old.refusal }
        ensures held { self.new.held ≡ self.old.held }
        ensures stream { self.new.stream ≡ self.old.stream }
    {
        match told {
            Ok(Some(client)) => {
                self.clients.push(client)?;
            }
            Ok(None) => {}
            Err(line) => self.refusal.add(line.number, line.code),
        }
        Ok(())
    }

    /// Adds what is told of the next taps, one after the other.
    fn add_all(&mut self, all: Vec<Told>) -> Result<(), AllocError>
        ensures told { (files : List (List ℕ)) (read taps : List TapRuns)
            → AreTold files self.old.stream.now taps all.items
            → (self.old.refusal ≡ None
            → AreToldOf files self.old.stream.now read self.old.clients.items)
            → OnOk result (self.new.refusal ≡ None
            → AreToldOf files self.old.stream.now (read ++ taps) self.new.clients.items) }
        ensures held { self.new.held ≡ self.old.held }
        ensures stream { self.new.stream ≡ self.old.stream }
    {
        for told in all {
            self.add(told)?;
        }
        Ok(())
    }

    /// Reads the taps that are held, side by side.
    fn read_batch<H: Threads + Sync>(&mut self, rt: &H) -> Result<(), AllocError>
        ensures told { (files : List (List ℕ)) (taps : List TapRuns)
            → AreSoFar files taps self.old → OnOk result (AreSoFar files taps self.new) }
        ensures held { OnOk result (self.new.held.items ≡ []) }
        ensures stream { self.new.stream ≡ self.old.stream }
    {
        let (alloc, keys, stream) = (self.alloc, self.keys, self.stream);
        let all = try_map(
            rt,
            alloc,
            self.threads,
            self.held.as_slice(),
            |held: &HeldTap<'_>| -> Result<Told, AllocError>
                ensures { (lines : List Line) → HoldsLines lines held.now.runs.items
                    → IfOk result (IsTold stream.entry.now held.now.tap.now.name lines) }
            {
                match read_held(alloc, keys, &held.runs) {
                    Ok(read) => told_of(alloc, stream, held.tap, read),
                    Err(_) => Err(AllocError),
                }
            },
        )?;
        self.add_all(all)?;
        self.held.clear();
        self.bytes = 0;
        Ok(())
    }

    /// Reads the next tap, or holds it.
    fn next<H: Threads + Sync, S: RunSource>(
        &mut self,
        rt: &H,
        source: &mut S,
        tap: &'a TapRuns,
    ) -> Result<(), RunFault>
        ensures told { (files : List (List ℕ)) (taps : List TapRuns)
            → S.files source.old ≡ Some files → MayBeRead files tap.entry.now
            → AreSoFar files taps self.old
            → OnOk result (AreSoFar files (taps ++ tap.entry.now ∷ []) self.new) }
        ensures source { S.files source.new ≡ S.files source.old }
        ensures stream { self.new.stream ≡ self.old.stream }
    {
        let bytes = tap.bytes();
        if self.bytes.saturating_add(bytes) > MOST_HELD {
            self.read_batch(rt)?;
        }
        if bytes > MOST_HELD {
            let mut buffer = Vec::new(self.alloc);
            let read = read_tap(self.alloc, self.keys, tap, source, &mut buffer)?;
            let told = told_of(self.alloc, self.stream, tap, read)?;
            self.add(told)?;
            return Ok(());
        }
        self.bytes = self.bytes.saturating_add(bytes);
        let runs = hold(self.alloc, source, tap.runs())?;
        match self.held.push(HeldTap { tap, runs }) {
            Ok(()) => Ok(()),
            Err(_) => Err(RunFault::Memory),
        }
    }
}

/// What is read of the clients' taps.
#[derive(Drop)]
pub struct ClientsRead {
    /// What each tap tells and how long it is in a part, in the order of the index; without those of which a line is
    /// refused.
    pub clients: Vec<MeasuredClient>,
    /// The first line of them that is refused.
    pub refused: Option<RefusedLine>,
}

/// Reads the taps that are not the stream's nor a node's, one after the other, and keeps of each what it tells and how
/// long it is in a part. They are read by at most so many threads; up to 32 MiB of them are held at once, or one tap.
pub fn read_clients<'a, H: Threads + Sync, S: RunSource>(
    rt: &H,
    alloc: Global,
    keys: RandomState,
    threads: usize,
    source: &mut S,
    stream: &'a Stream<'a>,
    indexed: &IndexedTaps<'a>,
) -> Result<ClientsRead, RunFault>
    ensures told { (files : List (List ℕ)) → S.files source.old ≡ Some files
        → All (MayBeRead files) indexed.entry.now.taps.now
        → indexed.entry.now.kinds.now ≡ map (kind_told files) indexed.entry.now.taps.now
        → IfOk result (λ read. read.refused ≡ None
        → AreToldOf files stream.entry.now (others_among files indexed.entry.now.taps.now)
        read.clients.items) }
    ensures source { S.files source.new ≡ S.files source.old }
{
    let mut reading = ClientsReading {
        alloc,
        keys,
        threads,
        stream,
        clients: Vec::new(alloc),
        refusal: FirstRefusal::new(),
        held: Vec::new(alloc),
        bytes: 0,
    };
    for (place, tap) in indexed.taps.iter().enumerate() {
        if !indexed.is_server(place) {
            reading.next(rt, source, tap)?;
        }
    }
    reading.read_batch(rt)?;
    let refused = reading.refusal.line();
    let ClientsReading { clients, .. } = reading;
    Ok(ClientsRead { clients, refused })
}

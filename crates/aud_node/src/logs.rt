//! The cluster's logs.
ghost use Rattle.std.specs.Prelude.{◌≡◌, ◌<◌, IfOk, Some, length, map, option_map, slice_get};
ghost use Rattle.std.specs.Option.{option_copied};
ghost use Rattle.aud_node.specs.Cluster.{cluster_of, stream_of, stream_place};
ghost use Rattle.aud_node.specs.NodeTaps.{node_at, node_tap, client_at, client_recs};
ghost use Rattle.aud_node.specs.Names.{place_of};
ghost use Rattle.aud_node.specs.NamedPids.{named_pids};
ghost use Rattle.aud_node.specs.OwnPlaces.{own_places};
ghost use Rattle.aud_node.specs.Private.TapsOfNodes.{is_node, node_in, node_places_from};

use crate::by_name::{nodes_by_pid, taps_by_name};
use crate::node_log::NodeLog;
use crate::recoverable::{recoverable_in_threads, recoverable_of};
use crate::rest::Rest;
use crate::stream::Stream;
use aud_base::{Places, make_room, try_map};
use aud_tap::{ClientRec, Records, StreamRec, Tap, Taps};
use std::alloc::{AllocError, Global};
use std::hash::RandomState;
use std::marker::Model;
use std::thread::Threads;

/// The bytes of memory that the indices of a record may take, while the lists that have it grow.
const RECORD_ROOM: usize = 128;

/// The taps, borrowed, with what was made once of the stream and of the nodes: seen as the cluster. A tap is named by
/// its place, which counts from 0 in the order of the headers.
#[derive(Drop)]
pub struct Logs<'a> {
    keys: RandomState,
    taps: &'a [Tap],
    names: Places,
    stream_place: Option<usize>,
    stream: Stream<'a>,
    /// The node's log of each tap that is a node's.
    nodes: Vec<Option<NodeLog<'a>>>,
    own: Places,
}

impl<'a> Model for Logs<'a> {
    ghost use Rattle.aud_node.specs.Cluster.{Cluster, cluster_of};

    ghost Value = { Cluster };

    ghost use Rattle.aud_node.specs.Private.LogsIndex.{HoldsTaps};

    ghost view = { λ l. cluster_of l.taps.now };

    ghost invariant = { HoldsTaps };
}

impl<'a> Logs<'a> {
    /// The logs of the taps. Their texts are hashed with these keys.
    pub fn build(alloc: Global, keys: RandomState, taps: &'a Taps) -> Result<Logs<'a>, AllocError>
        ensures { IfOk result (λ logs. logs ≡ cluster_of taps.now) }
    {
        let taps = taps.as_slice();
        let entries = entries_of(taps);
        let recoverable = recoverable_of(alloc, &entries)?;
        let stream = Stream::build(alloc, keys, entries, recoverable)?;
        let nodes = nodes_of(alloc, keys, &stream, taps)?;
        Logs::of(alloc, keys, taps, stream, nodes)
    }

    /// The same in at most so many threads, which share out the nodes, the entries to be looked at for which are sent
    /// again after a recovery, and the indices of the stream: with 0 or 1 none is started. How many there are changes
    /// nothing in the logs.
    pub fn build_in_threads<H: Threads + Sync>(
        rt: &H,
        alloc: Global,
        keys: RandomState,
        threads: usize,
        taps: &'a Taps,
    ) -> Result<Logs<'a>, AllocError>
        ensures { IfOk result (λ logs. logs ≡ cluster_of taps.now) }
    {
        if threads < 2 {
            return Logs::build(alloc, keys, taps);
        }
        let taps = taps.as_slice();
        let entries = entries_of(taps);
        let recoverable = recoverable_in_threads(rt, alloc, threads, &entries)?;
        let stream = Stream::build_in_two(rt, alloc, keys, entries, recoverable)?;
        let all = Streamed { taps, stream };
        let nodes = nodes_in_threads(rt, alloc, keys, threads, &all)?;
        Logs::of(alloc, keys, taps, all.stream, nodes)
    }

    /// The logs of the taps, of which these are the stream and the nodes' logs.
    fn of(
        alloc: Global,
        keys: RandomState,
        taps: &'a [Tap],
        stream: Stream<'a>,
        nodes: Vec<Option<NodeLog<'a>>>,
    ) -> Result<Logs<'a>, AllocError>
        requires stream { stream ≡ stream_of taps.now }
        requires nodes { nodes.items ≡ map (node_tap stream) taps.now }
        ensures { IfOk result (λ logs. logs ≡ cluster_of taps.now) }
    {
        let names = taps_by_name(alloc, keys, taps)?;
        let own = nodes_by_pid(alloc, keys, &nodes)?;
        Ok(Logs {
            keys,
            taps,
            names,
            stream_place: place_of_stream(taps),
            stream,
            nodes,
            own,
        })
    }

    /// The keys with which texts are hashed here: for whoever hashes the same texts.
    pub fn keys(&self) -> RandomState {
        self.keys
    }

    /// The stream's entries, borrowed.
    pub fn stream(&self) -> &Stream<'a>
        ensures { result.now ≡ self.now.stream }
    {
        &self.stream
    }

    /// The taps in the order of their headers, borrowed.
    pub fn taps(&self) -> &'a [Tap]
        ensures { result.now ≡ self.now.taps }
    {
        self.taps
    }

    /// The place of the stream's tap; none where there is none.
    pub fn stream_place(&self) -> Option<usize>
        ensures { result ≡ stream_place self.now.taps }
    {
        self.stream_place
    }

    /// The place of the first tap with this name.
    pub fn place_of(&self, name: &str) -> Option<usize>
        ensures { result ≡ place_of self.now.taps name.now }
    {
        self.names.of(name).first().copied()
    }

    /// The log of the node whose tap is at this place; none where that tap is no node's.
    pub fn node(&self, place: usize) -> Option<&NodeLog<'a>>
        ensures { option_copied result ≡ node_at self.now place }
    {
        match self.nodes.get(place) {
            Some(node) => node.as_ref(),
            None => None,
        }
    }

    /// The places, ascending, of the nodes whose logs have records that name the pid.
    pub fn nodes_of(&self, pid: &str) -> &[usize]
        ensures { result.now ≡ own_places self.now pid.now }
    {
        self.own.of(pid)
    }

    /// How many sessions the nodes' records name.
    pub fn named_count(&self) -> usize
        ensures { result ≡ length (named_pids self.now.taps) }
    {
        self.own.len()
    }

    /// The pid of the session with this number, borrowed. These sessions count from 0 in the order in which records
    /// first name them: in the nodes' taps, in the order of their headers, and then of their records.
    pub fn named_pid(&self, number: usize) -> &str
        requires { number < length (named_pids self.now.taps) }
        ensures { slice_get (named_pids self.now.taps) number ≡ Some result.now }
    {
        self.own.text(number)
    }

    /// The records of the client's tap at this place, borrowed; none where that tap is no client's.
    pub fn client(&self, place: usize) -> Option<&'a [ClientRec]>
        ensures { option_map (λ recs. recs.now) result ≡ client_at self.now place }
    {
        match self.taps.get(place) {
            Some(tap) => client_recs(tap),
            None => None,
        }
    }
}

/// The place of the first stream tap.
fn place_of_stream(taps: &[Tap]) -> Option<usize>
    ensures { result ≡ stream_place taps.now }
{
    for (place, tap) in taps.iter().enumerate() {
        if let Records::Stream(_) = &tap.records {
            return Some(place);
        }
    }
    None
}

/// The entries of the first stream tap.
fn entries_of(taps: &[Tap]) -> Rest<'_, StreamRec>
    ensures { result ≡ stream_of taps.now }
{
    for tap in taps {
        if let Records::Stream(recs) = &tap.records {
            return Rest::all(recs);
        }
    }
    Rest::none()
}

/// The records, if the tap is a client's.
fn client_recs(tap: &Tap) -> Option<&[ClientRec]>
    ensures { option_map (λ recs. recs.now) result ≡ client_recs tap.now }
{
    match &tap.records {
        Records::Stream(_) => None,
        Records::Node(_) => None,
        Records::Client(recs) => Some(recs.as_slice()),
    }
}

/// The node's log of each tap that is a node's.
fn nodes_of<'a>(
    alloc: Global,
    keys: RandomState,
    stream: &Stream<'a>,
    taps: &'a [Tap],
) -> Result<Vec<Option<NodeLog<'a>>>, AllocError>
    ensures { IfOk result (λ nodes. nodes.items ≡ map (node_tap stream.now) taps.now) }
{
    let mut nodes = Vec::new(alloc);
    for tap in taps {
        nodes.push(node_of(alloc, keys, stream, tap)?)?;
    }
    Ok(nodes)
}

/// The taps, and the stream that their nodes take from.
#[derive(Drop)]
struct Streamed<'a> {
    taps: &'a [Tap],
    stream: Stream<'a>,
}

/// The node's log of each tap that is a node's, made in at most so many threads.
fn nodes_in_threads<'a, H: Threads + Sync>(
    rt: &H,
    alloc: Global,
    keys: RandomState,
    threads: usize,
    all: &Streamed<'a>,
) -> Result<Vec<Option<NodeLog<'a>>>, AllocError>
    ensures { IfOk result (λ nodes. nodes.items ≡ map (node_tap all.now.stream) all.now.taps.now) }
{
    let places = places_of_nodes(alloc, all.taps)?;
    let logs = try_map(
        rt,
        alloc,
        threads,
        places.as_slice(),
        |place: &usize| -> Result<Option<NodeLog<'_>>, AllocError>
            ensures { IfOk result (λ node. node
                ≡ node_in all.entry.now.stream all.entry.now.taps.now place.now) }
        { node_in(alloc, keys, all, *place) },
    )?;
    at_their_places(alloc, all, logs)
}

/// The logs at the places of their taps.
fn at_their_places<'a>(
    alloc: Global,
    all: &Streamed<'a>,
    logs: Vec<Option<NodeLog<'a>>>,
) -> Result<Vec<Option<NodeLog<'a>>>, AllocError>
    requires { logs.items ≡ map (node_in all.now.stream all.now.taps.now)
        (node_places_from all.now.taps.now 0 (length all.now.taps.now)) }
    ensures { IfOk result (λ nodes. nodes.items ≡ map (node_tap all.now.stream) all.now.taps.now) }
{
    let mut logs = logs.into_iter();
    let mut nodes = Vec::with_capacity(alloc, all.taps.len())?;
    for place in 0..all.taps.len() {
        if is_node(&all.taps[place]) {
            let Some(log) = logs.next() else {
                unreachable!()
            };
            nodes.push(log)?;
        } else {
            nodes.push(None)?;
        }
    }
    Ok(nodes)
}

/// The places, ascending, of the taps that are nodes'.
fn places_of_nodes(alloc: Global, taps: &[Tap]) -> Result<Vec<usize>, AllocError>
    ensures { IfOk result (λ places. places.items ≡ node_places_from taps.now 0 (length taps.now)) }
{
    let mut places = Vec::new(alloc);
    for place in 0..taps.len() {
        if is_node(&taps[place]) {
            places.push(place)?;
        }
    }
    Ok(places)
}

/// The log of the node whose tap is at the place; none where that tap is no node's.
fn node_in<'a>(
    alloc: Global,
    keys: RandomState,
    all: &Streamed<'a>,
    place: usize,
) -> Result<Option<NodeLog<'a>>, AllocError>
    ensures { IfOk result (λ node. node ≡ node_in all.now.stream all.now.taps.now place) }
{
    match all.taps.get(place) {
        Some(tap) => node_of(alloc, keys, &all.stream, tap),
        None => Ok(None),
    }
}

/// Whether the tap is a node's.
fn is_node(tap: &Tap) -> bool
    ensures { result ≡ is_node tap.now }
{
    match &tap.records {
        Records::Stream(_) => false,
        Records::Node(_) => true,
        Records::Client(_) => false,
    }
}

/// The node's log, if the tap is a node's.
fn node_of<'a>(
    alloc: Global,
    keys: RandomState,
    stream: &Stream<'a>,
    tap: &'a Tap,
) -> Result<Option<NodeLog<'a>>, AllocError>
    ensures { IfOk result (λ node. node ≡ node_tap stream.now tap.now) }
{
    match &tap.records {
        Records::Stream(_) => Ok(None),
        Records::Node(recs) => {
            make_room(alloc, recs.len().saturating_mul(RECORD_ROOM));
            Ok(Some(NodeLog::build(alloc, keys, stream, recs)?))
        }
        Records::Client(_) => Ok(None),
    }
}

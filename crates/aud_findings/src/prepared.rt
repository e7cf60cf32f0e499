//! What is read once of a recording for all its explanations.
ghost use Rattle.std.specs.Prelude.{◌≡◌, IfOk, IfSome, length, slice_set, true};
ghost use Rattle.std.specs.List.{AllZip};
ghost use Rattle.std.specs.Option.{option_copied};
ghost use Rattle.aud_base.specs.Lists.{numbers_from};
ghost use Rattle.aud_node.specs.Cluster.{Cluster};
ghost use Rattle.aud_rows.specs.ClientPlaces.{AreOf};
ghost use Rattle.aud_findings.specs.Prepared.{AreRead, IsPreparedOf, IsRead, tap_in};
ghost use Rattle.aud_findings.specs.Private.ReadTaps.{AreWanted, IsReadBy, held_places};

use crate::order::first_unordered;
use crate::orphan::orphan_at;
use aud_client::Recording;
use aud_rows::ClientPlaces;
use std::alloc::{AllocError, Global};

/// What the explanations of a recording are made from beside the recording: read once, whatever number of sessions is
/// explained.
#[derive(Drop)]
pub struct Prepared {
    /// What was read of each tap, by its place, which counts from 0 in the order of the headers.
    pub taps: Vec<PreparedTap>,
}

/// What was read of a tap.
#[derive(Drop)]
pub enum PreparedTap {
    /// Of a client's tap that was asked for: where its packets stand, and the number of its first stay that has events
    /// and whose reply, if there is one, names nobody.
    Client {
        places: ClientPlaces,
        orphan: Option<usize>,
    },
    /// Of another tap, where the orders of nodes were asked for: the number of its first record that is out of order,
    /// if it is a node's.
    Order {
        unordered: Option<usize>,
    },
    /// Nothing.
    Unread,
}

/// Where the packets of a client's tap stand, as they were prepared, or as they were read now.
#[derive(Drop)]
pub(crate) enum HeldTap<'p> {
    Kept(&'p ClientPlaces),
    Read(ClientPlaces),
}

impl HeldTap<'_> {
    /// Where they stand.
    pub fn places(&self) -> &ClientPlaces
        ensures { result.now ≡ held_places self.now }
    {
        match self {
            HeldTap::Kept(places) => *places,
            HeldTap::Read(places) => places,
        }
    }
}

impl Prepared {
    /// Reads the clients' taps at these places, in any order, and where `orders` is set the logs of the nodes. Of a
    /// client's tap it takes what the recording has kept: nothing is decoded.
    pub fn read(
        alloc: Global,
        recording: &Recording<'_>,
        places: &[usize],
        orders: bool,
    ) -> Result<Prepared, AllocError>
        ensures read { IfOk result (AreRead recording.now places.now orders) }
        ensures prepared { IfOk result (IsPreparedOf recording.now) }
    {
        let count = recording.logs().taps().len();
        let wanted = wanted_of(alloc, count, places)?;
        let taps = read_taps(alloc, recording, wanted.as_slice(), orders)?;
        Ok(Prepared { taps })
    }

    /// Where the packets of the client's tap at this place stand; none where that tap wasn't asked for.
    pub fn tap(&self, place: usize) -> Option<&ClientPlaces>
        ensures there { option_copied result ≡ tap_in self.now place }
        ensures is_of { (c : Cluster) → IsPreparedOf c self.now
            → IfSome result (λ tap. AreOf c tap.now × (tap.now.place ≡ place)) }
    {
        match self.taps.get(place) {
            Some(PreparedTap::Client { places, .. }) => Some(places),
            _ => None,
        }
    }
}

/// Where the packets of the client's tap at this place stand. A tap that wasn't prepared is read.
pub(crate) fn tap_at<'p>(
    alloc: Global,
    recording: &Recording<'_>,
    prepared: &'p Prepared,
    place: usize,
) -> Result<HeldTap<'p>, AllocError>
    requires { IsPreparedOf recording.now prepared.now }
    ensures is_of { IfOk result (λ tap. AreOf recording.now (held_places tap)) }
    ensures place { IfOk result (λ tap. (held_places tap).place ≡ place) }
{
    match prepared.tap(place) {
        Some(places) => Ok(HeldTap::Kept(places)),
        None => {
            let places = ClientPlaces::read(alloc, recording.logs(), place)?;
            Ok(HeldTap::Read(places))
        }
    }
}

/// Of each of so many places, whether it is one of these.
fn wanted_of(alloc: Global, count: usize, places: &[usize]) -> Result<Vec<bool>, AllocError>
    ensures { IfOk result (λ wanted. AreWanted count places.now wanted.items) }
{
    let mut wanted = vec![in alloc; false; count]?;
    for place in places {
        mark(&mut wanted, *place);
    }
    Ok(wanted)
}

/// The place is one of them, if it isn't past the end.
fn mark(wanted: &mut Vec<bool>, place: usize)
    ensures { wanted.new.items ≡ slice_set wanted.old.items place true }
{
    if place < wanted.len() {
        wanted[place] = true;
    }
}

/// What is read of each tap, where these are wanted.
fn read_taps(
    alloc: Global,
    recording: &Recording<'_>,
    wanted: &[bool],
    orders: bool,
) -> Result<Vec<PreparedTap>, AllocError>
    ensures { IfOk result (λ taps. AllZip (IsReadBy recording.now wanted.now orders)
        (numbers_from 0 (length wanted.now)) taps.items) }
{
    let mut taps = Vec::with_capacity(alloc, wanted.len())?;
    for (place, asked) in wanted.iter().enumerate() {
        let tap = read_tap(alloc, recording, *asked, orders, place)?;
        taps.push(tap)?;
    }
    Ok(taps)
}

/// What is read of the tap at this place, where it is asked for or isn't, and the orders of nodes are or aren't.
fn read_tap(
    alloc: Global,
    recording: &Recording<'_>,
    asked: bool,
    orders: bool,
    place: usize,
) -> Result<PreparedTap, AllocError>
    ensures { IfOk result (IsRead recording.now asked orders place) }
{
    if asked {
        let places = ClientPlaces::read(alloc, recording.logs(), place)?;
        let orphan = orphan_at(recording, place);
        return Ok(PreparedTap::Client { places, orphan });
    }
    if !orders {
        return Ok(PreparedTap::Unread);
    }
    Ok(PreparedTap::Order {
        unordered: first_unordered(recording.logs(), place),
    })
}

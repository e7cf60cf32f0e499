//! What a client's tap tells, as its records come.
ghost use Rattle.std.specs.Prelude.{◌≡◌, ◌≤◌, ◌+◌, ◌^◌, ◌<◌, ◌++◌, ◌∷◌, ℕ, List, [], IfOk, OnOk, flat_map, length, map};
ghost use Rattle.std.specs.Option.{option_or};
ghost use Rattle.aud_tap.specs.declared.records.ClientRec.{ClientRec};
ghost use Rattle.aud_client.specs.TapPackets.{FromServer, tap_packets, numbered_records, bad_in, first_of};
ghost use Rattle.aud_client.specs.StaySeen.{StaySeen};
ghost use Rattle.aud_client.specs.StayPlaces.{PlacesSeen, places_in, tap_places};
ghost use Rattle.aud_client.specs.Received.{stays_of, tap_stays};
ghost use Rattle.aud_client.specs.Private.ConnectionRead.{inside};
ghost use Rattle.aud_client.specs.Private.ClientRead.{begun, bad_of, cut_seen};
ghost use Rattle.aud_client.specs.Private.Told.{HasKept};
ghost use Rattle.aud_client.specs.Private.Kept.{Keeps};
ghost use Rattle.aud_client.specs.Private.Ahead.{StandsIn};
ghost use Rattle.aud_client.specs.PlacedStays.{PlacedPacket};
ghost use Rattle.aud_node.specs.Known.{spelled};

use crate::connection::{Placed, Reader, TapPacket, ends_connection};
use crate::stays::Stays;
use aud_node::{KnownEvent, Stream};
use aud_sio::Scratch;
use aud_tap::ClientRec;
use std::alloc::{AllocError, Global};

/// The events of so many records are looked up together: few enough that what is fetched for them stays near.
const AHEAD: usize = 256;

/// What the records so far tell.
#[derive(Drop)]
pub struct Told<'a> {
    pub stays: Stays<'a>,
    /// The first record that doesn't decode.
    pub bad: Option<usize>,
}

/// What the records tell, where this is the stream. The texts of its events aren't decoded.
pub fn told_by<'a>(
    alloc: Global,
    recs: &'a [ClientRec],
    stream: &Stream<'a>,
) -> Result<Told<'a>, AllocError>
    ensures stays { IfOk result (λ told. told.stays.stays.items ≡ tap_stays stream.now recs.now) }
    ensures places { IfOk result (λ told. told.stays.places.items
        ≡ tap_places stream.now recs.now) }
    ensures bad { IfOk result (λ told. told.bad ≡ (tap_packets recs.now).bad) }
{
    let mut scratch = Scratch::new(alloc);
    let mut told = Told {
        stays: Stays::new(alloc),
        bad: None,
    };
    for (number, rec) in recs.iter().enumerate() {
        told.take(
            alloc,
            &mut scratch,
            stream,
            number,
            rec,
            &recs[number + 1..],
        )?;
    }
    Ok(told)
}

impl<'a> Told<'a> {
    /// The record with this number, in front of these.
    fn take(
        &mut self,
        alloc: Global,
        scratch: &mut Scratch,
        stream: &Stream<'a>,
        number: usize,
        rec: &ClientRec,
        after: &'a [ClientRec],
    ) -> Result<(), AllocError>
        requires fits { number + 1 + length after.now < 2 ^ 64 }
        requires as_many { length self.old.stays.places.items ≡ length self.old.stays.stays.items }
        ensures stays { OnOk result (self.new.stays.stays.items
            ≡ self.old.stays.stays.items
            ++ flat_map (stays_of stream.now) (map cut_seen (begun number rec.now after.now))) }
        ensures places { OnOk result (self.new.stays.places.items
            ≡ self.old.stays.places.items
            ++ flat_map (places_in stream.now) (map cut_seen (begun number rec.now after.now))) }
        ensures bad { OnOk result (self.new.bad
            ≡ option_or self.old.bad (bad_of (begun number rec.now after.now))) }
    {
        match rec {
            ClientRec::Conn { c } => {
                self.connection(alloc, scratch, stream, *c, number + 1, after)
            }
            _ => Ok(()),
        }
    }

    /// A connection begins with these records, the first of which has this number.
    fn connection(
        &mut self,
        alloc: Global,
        scratch: &mut Scratch,
        stream: &Stream<'a>,
        c: u64,
        first: usize,
        recs: &'a [ClientRec],
    ) -> Result<(), AllocError>
        requires fits { first + length recs.now < 2 ^ 64 }
        requires as_many { length self.old.stays.places.items ≡ length self.old.stays.stays.items }
        ensures stays { OnOk result (self.new.stays.stays.items
            ≡ self.old.stays.stays.items
            ++ flat_map (stays_of stream.now)
            (cut_seen (c, numbered_records first (inside recs.now)) ∷ [])) }
        ensures places { OnOk result (self.new.stays.places.items
            ≡ self.old.stays.places.items
            ++ flat_map (places_in stream.now)
            (cut_seen (c, numbered_records first (inside recs.now)) ∷ [])) }
        ensures bad { OnOk result (self.new.bad
            ≡ option_or self.old.bad (first_of (bad_in (numbered_records first
            (inside recs.now))))) }
    {
        self.stays.begin_connection();
        let mut reader = Reader::new(alloc, Some(stream));
        read_records(
            &mut self.stays,
            &mut reader,
            scratch,
            stream,
            c,
            first,
            inside(recs),
        )?;
        self.bad = self.bad.or(reader.bad);
        Ok(())
    }
}

/// The records before the next `conn` or `lost`.
fn inside(recs: &[ClientRec]) -> &[ClientRec]
    ensures value { result.now ≡ inside recs.now }
    ensures short { length result.now ≤ length recs.now }
{
    for (i, rec) in recs.iter().enumerate() {
        if ends_connection(rec) {
            return &recs[..i];
        }
    }
    recs
}

/// All records of the connection, the first of which has this number.
fn read_records<'a>(
    stays: &mut Stays<'a>,
    reader: &mut Reader<'_, 'a>,
    scratch: &mut Scratch,
    stream: &Stream<'a>,
    c: u64,
    first: usize,
    recs: &'a [ClientRec],
) -> Result<(), AllocError>
    requires { first + length recs.now < 2 ^ 64 }
    ensures { (done : List StaySeen) (told : List PlacesSeen)
        → HasKept stream.now c first done told [] reader.old stays.old
        → OnOk result (HasKept stream.now c first done told
        recs.now reader.new stays.new) }
{
    let mut number = first;
    for some in recs.chunks(AHEAD) {
        read_some(stays, reader, scratch, stream, c, number, some)?;
        number += some.len();
    }
    Ok(())
}

/// The connection's next records, the first of which has this number. The events that they carry are looked up before.
fn read_some<'a>(
    stays: &mut Stays<'a>,
    reader: &mut Reader<'_, 'a>,
    scratch: &mut Scratch,
    stream: &Stream<'a>,
    c: u64,
    number: usize,
    some: &'a [ClientRec],
) -> Result<(), AllocError>
    requires { number + length some.now < 2 ^ 64 }
    ensures { (first : ℕ) (done : List StaySeen) (told : List PlacesSeen) (recs : List ClientRec)
        → number ≡ first + length recs
        → HasKept stream.now c first done told recs reader.old stays.old
        → OnOk result (HasKept stream.now c first done told
        (recs ++ some.now) reader.new stays.new) }
{
    let known = reader.known_in(stream, some)?;
    for (i, rec) in some.iter().enumerate() {
        match reader.at_rest(known[i]) {
            Some(event) => take_known(stays, scratch, stream, c, number + i, event)?,
            None => read_record(stays, reader, scratch, stream, c, number + i, rec)?,
        }
    }
    Ok(())
}

/// The connection's next record, which has this number and is known to carry this event of the stream: that goes into the
/// stays.
fn take_known<'a>(
    stays: &mut Stays<'a>,
    scratch: &mut Scratch,
    stream: &Stream<'_>,
    c: u64,
    number: usize,
    event: KnownEvent<'a>,
) -> Result<(), AllocError>
    requires { StandsIn stream.now event }
    ensures { (done : List StaySeen) (told : List PlacesSeen) (packets : List PlacedPacket)
        → Keeps stream.now c stays.old done told packets
        → OnOk result (Keeps stream.now c stays.new done told (packets
        ++ (number, FromServer (spelled event.entry.event.now.text)) ∷ [])) }
{
    let packet = TapPacket::Known(event);
    stays.take(scratch, stream, c, Placed { number, packet }, true)
}

/// The connection's next record, which has this number. The packets that are whole with it go into the stays.
fn read_record<'a>(
    stays: &mut Stays<'a>,
    reader: &mut Reader<'_, 'a>,
    scratch: &mut Scratch,
    stream: &Stream<'_>,
    c: u64,
    number: usize,
    rec: &'a ClientRec,
) -> Result<(), AllocError>
    ensures { (first : ℕ) (done : List StaySeen) (told : List PlacesSeen) (recs : List ClientRec)
        → number ≡ first + length recs
        → HasKept stream.now c first done told recs reader.old stays.old
        → OnOk result (HasKept stream.now c first done told
        (recs ++ rec.now ∷ []) reader.new stays.new) }
{
    reader.read(scratch, number, rec)?;
    stays.packets(scratch, stream, c, reader.take_packets())
}

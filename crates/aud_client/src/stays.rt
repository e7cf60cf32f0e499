//! The stays of a tap, as its packets come.
ghost use Rattle.std.specs.Prelude.{◌≡◌, ℕ, ◌++◌, ◌∷◌, List, [], IfOk, IfSome, OnOk, length, map, None, Some, slice_get, set, true};
ghost use Rattle.std.specs.Option.{option_and_then};
ghost use Rattle.aud_tap.specs.declared.records.StreamRec.{StreamRec};
ghost use Rattle.aud_client.specs.Seen.{packet_seen, placed_seen};
ghost use Rattle.aud_client.specs.Stays.{is_connect, is_disconnect, namespace, packet_in};
ghost use Rattle.aud_sio.specs.Packet.{packet_view};
ghost use Rattle.aud_client.specs.StaySeen.{StaySeen};
ghost use Rattle.aud_client.specs.PlacedStays.{PlacedPacket};
ghost use Rattle.aud_client.specs.StayPlaces.{PlacesSeen};
ghost use Rattle.aud_node.specs.Recoverable.{is_event};
ghost use Rattle.aud_client.specs.Private.Ahead.{IsFoundIn};
ghost use Rattle.aud_client.specs.Private.Kept.{Keeps, BeginsAt, GoesOn, open_at, place_for, unless_replied, empty_stay, grown, no_places, grown_places, part_of, with_part};

use crate::connection::{Placed, TapPacket};
use crate::part::Part;
use crate::stay::Stay;
use crate::stay_places::{StayPlaces, in_four_bytes};
use aud_node::Stream;
use aud_sio::{Packet, PacketKind, Scratch};
use std::alloc::{AllocError, Global};
use std::collections::BTreeMap;

/// The stays so far with their records, and for each namespace of the connection the place of the stay that goes on.
#[derive(Drop)]
pub struct Stays<'a> {
    alloc: Global,
    stays: Vec<Stay<'a>>,
    /// Of each stay.
    places: Vec<StayPlaces>,
    open: BTreeMap<&'a str, usize>,
}

impl<'a> Stays<'a> {
    /// No stay.
    pub fn new(alloc: Global) -> Stays<'a>
        ensures stays { result.stays.items ≡ [] }
        ensures places { result.places.items ≡ [] }
    {
        Stays {
            alloc,
            stays: Vec::new(alloc),
            places: Vec::new(alloc),
            open: BTreeMap::new(alloc),
        }
    }

    /// The stays, in the order of their first packets, and their records.
    pub fn into_parts(self) -> (Vec<Stay<'a>>, Vec<StayPlaces>)
        ensures stays { result.0.items ≡ self.entry.stays.items }
        ensures places { result.1.items ≡ self.entry.places.items }
    {
        let Stays { stays, places, .. } = self;
        (stays, places)
    }

    /// No stay goes on.
    pub fn begin_connection(&mut self)
        requires { length self.old.places.items ≡ length self.old.stays.items }
        ensures { (stream : List StreamRec) (c : ℕ)
            → Keeps stream c self.new self.old.stays.items self.old.places.items [] }
    {
        self.open.clear();
    }

    /// The next packets of the connection with this number. Payloads are read with this memory.
    pub fn packets(
        &mut self,
        scratch: &mut Scratch,
        stream: &Stream<'_>,
        c: u64,
        packets: Vec<Placed<'a>>,
    ) -> Result<(), AllocError>
        ensures { (done : List StaySeen) (told : List PlacesSeen) (before : List PlacedPacket)
            → Keeps stream.now c self.old done told before
            → OnOk result (Keeps stream.now c self.new done told (before
            ++ map placed_seen packets.entry.items)) }
    {
        for placed in packets {
            self.take(scratch, stream, c, placed, false)?;
        }
        Ok(())
    }

    /// The next packet of the connection with this number. Where it is said to be `here`, a known event is this stream's.
    /// Payloads are read with this memory.
    pub fn take(
        &mut self,
        scratch: &mut Scratch,
        stream: &Stream<'_>,
        c: u64,
        placed: Placed<'a>,
        here: bool,
    ) -> Result<(), AllocError>
        requires { here ≡ true → IsFoundIn stream.now placed.packet }
        ensures { (done : List StaySeen) (told : List PlacesSeen) (packets : List PlacedPacket)
            → Keeps stream.now c self.old done told packets
            → OnOk result (Keeps stream.now c self.new done told (packets
            ++ placed_seen placed.entry ∷ [])) }
    {
        match self.place_for(&placed.packet) {
            Some(place) => self.go_on(scratch, stream, place, placed, here),
            None => self.begin(scratch, stream, c, placed, here),
        }
    }

    /// The place of the stay that the packet goes on with.
    fn place_for(&self, packet: &TapPacket<'_>) -> Option<usize>
        ensures { result ≡ place_for self.now (packet_seen packet.now) }
    {
        let place = self.open.get(namespace(packet))?;
        self.unless_replied(*place, packet)
    }

    /// The place, unless the packet is a CONNECT and the stay there has a reply.
    fn unless_replied(&self, place: usize, packet: &TapPacket<'_>) -> Option<usize>
        ensures { result ≡ option_and_then (unless_replied (packet_seen packet.now) place)
            (slice_get self.now.stays.items place) }
    {
        let stay = self.stays.get(place)?;
        if is_connect(packet) && stay.reply.is_some() {
            None
        } else {
            Some(place)
        }
    }

    /// The packet begins a stay.
    fn begin(
        &mut self,
        scratch: &mut Scratch,
        stream: &Stream<'_>,
        c: u64,
        placed: Placed<'a>,
        here: bool,
    ) -> Result<(), AllocError>
        requires { here ≡ true → IsFoundIn stream.now placed.packet }
        ensures stays { OnOk result (self.new.stays.items
            ≡ self.old.stays.items
            ++ grown stream.now (empty_stay c (namespace (packet_seen placed.entry.packet)))
            (packet_seen placed.entry.packet) ∷ []) }
        ensures places { length self.old.places.items ≡ length self.old.stays.items
            → OnOk result (self.new.places.items
            ≡ self.old.places.items ++ grown_places stream.now (no_places placed.entry.number)
            (placed_seen placed.entry) ∷ []) }
        ensures open { OnOk result (BeginsAt (packet_seen placed.entry.packet)
            (length self.old.stays.items) self.old self.new) }
    {
        let place = self.stays.len();
        self.open_stay(c, &placed)?;
        self.grow(scratch, stream, place, placed, here)
    }

    /// A stay in the packet's namespace comes after the others. It goes on, unless the packet ends it.
    fn open_stay(&mut self, c: u64, placed: &Placed<'a>) -> Result<(), AllocError>
        ensures stays { OnOk result (self.new.stays.items
            ≡ self.old.stays.items
            ++ empty_stay c (namespace (packet_seen placed.now.packet)) ∷ []) }
        ensures places { OnOk result (self.new.places.items
            ≡ self.old.places.items ++ no_places placed.now.number ∷ []) }
        ensures open { OnOk result (BeginsAt (packet_seen placed.now.packet)
            (length self.old.stays.items) self.old self.new) }
    {
        let place = self.stays.len();
        let first = in_four_bytes(placed.number)?;
        self.mark(&placed.packet, place)?;
        self.stays
            .push(Stay::new(self.alloc, c, namespace(&placed.packet)))?;
        self.places.push(StayPlaces::new(self.alloc, first))?;
        Ok(())
    }

    /// The stay at the place goes on in the packet's namespace, unless the packet ends it.
    fn mark(&mut self, packet: &TapPacket<'a>, place: usize) -> Result<(), AllocError>
        ensures stays { self.new.stays.items ≡ self.old.stays.items }
        ensures places { self.new.places.items ≡ self.old.places.items }
        ensures open { OnOk result (BeginsAt (packet_seen packet.now) place self.old self.new) }
    {
        let nsp = namespace(packet);
        if is_disconnect(packet) {
            self.open.remove(nsp);
        } else {
            self.open.insert(nsp, place)?;
        }
        Ok(())
    }

    /// The packet goes on with the stay at the place.
    fn go_on(
        &mut self,
        scratch: &mut Scratch,
        stream: &Stream<'_>,
        place: usize,
        placed: Placed<'a>,
        here: bool,
    ) -> Result<(), AllocError>
        requires { here ≡ true → IsFoundIn stream.now placed.packet }
        ensures stays { (s : StaySeen) → slice_get self.old.stays.items place ≡ Some s
            → OnOk result (self.new.stays.items
            ≡ set self.old.stays.items place (grown stream.now s
            (packet_seen placed.entry.packet))) }
        ensures places { (s : StaySeen) (t : PlacesSeen)
            → slice_get self.old.stays.items place ≡ Some s
            → slice_get self.old.places.items place ≡ Some t
            → OnOk result (self.new.places.items
            ≡ set self.old.places.items place (grown_places stream.now t
            (placed_seen placed.entry))) }
        ensures open { OnOk result (GoesOn (packet_seen placed.entry.packet) self.old self.new) }
    {
        self.end(&placed.packet);
        self.grow(scratch, stream, place, placed, here)
    }

    /// The stay that goes on in the packet's namespace does so no more, if the packet ends it.
    fn end(&mut self, packet: &TapPacket<'_>)
        ensures stays { self.new.stays.items ≡ self.old.stays.items }
        ensures places { self.new.places.items ≡ self.old.places.items }
        ensures open { GoesOn (packet_seen packet.now) self.old self.new }
    {
        if is_disconnect(packet) {
            self.open.remove(namespace(packet));
        }
    }

    /// The stay at the place has the packet too, and its records that of the packet.
    fn grow(
        &mut self,
        scratch: &mut Scratch,
        stream: &Stream<'_>,
        place: usize,
        placed: Placed<'a>,
        here: bool,
    ) -> Result<(), AllocError>
        requires { here ≡ true → IsFoundIn stream.now placed.packet }
        ensures stays { (s : StaySeen) → slice_get self.old.stays.items place ≡ Some s
            → OnOk result (self.new.stays.items
            ≡ set self.old.stays.items place (grown stream.now s
            (packet_seen placed.entry.packet))) }
        ensures places { (s : StaySeen) (t : PlacesSeen)
            → slice_get self.old.stays.items place ≡ Some s
            → slice_get self.old.places.items place ≡ Some t
            → OnOk result (self.new.places.items
            ≡ set self.old.places.items place (grown_places stream.now t
            (placed_seen placed.entry))) }
        ensures open { (n : List ℕ) → open_at self.new n ≡ open_at self.old n }
    {
        let Placed { number, packet } = placed;
        let short = in_four_bytes(number)?;
        let part = self.add(scratch, stream, place, packet, here)?;
        self.note(place, short, part)
    }

    /// The stay at the place has the packet too; gives what it is to the stay.
    fn add(
        &mut self,
        scratch: &mut Scratch,
        stream: &Stream<'_>,
        place: usize,
        packet: TapPacket<'a>,
        here: bool,
    ) -> Result<Part, AllocError>
        requires { here ≡ true → IsFoundIn stream.now packet }
        ensures stays { (s : StaySeen) → slice_get self.old.stays.items place ≡ Some s
            → OnOk result (self.new.stays.items
            ≡ set self.old.stays.items place (grown stream.now s (packet_seen packet.entry))) }
        ensures part { (s : StaySeen) → slice_get self.old.stays.items place ≡ Some s
            → IfOk result (λ part. part ≡ part_of stream.now (packet_seen packet.entry)) }
        ensures places { self.new.places.items ≡ self.old.places.items }
        ensures open { (n : List ℕ) → open_at self.new n ≡ open_at self.old n }
    {
        match self.stays.get_mut(place) {
            Some(stay) => stay.add(self.alloc, scratch, stream, packet, here),
            None => Ok(Part::Other),
        }
    }

    /// The records of the stay at the place have this number too, of a packet that is this to the stay.
    fn note(&mut self, place: usize, number: u32, part: Part) -> Result<(), AllocError>
        ensures places { (t : PlacesSeen) → slice_get self.old.places.items place ≡ Some t
            → OnOk result (self.new.places.items
            ≡ set self.old.places.items place (with_part t number part)) }
        ensures stays { self.new.stays.items ≡ self.old.stays.items }
        ensures open { (n : List ℕ) → open_at self.new n ≡ open_at self.old n }
    {
        match self.places.get_mut(place) {
            Some(places) => places.add(number, part),
            None => Ok(()),
        }
    }
}

/// The packet itself, without its attachments and its way; none where it is a known event, which wasn't decoded.
fn packet_in<'a, 'b>(packet: &'b TapPacket<'a>) -> Option<&'b Packet<'a>>
    ensures decoded { IfSome result (λ it. packet_view it.now
        ≡ packet_in (packet_seen packet.now)) }
    ensures known { result ≡ None → is_event (packet_in (packet_seen packet.now)).kind ≡ true }
{
    match packet {
        TapPacket::FromServer(whole) => Some(&whole.packet),
        TapPacket::Known(_) => None,
        TapPacket::FromClient(packet) => Some(packet),
    }
}

/// The packet's namespace, borrowed from the taps' records.
fn namespace<'a>(packet: &TapPacket<'a>) -> &'a str
    ensures { result.now ≡ namespace (packet_seen packet.now) }
{
    match packet {
        TapPacket::FromServer(whole) => whole.packet.nsp,
        TapPacket::Known(known) => known.event.nsp.as_str(),
        TapPacket::FromClient(packet) => packet.nsp,
    }
}

/// Whether the packet is a CONNECT, in either direction.
fn is_connect(packet: &TapPacket<'_>) -> bool
    ensures { result ≡ is_connect (packet_seen packet.now) }
{
    match packet_in(packet) {
        Some(packet) => matches!(packet.kind, PacketKind::Connect),
        None => false,
    }
}

/// Whether the packet is a DISCONNECT, in either direction.
fn is_disconnect(packet: &TapPacket<'_>) -> bool
    ensures { result ≡ is_disconnect (packet_seen packet.now) }
{
    match packet_in(packet) {
        Some(packet) => matches!(packet.kind, PacketKind::Disconnect),
        None => false,
    }
}

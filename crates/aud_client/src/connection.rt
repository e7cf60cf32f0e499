//! The packets of one connection of a client.
ghost use Rattle.std.specs.Prelude.{◌≡◌, ◌+◌, ◌^◌, ◌<◌, ◌++◌, ◌∷◌, [], IfOk, IfSome, OnOk, OnSome, Some, None, true, flat_map, length, map};
ghost use Rattle.aud_eio.specs.Packet.{engine_view, engine_packet_of};
ghost use Rattle.aud_eio.specs.Body.{engine_packets_of};
ghost use Rattle.aud_sio.specs.Message.{Text, messages_of, at};
ghost use Rattle.aud_sio.specs.Packet.{packet_of};
ghost use Rattle.aud_client.specs.TapPackets.{is_connection_kind, one_of, client_packet, client_packet_in};
ghost use Rattle.std.specs.List.{AllZip};
ghost use Rattle.aud_client.specs.Private.Ahead.{Carries};
ghost use Rattle.aud_client.specs.Private.ConnectionRead.{HasRead, ReadsRecord, ReadsEngine, Reads, ends_connection, inside, sent_seen, packets_read, bad_or};
ghost use Rattle.aud_client.specs.Seen.{packet_seen, placed_seen};

use crate::ahead::known_in;
use aud_eio::{Eio, EioFault, decode_binary, decode_payload, decode_text};
use aud_node::{KnownEvent, Stream};
use aud_sio::{Assembler, Packet, PacketKind, Scratch, SioFault, Whole, decode_with};
use aud_tap::ClientRec;
use std::alloc::{AllocError, Global};
use std::mem::replace;

/// A packet of a connection.
#[derive(Drop)]
pub enum TapPacket<'a> {
    /// From the server, with its attachments.
    FromServer(Whole<'a>),
    /// From the server, without attachments: its text is that of an event of the stream, and isn't decoded again.
    Known(KnownEvent<'a>),
    /// A CONNECT or a DISCONNECT of the client.
    FromClient(Packet<'a>),
}

/// A packet at its record: the one that its last attachment came with.
#[derive(Drop)]
pub struct Placed<'a> {
    /// The record's number in its tap, from 0.
    pub number: usize,
    pub packet: TapPacket<'a>,
}

/// What the records of a connection gave so far.
#[derive(Drop)]
pub struct Reader<'s, 'a> {
    alloc: Global,
    /// Whose events are known by their texts.
    stream: Option<&'s Stream<'a>>,
    assembler: Assembler<'a>,
    pub packets: Vec<Placed<'a>>,
    /// The first record that doesn't decode.
    pub bad: Option<usize>,
}

impl<'s, 'a> Reader<'s, 'a> {
    /// No record was read yet. The events of this stream are known by their texts, if there is one.
    pub fn new(alloc: Global, stream: Option<&'s Stream<'a>>) -> Reader<'s, 'a>
        ensures assembler { result.assembler ≡ [] }
        ensures packets { packets_read result ≡ [] }
        ensures bad { result.bad ≡ None }
    {
        Reader {
            alloc,
            stream,
            assembler: Assembler::new(alloc),
            packets: Vec::new(alloc),
            bad: None,
        }
    }

    /// Of each record the event of this stream that it carries as its text alone, where one is known by it.
    pub fn known_in(
        &self,
        stream: &Stream<'a>,
        recs: &[ClientRec],
    ) -> Result<Vec<Option<KnownEvent<'a>>>, AllocError>
        ensures { IfOk result (λ known. AllZip (Carries stream.now) recs.now known.items) }
    {
        known_in(self.alloc, stream, recs)
    }

    /// The event that is known of a record, if no attachment is awaited: it is then all that the record gives.
    pub fn at_rest(&self, known: Option<KnownEvent<'a>>) -> Option<KnownEvent<'a>>
        ensures known { OnSome result (result ≡ known.entry) }
        ensures rest { OnSome result (self.now.assembler ≡ []) }
    {
        if self.assembler.is_at_rest() {
            known
        } else {
            None
        }
    }

    /// The packets that were read, of which none is held after that.
    pub fn take_packets(&mut self) -> Vec<Placed<'a>>
        ensures packets { map placed_seen result.items ≡ packets_read self.old }
        ensures rest { packets_read self.new ≡ [] }
        ensures assembler { self.new.assembler ≡ self.old.assembler }
        ensures bad { self.new.bad ≡ self.old.bad }
    {
        replace(&mut self.packets, Vec::new(self.alloc))
    }

    /// The packets that were read.
    pub fn into_packets(self) -> Vec<Placed<'a>>
        ensures { result.items ≡ self.entry.packets.items }
    {
        let Reader { packets, .. } = self;
        packets
    }

    /// The connection's records, the first of which has this number: up to the next `conn` or `lost`. Payloads are read
    /// with this memory.
    pub fn read_all(
        &mut self,
        scratch: &mut Scratch,
        first: usize,
        recs: &'a [ClientRec],
    ) -> Result<(), AllocError>
        requires { first + length recs.now < 2 ^ 64 }
        ensures { HasRead first [] self.old
            → OnOk result (HasRead first (inside recs.now) self.new) }
    {
        for (i, rec) in recs.iter().enumerate() {
            if ends_connection(rec) {
                return Ok(());
            }
            self.read(scratch, first + i, rec)?;
        }
        Ok(())
    }

    /// The connection's next record, which has this number. Payloads are read with this memory.
    pub fn read(
        &mut self,
        scratch: &mut Scratch,
        number: usize,
        rec: &'a ClientRec,
    ) -> Result<(), AllocError>
        ensures { OnOk result (ReadsRecord number rec.now self.old self.new) }
    {
        match rec {
            ClientRec::TextIn { t } => self.read_text(scratch, number, t.as_str()),
            ClientRec::BytesIn { b } => self.receive(scratch, number, decode_binary(b.as_slice())),
            ClientRec::Poll { t } => self.read_body(scratch, number, t.as_str()),
            ClientRec::TextOut { t } => self.read_sent(scratch, number, t.as_str()),
            ClientRec::Conn { .. } => Ok(()),
            ClientRec::Lost => Ok(()),
        }
    }

    /// A text message from the server. Whether it is known was asked before ([`known_in`](Reader::known_in)).
    fn read_text(
        &mut self,
        scratch: &mut Scratch,
        number: usize,
        text: &'a str,
    ) -> Result<(), AllocError>
        ensures { OnOk result (ReadsEngine number
            (one_of (engine_packet_of text.now)) self.old self.new) }
    {
        match decode_text(self.alloc, text) {
            Ok(packet) => self.feed(scratch, number, packet),
            Err(EioFault::Memory) => Err(AllocError),
            Err(_) => {
                self.refuse(number);
                Ok(())
            }
        }
    }

    /// A polling body from the server.
    fn read_body(
        &mut self,
        scratch: &mut Scratch,
        number: usize,
        body: &'a str,
    ) -> Result<(), AllocError>
        ensures { OnOk result (ReadsEngine number (engine_packets_of body.now) self.old self.new) }
    {
        match decode_payload(self.alloc, body) {
            Ok(packets) => self.receive_all(scratch, number, packets),
            Err(EioFault::Memory) => Err(AllocError),
            Err(_) => {
                self.refuse(number);
                Ok(())
            }
        }
    }

    /// Engine.IO packets of one record.
    fn receive_all(
        &mut self,
        scratch: &mut Scratch,
        number: usize,
        packets: Vec<Eio<'a>>,
    ) -> Result<(), AllocError>
        ensures { OnOk result (Reads number
            (flat_map messages_of (map engine_view packets.entry.items)) self.old self.new) }
    {
        for packet in packets {
            self.receive(scratch, number, packet)?;
        }
        Ok(())
    }

    /// An Engine.IO packet from the server. The text of a known event isn't decoded.
    fn receive(
        &mut self,
        scratch: &mut Scratch,
        number: usize,
        packet: Eio<'a>,
    ) -> Result<(), AllocError>
        ensures { OnOk result (Reads number
            (messages_of (engine_view packet.entry)) self.old self.new) }
    {
        match self.known(&packet) {
            Some(known) => self.place(number, TapPacket::Known(known)),
            None => self.feed(scratch, number, packet),
        }
    }

    /// The event whose text the packet carries, where one is known by it and no attachment is awaited.
    fn known(&self, packet: &Eio<'_>) -> Option<KnownEvent<'a>>
        ensures rest { OnSome result (self.now.assembler ≡ []) }
        ensures text { IfSome result (λ known. messages_of (engine_view packet.now)
            ≡ Text known.event.now.text ∷ []) }
    {
        if !self.assembler.is_at_rest() {
            return None;
        }
        match packet {
            Eio::Message(text) => known(self.stream?, text),
            _ => None,
        }
    }

    /// An Engine.IO packet from the server, to be decoded.
    fn feed(
        &mut self,
        scratch: &mut Scratch,
        number: usize,
        packet: Eio<'a>,
    ) -> Result<(), AllocError>
        ensures { OnOk result (Reads number
            (messages_of (engine_view packet.entry)) self.old self.new) }
    {
        match self.assembler.feed_with(scratch, packet) {
            Ok(Some(whole)) => self.place(number, TapPacket::FromServer(whole)),
            Ok(None) => Ok(()),
            Err(fault) => self.refuse_packet(number, fault),
        }
    }

    /// The record gave this refusal, unless memory ran out.
    fn refuse_packet(&mut self, number: usize, fault: SioFault) -> Result<(), AllocError>
        ensures memory { OnOk result (¬ (fault ≡ SioFault.Memory)) }
        ensures packets { packets_read self.new ≡ packets_read self.old }
        ensures assembler { self.new.assembler ≡ self.old.assembler }
        ensures bad { OnOk result (self.new.bad ≡ bad_or self.old.bad number true) }
    {
        match fault {
            SioFault::Memory => Err(AllocError),
            _ => {
                self.refuse(number);
                Ok(())
            }
        }
    }

    /// The text of an Engine.IO packet of the client: all but a CONNECT or a DISCONNECT is read past.
    fn read_sent(
        &mut self,
        scratch: &mut Scratch,
        number: usize,
        text: &'a str,
    ) -> Result<(), AllocError>
        ensures packets { OnOk result (packets_read self.new
            ≡ packets_read self.old ++ at number (client_packet_in (engine_packet_of text.now))) }
        ensures assembler { self.new.assembler ≡ self.old.assembler }
        ensures bad { self.new.bad ≡ self.old.bad }
    {
        match sent(self.alloc, scratch, text)? {
            Some(packet) => self.place(number, TapPacket::FromClient(packet)),
            None => Ok(()),
        }
    }

    fn place(&mut self, number: usize, packet: TapPacket<'a>) -> Result<(), AllocError>
        ensures packets { OnOk result (packets_read self.new
            ≡ packets_read self.old ++ (number, packet_seen packet.entry) ∷ []) }
        ensures assembler { self.new.assembler ≡ self.old.assembler }
        ensures bad { self.new.bad ≡ self.old.bad }
    {
        self.packets.push(Placed { number, packet })?;
        Ok(())
    }

    /// The record doesn't decode.
    fn refuse(&mut self, number: usize)
        ensures packets { packets_read self.new ≡ packets_read self.old }
        ensures assembler { self.new.assembler ≡ self.old.assembler }
        ensures bad { self.new.bad ≡ bad_or self.old.bad number true }
    {
        if self.bad.is_none() {
            self.bad = Some(number);
        }
    }
}

/// The event of this text, where one is known by it.
fn known<'a>(stream: &Stream<'a>, text: &str) -> Option<KnownEvent<'a>>
    ensures { IfSome result (λ known. known.event.now.text ≡ text.now) }
{
    stream.known(text, stream.guess(text))
}

/// Whether the record ends the connection before it.
pub fn ends_connection(rec: &ClientRec) -> bool
    ensures { result ≡ ends_connection rec.now }
{
    matches!(rec, ClientRec::Conn { .. } | ClientRec::Lost)
}

/// The CONNECT or DISCONNECT that an Engine.IO packet of the client carries.
fn sent<'a>(
    alloc: Global,
    scratch: &mut Scratch,
    text: &'a str,
) -> Result<Option<Packet<'a>>, AllocError>
    ensures { IfOk result (λ sent. sent_seen sent ≡ client_packet_in (engine_packet_of text.now)) }
{
    match decode_text(alloc, text) {
        Ok(Eio::Message(message)) => sent_packet(alloc, scratch, message),
        Err(EioFault::Memory) => Err(AllocError),
        _ => Ok(None),
    }
}

/// The packet of a message, if it is a CONNECT or a DISCONNECT.
fn sent_packet<'a>(
    alloc: Global,
    scratch: &mut Scratch,
    message: &'a str,
) -> Result<Option<Packet<'a>>, AllocError>
    ensures { IfOk result (λ sent. sent_seen sent ≡ client_packet (packet_of message.now)) }
{
    match decode_with(alloc, scratch, message) {
        Ok(packet) if is_connection_kind(packet.kind) => Ok(Some(packet)),
        Err(SioFault::Memory) => Err(AllocError),
        _ => Ok(None),
    }
}

/// Whether the kind is one that a client's tap is asked for.
fn is_connection_kind(kind: PacketKind) -> bool
    ensures { result ≡ is_connection_kind kind }
{
    match kind {
        PacketKind::Connect | PacketKind::Disconnect => true,
        _ => false,
    }
}

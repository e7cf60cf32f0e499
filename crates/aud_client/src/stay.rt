//! A stay of a client in a namespace.
ghost use Rattle.std.specs.Prelude.{◌≡◌, ◌++◌, ◌||◌, List, [], IfOk, OnOk, true};
ghost use Rattle.std.specs.List.{cons_option};
ghost use Rattle.std.specs.Option.{option_copied};
ghost use Rattle.aud_tap.specs.declared.records.StreamRec.{StreamRec};
ghost use Rattle.aud_sio.specs.Packet.{packet_view};
ghost use Rattle.aud_sio.specs.Assembly.{whole_view};
ghost use Rattle.aud_client.specs.TapPackets.{FromServer, FromClient};
ghost use Rattle.aud_client.specs.Seen.{packet_seen};
ghost use Rattle.aud_client.specs.Replies.{is_this};
ghost use Rattle.aud_client.specs.Received.{stay_names_pid, is_recovered};
ghost use Rattle.aud_client.specs.StaySeen.{frame_of};
ghost use Rattle.aud_client.specs.Private.Ahead.{IsFoundIn, StandsIn};
ghost use Rattle.aud_client.specs.Private.Kept.{empty_stay, frame_part, grown, part_of, with_frame};
ghost use Rattle.aud_node.specs.Known.{spelled};

use crate::asked::{Asked, asked_in};
use crate::connection::TapPacket;
use crate::frame::{Frame, frame_of, is_altered, is_known_altered, known_frame};
use crate::part::Part;
use crate::replies::{Reply, reply_with};
use aud_node::{KnownEvent, Stream};
use aud_sio::{Packet, Scratch, Whole};
use aud_tap::Text;
use std::alloc::{AllocError, Global};
use std::marker::Model;

/// What the packets of one stay tell: one connection of a client to a namespace, from its first packet to a
/// DISCONNECT, to the CONNECT that begins the next one, or to the end of the connection that carries it.
#[derive(Drop)]
pub struct Stay<'a> {
    /// The number that the tap gave the connection.
    pub c: u64,
    pub nsp: &'a str,
    /// The server's answer to the CONNECT, if it came.
    pub reply: Option<Reply>,
    /// What the last CONNECT before the reply asked for, of those that asked.
    pub asked: Option<Asked>,
    /// The events of the stream that came, before the reply or after it, in the order in which they were whole.
    pub frames: Vec<Frame<'a>>,
    /// Whether one of them isn't the entry at its position.
    pub altered: bool,
}

impl<'a> Model for Stay<'a> {
    ghost use Rattle.aud_client.specs.StaySeen.{StaySeen};

    ghost Value = { StaySeen };

    ghost view = { λ s. record { c = s.c; nsp = s.nsp.now; reply = s.reply; asked = s.asked; frames = s.frames.items; altered = s.altered } };
}

impl<'a> Stay<'a> {
    /// Whether the reply names the session.
    pub fn names(&self, pid: &str) -> bool
        ensures { result ≡ stay_names_pid pid.now self.now }
    {
        match self.reply.as_ref() {
            Some(reply) => is_this(reply.pid.as_ref(), pid),
            None => false,
        }
    }

    /// Whether the reply names the session that was asked for.
    pub fn is_recovered(&self) -> bool
        ensures { result ≡ is_recovered self.now }
    {
        match self.asked.as_ref() {
            Some(asked) => self.names(asked.pid.as_str()),
            None => false,
        }
    }

    /// A stay without packets, in the connection with this number.
    pub(crate) fn new(alloc: Global, c: u64, nsp: &'a str) -> Stay<'a>
        ensures { result ≡ empty_stay c nsp.now }
    {
        Stay {
            c,
            nsp,
            reply: None,
            asked: None,
            frames: Vec::new(alloc),
            altered: false,
        }
    }

    /// One packet more; gives what it is to the stay. Where it is said to be `here`, a known event is this stream's.
    pub(crate) fn add(
        &mut self,
        alloc: Global,
        scratch: &mut Scratch,
        stream: &Stream<'_>,
        packet: TapPacket<'a>,
        here: bool,
    ) -> Result<Part, AllocError>
        requires { here ≡ true → IsFoundIn stream.now packet }
        ensures stay { OnOk result (self.new
            ≡ grown stream.now self.old (packet_seen packet.entry)) }
        ensures part { IfOk result (λ part. part ≡ part_of stream.now (packet_seen packet.entry)) }
    {
        match packet {
            TapPacket::FromServer(whole) => self.receive(alloc, scratch, stream, whole),
            TapPacket::Known(known) => self.keep_known(stream, &known, here),
            TapPacket::FromClient(packet) => self.ask(alloc, scratch, &packet),
        }
    }

    /// A packet of the server.
    fn receive(
        &mut self,
        alloc: Global,
        scratch: &mut Scratch,
        stream: &Stream<'_>,
        whole: Whole<'a>,
    ) -> Result<Part, AllocError>
        ensures stay { OnOk result (self.new
            ≡ grown stream.now self.old (FromServer (whole_view whole.entry))) }
        ensures part { IfOk result (λ part. part
            ≡ part_of stream.now (FromServer (whole_view whole.entry))) }
    {
        match reply_with(alloc, scratch, &whole)? {
            Some(reply) => {
                self.reply = Some(reply);
                Ok(Part::Reply)
            }
            None => self.keep_decoded(alloc, stream, whole),
        }
    }

    /// A packet that was decoded, and is no reply. Its bytes are at hand: the frame is compared with its entry.
    fn keep_decoded(
        &mut self,
        alloc: Global,
        stream: &Stream<'_>,
        whole: Whole<'a>,
    ) -> Result<Part, AllocError>
        ensures stay { OnOk result (self.new
            ≡ with_frame stream.now self.old
            (frame_of stream.now (FromServer (whole_view whole.entry)))) }
        ensures part { IfOk result (λ is. is
            ≡ frame_part (frame_of stream.now (FromServer (whole_view whole.entry)))) }
    {
        let frame = frame_of(alloc, stream, whole)?;
        let altered = is_altered(stream, frame.as_ref());
        self.keep(frame, altered)
    }

    /// A known event, which is this stream's where it is said to be `here`.
    fn keep_known(
        &mut self,
        stream: &Stream<'_>,
        known: &KnownEvent<'a>,
        here: bool,
    ) -> Result<Part, AllocError>
        requires { here ≡ true → StandsIn stream.now known.now }
        ensures stay { OnOk result (self.new
            ≡ with_frame stream.now self.old
            (frame_of stream.now (FromServer (spelled known.now.event.now.text)))) }
        ensures part { IfOk result (λ is. is
            ≡ frame_part (frame_of stream.now (FromServer (spelled known.now.event.now.text)))) }
    {
        let frame = known_frame(stream, known);
        let altered = is_known_altered(stream, known, frame.as_ref(), here);
        self.keep(frame, altered)
    }

    /// The frame, if there is one, comes after the others. The flag says whether it isn't its entry.
    fn keep(&mut self, frame: Option<Frame<'a>>, altered: bool) -> Result<Part, AllocError>
        ensures stay { OnOk result (self.new
            ≡ record self.old {
              frames = self.old.frames ++ cons_option frame.entry [];
              altered = self.old.altered || altered;
            }) }
        ensures part { IfOk result (λ is. is ≡ frame_part frame.entry) }
    {
        self.altered = self.altered || altered;
        match frame {
            Some(frame) => {
                self.frames.push(frame)?;
                Ok(Part::Frame)
            }
            None => Ok(Part::Other),
        }
    }

    /// A packet of the client.
    fn ask(
        &mut self,
        alloc: Global,
        scratch: &mut Scratch,
        packet: &Packet<'_>,
    ) -> Result<Part, AllocError>
        ensures stay { (stream : List StreamRec)
            → OnOk result (self.new ≡ grown stream self.old (FromClient (packet_view packet.now))) }
        ensures part { (stream : List StreamRec)
            → IfOk result (λ part. part ≡ part_of stream (FromClient (packet_view packet.now))) }
    {
        match asked_in(alloc, scratch, packet)? {
            Some(asked) => {
                self.asked = Some(asked);
                Ok(Part::Ask)
            }
            None => Ok(Part::Other),
        }
    }
}

/// Whether there is a pid, and it is this one.
fn is_this(named: Option<&Text>, pid: &str) -> bool
    ensures { result ≡ is_this pid.now (option_copied named.entry) }
{
    match named {
        Some(named) => named.as_str() == pid,
        None => false,
    }
}

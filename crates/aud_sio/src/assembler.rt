//! Packets with their attachments, out of Engine.IO packets.
ghost use Rattle.std.specs.Prelude.{◌≡◌, ◌≤◌, ◌∷◌, ◌↔◌, [], length, Err, IfErr, IfOk, IsSome, IsTrue, true};
ghost use Rattle.aud_eio.specs.Packet.{engine_view};
ghost use Rattle.aud_sio.specs.Packet.{has_payload, packet_of, packet_view};
ghost use Rattle.aud_sio.specs.Message.{Text, Bytes, messages_of};
ghost use Rattle.aud_sio.specs.Assembly.{Feeds, Waits, takes_memory, blob_view, whole_view, messages_held, messages_of_whole, answer_of};
ghost use Rattle.aud_sio.specs.Private.Awaited.{KeepsAwaited};

use crate::fault::SioFault;
use crate::half::Half;
use crate::packet::decode_with;
use crate::whole::{Blob, Whole};
use aud_eio::Eio;
use aud_json::Scratch;
use std::alloc::Global;
use std::marker::Model;

/// Takes Engine.IO packets one by one and gives each Socket.IO packet once its attachments are there.
///
/// Contracts see the messages that it holds: the text of a packet that awaits attachments, and those
/// attachments that came; none at rest.
#[derive(Drop)]
pub struct Assembler<'a> {
    alloc: Global,
    half: Option<Half<'a>>,
}

impl<'a> Model for Assembler<'a> {
    ghost use Rattle.std.specs.Prelude.{List};
    ghost use Rattle.aud_sio.specs.Message.{Message};
    ghost use Rattle.aud_sio.specs.Assembly.{messages_held};

    ghost Value = { List Message };

    ghost view = { λ a. messages_held a.half };
}

impl<'a> Assembler<'a> {
    /// An assembler at rest.
    pub fn new(alloc: Global) -> Assembler<'a>
        ensures { result ≡ [] }
    {
        Assembler { alloc, half: None }
    }

    /// Whether the assembler is at rest: no attachment is awaited.
    pub fn is_at_rest(&self) -> bool
        ensures { IsTrue result ↔ (self.now ≡ []) }
    {
        self.half.is_none()
    }

    /// The next Engine.IO packet. A packet is given with its last attachment, or at once where it has none; it lends
    /// what the Engine.IO packets lend.
    ///
    /// A text is refused as `TextWhileBinary` where attachments are awaited, and else as [`decode`](crate::decode)
    /// refuses it; bytes as `StrayBinary` where none are. Control packets are read past. Memory is wanted for the
    /// payload of a text that comes at rest and for an attachment that is awaited, and for nothing else. After a
    /// refusal, also when out of memory, the assembler is at rest: it holds nothing of the refused packet.
    pub fn feed(&mut self, packet: Eio<'a>) -> Result<Option<Whole<'a>>, SioFault>
        ensures answers { Feeds self.old (messages_of (engine_view packet.entry)) result self.new }
        ensures control { messages_of (engine_view packet.entry) ≡ []
            → (result ≡ Ok None) × (self.new ≡ self.old) }
        ensures waits { Waits self.new }
        ensures rest_refused { IfErr result (λ _. self.new ≡ []) }
        ensures rest_given { IfOk result (λ whole. IsSome whole → self.new ≡ []) }
        ensures memory { result ≡ Err SioFault.Memory
            → takes_memory self.old (messages_of (engine_view packet.entry)) ≡ true }
    {
        let mut scratch = Scratch::new(self.alloc);
        self.feed_with(&mut scratch, packet)
    }

    /// What [`feed`](Assembler::feed) gives, with memory that is kept for the next text, as [`decode_with`] keeps it.
    pub fn feed_with(
        &mut self,
        scratch: &mut Scratch,
        packet: Eio<'a>,
    ) -> Result<Option<Whole<'a>>, SioFault>
        ensures answers { Feeds self.old (messages_of (engine_view packet.entry)) result self.new }
        ensures control { messages_of (engine_view packet.entry) ≡ []
            → (result ≡ Ok None) × (self.new ≡ self.old) }
        ensures waits { Waits self.new }
        ensures rest_refused { IfErr result (λ _. self.new ≡ []) }
        ensures rest_given { IfOk result (λ whole. IsSome whole → self.new ≡ []) }
        ensures memory { result ≡ Err SioFault.Memory
            → takes_memory self.old (messages_of (engine_view packet.entry)) ≡ true }
    {
        let half = self.half.take();
        match packet {
            Eio::Control(_, _) => {
                self.half = half;
                Ok(None)
            }
            Eio::Message(text) => self.take_text(scratch, half, text),
            Eio::Lent(bytes) => self.take_bytes(half, Blob::Lent(bytes)),
            Eio::Own(bytes) => self.take_bytes(half, Blob::Own(bytes)),
        }
    }

    fn take_text(
        &mut self,
        scratch: &mut Scratch,
        half: Option<Half<'a>>,
        text: &'a str,
    ) -> Result<Option<Whole<'a>>, SioFault>
        requires { self.old ≡ [] }
        ensures answers { Feeds (messages_held half.entry)
            (Text text.entry.now ∷ []) result self.new }
        ensures waits { Waits self.new }
        ensures rest_refused { IfErr result (λ _. self.new ≡ []) }
        ensures rest_given { IfOk result (λ whole. IsSome whole → self.new ≡ []) }
        ensures memory { result ≡ Err SioFault.Memory
            → takes_memory (messages_held half.entry) (Text text.entry.now ∷ []) ≡ true }
    {
        if half.is_some() {
            return Err(SioFault::TextWhileBinary);
        }
        self.begin(scratch, text)
    }

    fn begin(&mut self, scratch: &mut Scratch, text: &'a str) -> Result<Option<Whole<'a>>, SioFault>
        requires { self.old ≡ [] }
        ensures answers { Feeds [] (Text text.entry.now ∷ []) result self.new }
        ensures waits { Waits self.new }
        ensures rest_refused { IfErr result (λ _. self.new ≡ []) }
        ensures rest_given { IfOk result (λ whole. IsSome whole → self.new ≡ []) }
        ensures memory { result ≡ Err SioFault.Memory → has_payload text.entry.now ≡ true }
    {
        let packet = decode_with(self.alloc, scratch, text)?;
        let bin = Vec::new(self.alloc);
        Ok(self.keep(Whole { text, packet, bin }))
    }

    fn take_bytes(
        &mut self,
        half: Option<Half<'a>>,
        blob: Blob<'a>,
    ) -> Result<Option<Whole<'a>>, SioFault>
        requires { self.old ≡ [] }
        ensures answers { Feeds (messages_held half.entry)
            (Bytes (blob_view blob.entry) ∷ []) result self.new }
        ensures waits { Waits self.new }
        ensures rest_refused { IfErr result (λ _. self.new ≡ []) }
        ensures rest_given { IfOk result (λ whole. IsSome whole → self.new ≡ []) }
        ensures memory { result ≡ Err SioFault.Memory
            → takes_memory (messages_held half.entry) (Bytes (blob_view blob.entry) ∷ []) ≡ true }
    {
        match half {
            Some(half) => self.attach(half, blob),
            None => Err(SioFault::StrayBinary),
        }
    }

    fn attach(&mut self, half: Half<'a>, blob: Blob<'a>) -> Result<Option<Whole<'a>>, SioFault>
        requires { self.old ≡ [] }
        ensures answers { Feeds (messages_of_whole half.entry.whole)
            (Bytes (blob_view blob.entry) ∷ []) result self.new }
        ensures waits { Waits self.new }
        ensures rest_refused { IfErr result (λ _. self.new ≡ []) }
        ensures rest_given { IfOk result (λ whole. IsSome whole → self.new ≡ []) }
    {
        let Half { mut whole } = half;
        whole.bin.push(blob)?;
        Ok(self.keep(whole))
    }

    /// Gives the packet, where it awaits no attachment, and else holds it.
    fn keep(&mut self, whole: Whole<'a>) -> Option<Whole<'a>>
        requires rest { self.old ≡ [] }
        requires read { packet_of whole.text.now ≡ Ok (packet_view whole.packet) }
        requires few { length whole.bin.items ≤ whole.packet.attachments }
        ensures answers { KeepsAwaited (whole_view whole.entry) (answer_of result) self.new }
        ensures waits { Waits self.new }
        ensures rest_given { IsSome result → self.new ≡ [] }
    {
        if whole.bin.len() == whole.packet.attachments as usize {
            return Some(whole);
        }
        self.half = Some(Half { whole });
        None
    }
}

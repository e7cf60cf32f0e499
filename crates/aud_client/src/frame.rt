//! The events of the stream that came.
ghost use Rattle.std.specs.Prelude.{◌≡◌, ◌+◌, IfOk, Some, [], map, true};
ghost use Rattle.std.specs.Cmp.Lexicographic.{pointwise};
ghost use Rattle.std.specs.List.{cons_option};
ghost use Rattle.std.specs.Option.{option_and_then, option_copied};
ghost use Rattle.std.specs.Str.{bytes_eq};
ghost use Rattle.aud_tap.specs.Forms.{passing};
ghost use Rattle.aud_tap.specs.declared.records.StreamRec.TheVariants.{Ev};
ghost use Rattle.aud_node.specs.AtPosition.{is_recoverable_at};
ghost use Rattle.aud_node.specs.Known.{spelled};
ghost use Rattle.aud_sio.specs.Message.{blob_bytes};
ghost use Rattle.aud_sio.specs.Packet.{packet_view};
ghost use Rattle.aud_sio.specs.Assembly.{blob_view, whole_view};
ghost use Rattle.aud_client.specs.TapPackets.{FromServer};
ghost use Rattle.aud_client.specs.Entries.{has_altered, is_entry, is_of};
ghost use Rattle.aud_client.specs.StaySeen.{frame_of, offset_in, recoverable_position};
ghost use Rattle.aud_client.specs.Private.Ahead.{StandsIn};

use aud_node::{KnownEvent, Stream, is_event};
use aud_sio::{Blob, Packet, Whole, last_text};
use aud_tap::{Bytes, Event, StreamRec};
use std::alloc::{AllocError, Global};
use std::marker::Model;

/// An event that came. Its text is borrowed from the records of the taps, and so are its attachments where a record has
/// their bytes as they are.
#[derive(Drop)]
pub struct Frame<'a> {
    /// The position in the stream of the entry whose offset ends the event; positions count from 1.
    pub position: u64,
    body: Body<'a>,
}

/// What came.
#[derive(Drop)]
enum Body<'a> {
    /// The text of an event of the stream, without attachments.
    Entry(&'a Event),
    /// What a packet had that was decoded. It stands behind a pointer, since few frames are such.
    Own(Box<Came<'a>>),
}

/// The text and the attachments of a packet.
#[derive(Drop)]
struct Came<'a> {
    text: &'a str,
    bin: Vec<Blob<'a>>,
}

impl<'a> Model for Frame<'a> {
    ghost use Rattle.aud_client.specs.Entries.{FrameSeen};
    ghost use Rattle.aud_client.specs.Private.Bodies.{bin_in, text_in};

    ghost Value = { FrameSeen };

    ghost view = { λ f. record { position = f.position; text = text_in f.body; bin = bin_in f.body } };
}

impl<'a> Frame<'a> {
    /// The text of the packet, as it came.
    pub fn text(&self) -> &'a str
        ensures { result.now ≡ self.now.text }
    {
        match &self.body {
            Body::Entry(event) => event.text.as_str(),
            Body::Own(came) => came.text,
        }
    }

    /// The attachments, in their order.
    pub fn bin(&self) -> &[Blob<'a>]
        ensures { map blob_bytes (map blob_view result.now) ≡ self.now.bin }
    {
        match &self.body {
            Body::Entry(_) => &[],
            Body::Own(came) => came.bin.as_slice(),
        }
    }
}

/// Whether the frame is the entry at its position: its text and its attachments are the entry's, byte for byte.
pub fn is_entry(stream: &Stream<'_>, frame: &Frame<'_>) -> bool
    ensures { result ≡ is_entry stream.now frame.now }
{
    match stream.entry(frame.position) {
        Some(StreamRec::Ev(event)) => is_of(frame, event),
        _ => false,
    }
}

/// Whether the frame has the text and the attachments of the event.
fn is_of(frame: &Frame<'_>, event: &Event) -> bool
    ensures { result ≡ is_of frame.now (Some (Ev event.now)) }
{
    if frame.text() != event.text.as_str() {
        return false;
    }
    are_same(frame.bin(), event.bin.as_slice())
}

/// Whether the attachments have these bytes, in the same order.
#[tactic(auto, using(crate::proofs::EntryLemmas::are_same_apart))]
fn are_same(bin: &[Blob<'_>], others: &[Bytes]) -> bool
    ensures { result ≡ pointwise bytes_eq (map blob_bytes (map blob_view bin.now)) others.now }
{
    if bin.len() != others.len() {
        return false;
    }
    for i in 0..bin.len() {
        if bin[i].as_slice() != others[i].as_slice() {
            return false;
        }
    }
    true
}

/// Whether there is a frame that isn't its entry.
pub(crate) fn is_altered(stream: &Stream<'_>, frame: Option<&Frame<'_>>) -> bool
    ensures { result ≡ has_altered stream.now (cons_option (option_copied frame.entry) []) }
{
    match frame {
        Some(frame) => !is_entry(stream, frame),
        None => false,
    }
}

/// The same of a known event's frame, where the event is this stream's if it is said to be `here`.
pub(crate) fn is_known_altered(
    stream: &Stream<'_>,
    known: &KnownEvent<'_>,
    frame: Option<&Frame<'_>>,
    here: bool,
) -> bool
    requires frame { option_copied frame
        ≡ frame_of stream.now (FromServer (spelled known.now.event.now.text)) }
    requires here { here ≡ true → StandsIn stream.now known.now }
    ensures { result ≡ has_altered stream.now (cons_option (option_copied frame.entry) []) }
{
    match frame {
        Some(frame) => !is_known_entry(stream, known, frame, here),
        None => false,
    }
}

/// Whether the frame of the known event is the entry at its position. Where the event is this stream's and stands there,
/// it is: then nothing is compared.
fn is_known_entry(
    stream: &Stream<'_>,
    known: &KnownEvent<'_>,
    frame: &Frame<'_>,
    here: bool,
) -> bool
    requires frame { Some frame.now
        ≡ frame_of stream.now (FromServer (spelled known.now.event.now.text)) }
    requires here { here ≡ true → StandsIn stream.now known.now }
    ensures { result ≡ is_entry stream.now frame.now }
{
    if !here {
        return is_entry(stream, frame);
    }
    if is_at(known, frame.position) {
        return true;
    }
    is_entry(stream, frame)
}

/// Whether the position, which counts from 1, is the one after the entries before the event.
fn is_at(known: &KnownEvent<'_>, position: u64) -> bool
    ensures { result ≡ true → position ≡ known.now.before + 1 }
{
    position > 0 && position - 1 == known.before as u64
}

/// The frame that a packet of the server is, if it is one: its attachments are moved out of the packet.
pub(crate) fn frame_of<'a>(
    alloc: Global,
    stream: &Stream<'_>,
    whole: Whole<'a>,
) -> Result<Option<Frame<'a>>, AllocError>
    ensures { IfOk result (λ frame. frame
        ≡ frame_of stream.now (FromServer (whole_view whole.entry))) }
{
    match position_of(stream, &whole.packet) {
        Some(position) => {
            let came = Came {
                text: whole.text,
                bin: whole.bin,
            };
            let body = Body::Own(Box::new(alloc, came)?);
            Ok(Some(Frame { position, body }))
        }
        None => Ok(None),
    }
}

/// The frame that a known event is: its text is borrowed from the stream's tap.
pub(crate) fn known_frame<'a>(stream: &Stream<'_>, known: &KnownEvent<'a>) -> Option<Frame<'a>>
    ensures { result ≡ frame_of stream.now (FromServer (spelled known.now.event.now.text)) }
{
    match known_position(stream, known) {
        Some(position) => Some(Frame {
            position,
            body: Body::Entry(known.event),
        }),
        None => None,
    }
}

/// The position of the recoverable entry whose offset ends the event, if the packet is one.
fn position_of(stream: &Stream<'_>, packet: &Packet<'_>) -> Option<u64>
    ensures { result ≡ option_and_then (recoverable_position stream.now)
        (offset_in (packet_view packet.now)) }
{
    recoverable_position(stream, offset_in(packet)?)
}

/// The text at the end of an event that asks for no acknowledgement.
fn offset_in<'a>(packet: &'a Packet<'_>) -> Option<&'a str>
    ensures { option_copied result ≡ offset_in (packet_view packet.now) }
{
    if is_event(packet.kind) && packet.id.is_none() {
        last_text(packet)
    } else {
        None
    }
}

/// The position of the recoverable entry that has the offset.
fn recoverable_position(stream: &Stream<'_>, off: &str) -> Option<u64>
    ensures { result ≡ recoverable_position stream.now off.now }
{
    if_recoverable(stream, stream.position(off)?)
}

/// The position of the recoverable entry that has the known event's offset.
fn known_position(stream: &Stream<'_>, known: &KnownEvent<'_>) -> Option<u64>
    ensures { result ≡ recoverable_position stream.now known.now.event.now.off }
{
    if_recoverable(stream, stream.position_of(known)?)
}

/// The position, if the entry there is recoverable.
fn if_recoverable(stream: &Stream<'_>, position: u64) -> Option<u64>
    ensures { result ≡ passing (is_recoverable_at stream.now) position }
{
    if stream.recoverable(position) {
        Some(position)
    } else {
        None
    }
}

//! The first event that came with another content than its entry's.
ghost use Rattle.std.specs.Prelude.{◌≡◌, MatchOption, Some, map};
ghost use Rattle.std.specs.List.{All, list_any};
ghost use Rattle.aud_tap.specs.declared.records.StreamRec.TheVariants.{Ev};
ghost use Rattle.aud_sio.specs.Message.{blob_bytes};
ghost use Rattle.aud_sio.specs.Assembly.{blob_view};
ghost use Rattle.aud_client.specs.StaySeen.{TellsAltered};
ghost use Rattle.aud_check.specs.Frames.{AreEntries, IsEntry, IsOf, frames_in};
ghost use Rattle.aud_node.specs.Stream.{entry};
ghost use Rattle.aud_check.specs.Content.{IsAltered, IsPartOf};
ghost use Rattle.aud_check.specs.Parting.{PartAt};
ghost use Rattle.aud_check.specs.Private.Attachments.{IsAttachmentsPart};

use crate::parting::first_parting;
use aud_client::{Frame, Stay};
use aud_node::Stream;
use aud_sio::Blob;
use aud_tap::{Bytes, Event, StreamRec};

/// A frame that isn't its entry.
#[derive(Clone, Copy, Debug, PartialEq, Eq, Drop)]
pub struct Altered {
    /// The number of the frame, from 0 in the list of all that was received.
    pub frame: usize,
    /// The position of its entry in the stream, from 1.
    pub position: u64,
    /// What of it isn't the entry's.
    pub part: Part,
}

/// The first part of a frame that isn't its entry's. Bytes and attachments count from 0.
#[derive(Clone, Copy, Debug, PartialEq, Eq, Drop)]
pub enum Part {
    /// The stream has no event at the frame's position; which is so of no frame that was read over the same stream.
    NoEvent,
    /// The texts part at this byte: they differ there, or one of them ends.
    Text { at: usize },
    /// The texts are the same, and the number of attachments isn't.
    Count,
    /// All in front of it is the same, and this attachment parts from the entry's at this byte.
    Attachment { number: usize, at: usize },
}

/// The first of the frames that isn't the entry at its position. These are the frames of the stays: they are looked at
/// only where one of the stays tells that there is such a one.
pub(crate) fn altered_in(
    stream: &Stream<'_>,
    stays: &[&Stay<'_>],
    frames: &[&Frame<'_>],
) -> Option<Altered>
    requires frames { map (λ frame. frame.now) frames.now
        ≡ frames_in (map (λ stay. stay.now) stays.now) }
    requires altered { All (TellsAltered stream.now) (map (λ stay. stay.now) stays.now) }
    ensures { MatchOption result (AreEntries stream.now (map (λ frame. frame.now) frames.now))
        (IsAltered stream.now (map (λ frame. frame.now) frames.now)) }
{
    if !has_altered(stays) {
        return None;
    }
    first_altered(stream, frames)
}

/// Whether one of the stays tells of a frame that isn't its entry.
fn has_altered(stays: &[&Stay<'_>]) -> bool
    ensures { result ≡ list_any (λ stay. stay.now.altered) stays.now }
{
    stays.iter().any(|stay| tells_altered(*stay))
}

fn tells_altered(stay: &Stay<'_>) -> bool
    ensures { result ≡ stay.now.altered }
{
    stay.altered
}

/// The first of the frames whose text or attachments are not, byte for byte, those of the entry at its position; none
/// where each frame is its entry.
fn first_altered(stream: &Stream<'_>, frames: &[&Frame<'_>]) -> Option<Altered>
    ensures { MatchOption result (AreEntries stream.now (map (λ frame. frame.now) frames.now))
        (IsAltered stream.now (map (λ frame. frame.now) frames.now)) }
{
    for (number, frame) in frames.iter().enumerate() {
        let frame: &Frame<'_> = *frame;
        if let Some(part) = part_of(stream, frame) {
            return Some(Altered {
                frame: number,
                position: frame.position,
                part,
            });
        }
    }
    None
}

/// The first part of the frame that isn't that of the entry at its position, which counts from 1; none where the frame is
/// that entry, byte for byte.
pub fn part_of(stream: &Stream<'_>, frame: &Frame<'_>) -> Option<Part>
    ensures { MatchOption result (IsEntry stream.now frame.now) (IsPartOf frame.now
        (entry stream.now frame.now.position)) }
{
    match stream.entry(frame.position) {
        Some(StreamRec::Ev(event)) => part_of_event(frame, event),
        _ => Some(Part::NoEvent),
    }
}

/// The same of the event there.
fn part_of_event(frame: &Frame<'_>, event: &Event) -> Option<Part>
    ensures { MatchOption result (IsOf frame.now (Some (Ev event.now))) (IsPartOf frame.now
        (Some (Ev event.now))) }
{
    match first_parting(frame.text().as_bytes(), event.text.as_str().as_bytes()) {
        Some(at) => Some(Part::Text { at }),
        None => part_of_attachments(frame.bin(), event.bin.as_slice()),
    }
}

/// The part of these attachments that isn't of the entry's.
fn part_of_attachments(blobs: &[Blob<'_>], bytes: &[Bytes]) -> Option<Part>
    ensures { MatchOption result (map blob_bytes (map blob_view blobs.now) ≡ bytes.now)
        (IsAttachmentsPart (map blob_bytes (map blob_view blobs.now)) bytes.now) }
{
    if blobs.len() != bytes.len() {
        return Some(Part::Count);
    }
    for (number, blob) in blobs.iter().enumerate() {
        if let Some(at) = parting_of(blob, &bytes[number]) {
            return Some(Part::Attachment { number, at });
        }
    }
    None
}

/// Where the attachment parts from these bytes.
fn parting_of(blob: &Blob<'_>, bytes: &Bytes) -> Option<usize>
    ensures { MatchOption result (blob_bytes (blob_view blob.now) ≡ bytes.now)
        (PartAt (blob_bytes (blob_view blob.now)) bytes.now) }
{
    first_parting(blob.as_slice(), bytes.as_slice())
}

//! Copies of records, whose texts are shared.
ghost use Rattle.std.specs.Prelude.{◌≡◌, IfOk};

use aud_tap::{
    Blobs, Bytes, ClientRec, ClientRecs, Event, NodeRec, StreamRec, StreamRecs, Text, Texts,
};
use std::alloc::{AllocError, Global};

fn copied_texts(alloc: Global, texts: &Texts) -> Result<Texts, AllocError>
    ensures { IfOk result (λ copy. copy ≡ texts.now) }
{
    let mut copies = Vec::new(alloc);
    for text in texts.as_slice() {
        copies.push(text.share()?)?;
    }
    Ok(Texts::new(copies))
}

fn copied_bytes(alloc: Global, bytes: &Bytes) -> Result<Bytes, AllocError>
    ensures { IfOk result (λ copy. copy ≡ bytes.now) }
{
    let mut copy = Vec::new(alloc);
    copy.extend_from_slice(bytes.as_slice())?;
    Ok(Bytes::new(copy))
}

fn copied_blobs(alloc: Global, blobs: &Blobs) -> Result<Blobs, AllocError>
    ensures { IfOk result (λ copy. copy ≡ blobs.now) }
{
    let mut copies = Vec::new(alloc);
    for blob in blobs.as_slice() {
        copies.push(copied_bytes(alloc, blob)?)?;
    }
    Ok(Blobs::new(copies))
}

fn copied_event(alloc: Global, event: &Event) -> Result<Event, AllocError>
    ensures { IfOk result (λ copy. copy ≡ event.now) }
{
    let off = event.off.share()?;
    let nsp = event.nsp.share()?;
    let rooms = copied_texts(alloc, &event.rooms)?;
    let except = copied_texts(alloc, &event.except)?;
    let text = event.text.share()?;
    let bin = copied_blobs(alloc, &event.bin)?;
    Ok(Event {
        off,
        nsp,
        rooms,
        except,
        text,
        bin,
    })
}

/// A copy of an entry of the stream. Texts are shared with it, attachments are copied.
pub fn copied_entry(alloc: Global, entry: &StreamRec) -> Result<StreamRec, AllocError>
    ensures { IfOk result (λ copy. copy ≡ entry.now) }
{
    match entry {
        StreamRec::Ev(event) => Ok(StreamRec::Ev(copied_event(alloc, event)?)),
        StreamRec::Other { off } => Ok(StreamRec::Other { off: off.share()? }),
    }
}

pub fn copied_entries(alloc: Global, entries: &StreamRecs) -> Result<StreamRecs, AllocError>
    ensures { IfOk result (λ copy. copy ≡ entries.now) }
{
    let mut copies = StreamRecs::new(alloc);
    for number in 0..entries.len() {
        copies.push(copied_entry(alloc, &entries[number])?)?;
    }
    Ok(copies)
}

fn copied_if_there(text: &Option<Text>) -> Result<Option<Text>, AllocError>
    ensures { IfOk result (λ copy. copy ≡ text.now) }
{
    match text {
        Some(text) => Ok(Some(text.share()?)),
        None => Ok(None),
    }
}

/// A copy of a node's record, of which the texts are shared.
pub fn copied_record(rec: &NodeRec) -> Result<NodeRec, AllocError>
    ensures { IfOk result (λ copy. copy ≡ rec.now) }
{
    match rec {
        NodeRec::Start { off } => {
            let off = copied_if_there(off)?;
            Ok(NodeRec::Start { off })
        }
        NodeRec::Take { off } => Ok(NodeRec::Take { off: off.share()? }),
        NodeRec::Takes { off } => Ok(NodeRec::Takes { off: off.share()? }),
        NodeRec::Opened { pid, sid, nsp } => {
            let pid = pid.share()?;
            let sid = sid.share()?;
            let nsp = nsp.share()?;
            Ok(NodeRec::Opened { pid, sid, nsp })
        }
        NodeRec::Join { pid, room } => {
            let pid = pid.share()?;
            let room = room.share()?;
            Ok(NodeRec::Join { pid, room })
        }
        NodeRec::Leave { pid, room } => {
            let pid = pid.share()?;
            let room = room.share()?;
            Ok(NodeRec::Leave { pid, room })
        }
        NodeRec::Broke { pid, turn } => {
            let pid = pid.share()?;
            Ok(NodeRec::Broke { pid, turn: *turn })
        }
        NodeRec::Back { pid, turn } => {
            let pid = pid.share()?;
            Ok(NodeRec::Back { pid, turn: *turn })
        }
        NodeRec::Gone { pid } => Ok(NodeRec::Gone { pid: pid.share()? }),
    }
}

fn copied_client_record(alloc: Global, rec: &ClientRec) -> Result<ClientRec, AllocError>
    ensures { IfOk result (λ copy. copy ≡ rec.now) }
{
    match rec {
        ClientRec::Conn { c } => Ok(ClientRec::Conn { c: *c }),
        ClientRec::TextIn { t } => Ok(ClientRec::TextIn { t: t.share()? }),
        ClientRec::BytesIn { b } => {
            let b = copied_bytes(alloc, b)?;
            Ok(ClientRec::BytesIn { b })
        }
        ClientRec::Poll { t } => Ok(ClientRec::Poll { t: t.share()? }),
        ClientRec::TextOut { t } => Ok(ClientRec::TextOut { t: t.share()? }),
        ClientRec::Lost => Ok(ClientRec::Lost),
    }
}

pub fn copied_client(alloc: Global, records: &ClientRecs) -> Result<ClientRecs, AllocError>
    ensures { IfOk result (λ copy. copy ≡ records.now) }
{
    let mut copies = Vec::new(alloc);
    for rec in records.as_slice() {
        copies.push(copied_client_record(alloc, rec)?)?;
    }
    Ok(ClientRecs::new(copies))
}

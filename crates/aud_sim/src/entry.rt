//! The entries of the stream.
ghost use Rattle.std.specs.Prelude.{◌≡◌, ◌++◌, IfOk};
ghost use Rattle.aud_sim.specs.Texts.{event_text};
ghost use Rattle.aud_sim.specs.Entries.{entry_of, event_of};

use crate::texts::event_text;
use aud_tap::{Blobs, Bytes, Event, Text, Texts};
use std::alloc::{AllocError, Global};

/// An entry of the stream, and its frame: as it is, with another word, and as no packet.
#[derive(Drop)]
pub struct Entry {
    pub event: Event,
    pub frame: Text,
    pub altered: Text,
    pub garbled: Text,
}

fn shared_texts(alloc: Global, texts: &[Text]) -> Result<Texts, AllocError>
    ensures { IfOk result (λ copy. copy ≡ texts.now) }
{
    let mut copies = Vec::new(alloc);
    for text in texts {
        copies.push(text.share()?)?;
    }
    Ok(Texts::new(copies))
}

fn copied_blobs(alloc: Global, blobs: &[Bytes]) -> Result<Blobs, AllocError>
    ensures { IfOk result (λ copy. copy ≡ blobs.now) }
{
    let mut copies = Vec::new(alloc);
    for bytes in blobs {
        copies.push(Bytes::new(Vec::from_slice(alloc, bytes.as_slice())?))?;
    }
    Ok(Blobs::new(copies))
}

/// The frame of an event: its text after this digit.
fn frame(
    alloc: Global,
    digit: &str,
    word: &str,
    count: usize,
    position: usize,
) -> Result<Text, AllocError>
    ensures { IfOk result (λ frame. frame ≡ digit.now ++ event_text word.now count position) }
{
    let text = event_text(alloc, word, count, position)?;
    let text = format!(in alloc; "{digit}{text}")?;
    Text::new(alloc, text.as_str())
}

/// The event that is put into the stream at a position.
pub fn event(
    alloc: Global,
    rooms: &[Text],
    except: &[Text],
    word: &str,
    bin: &[Bytes],
    position: usize,
) -> Result<Event, AllocError>
    ensures { IfOk result (λ event. event
        ≡ event_of rooms.now except.now word.now bin.now position) }
{
    let off = format!(in alloc; "{position}-0")?;
    let text = event_text(alloc, word, bin.len(), position)?;
    Ok(Event {
        off: Text::new(alloc, off.as_str())?,
        nsp: Text::new(alloc, "/")?,
        rooms: shared_texts(alloc, rooms)?,
        except: shared_texts(alloc, except)?,
        text: Text::new(alloc, text.as_str())?,
        bin: copied_blobs(alloc, bin)?,
    })
}

impl Entry {
    /// The entry that an event makes at a position.
    pub fn new(
        alloc: Global,
        rooms: &[Text],
        except: &[Text],
        word: &str,
        bin: &[Bytes],
        position: usize,
    ) -> Result<Entry, AllocError>
        ensures { IfOk result (λ entry. entry
            ≡ entry_of rooms.now except.now word.now bin.now position) }
    {
        let count = bin.len();
        let altered = format!(in alloc; "{word}x")?;
        Ok(Entry {
            event: event(alloc, rooms, except, word, bin, position)?,
            frame: frame(alloc, "4", word, count, position)?,
            altered: frame(alloc, "4", altered.as_str(), count, position)?,
            garbled: frame(alloc, "x", word, count, position)?,
        })
    }
}

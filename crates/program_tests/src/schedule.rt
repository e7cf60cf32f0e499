//! Schedules as texts: acts with blanks between them, whose parts have colons between them.
//!
//! | act | text |
//! |---|---|
//! | an event of a word; for rooms; without others; with attachments of one byte | `e:hi`, `e:hi:r,q`, `e:hi:r:s1`,
//! `e:hi:::2` |
//! | an event that isn't in the stream, to client 1 | `v1:hi` |
//! | node 1 takes an entry | `t1` |
//! | client 1 opens a session on node 2; without a reply; with another sid in it | `c1@2`, `u1@2`, `m1@2` |
//! | client 1 is cut; is recovered on node 1; on a node that isn't so far; with an offset that no entry has; without a
//! reply; ends | `x1`, `r1@1`, `g1@1`, `o1@1`, `n1@1`, `f1` |
//! | client 1 joins and leaves a room | `j1:r`, `l1:r` |
//! | a fault for client 1: its next frame dropped, doubled, held, altered, garbled, without its first attachment |
//! `drop1`, `double1`, `hold1`, `alter1`, `garble1`, `short1` |
//! | a fault of the nodes' logs: the next line lost, repeated | `lose`, `repeat` |
use aud_sim::Act;
use aud_tap::{Blobs, Bytes, Text, Texts};
use std::alloc::{AllocError, Global};
use std::test::Fail;

/// The number that these digits are; 0, which no node and no client has, where they are none.
pub fn number(digits: &str) -> usize {
    digits.parse::<usize>().unwrap_or(0)
}

/// The texts of a list with commas between them.
fn texts(alloc: Global, list: &str) -> Result<Texts, AllocError> {
    let mut texts = Vec::new(alloc);
    for text in list.split(',') {
        if !text.is_empty() {
            texts.push(Text::new(alloc, text)?)?;
        }
    }
    Ok(Texts::new(texts))
}

/// So many attachments, each of one byte, its number.
fn attachments(alloc: Global, count: &str) -> Result<Blobs, AllocError> {
    let mut blobs = Vec::new(alloc);
    for byte in 0..count.parse::<u8>().unwrap_or(0) {
        blobs.push(Bytes::new([byte].to_vec(alloc)?))?;
    }
    Ok(Blobs::new(blobs))
}

/// The event of a word and what stands after it.
fn emit(alloc: Global, event: &str) -> Result<Act, AllocError> {
    let mut parts = event.split(':');
    let word = parts.next().unwrap_or("");
    let rooms = parts.next().unwrap_or("");
    let except = parts.next().unwrap_or("");
    let count = parts.next().unwrap_or("");
    Ok(Act::Emit {
        rooms: texts(alloc, rooms)?,
        except: texts(alloc, except)?,
        word: Text::new(alloc, word)?,
        bin: attachments(alloc, count)?,
    })
}

/// An act by its name, the first number after it, the node after `@`, and what stands after a colon.
fn act_of(alloc: Global, name: &str, client: usize, node: usize, more: &str) -> Result<Act, Fail> {
    match name {
        "e" => Ok(emit(alloc, more)?),
        "v" => {
            let word = Text::new(alloc, more)?;
            Ok(Act::Volatile { client, word })
        }
        "t" => Ok(Act::Take { node: client }),
        "c" => Ok(Act::Connect { client, node }),
        "u" => Ok(Act::ConnectUnanswered { client, node }),
        "m" => Ok(Act::ConnectMisnamed { client, node }),
        "j" => {
            let room = Text::new(alloc, more)?;
            Ok(Act::Join { client, room })
        }
        "l" => {
            let room = Text::new(alloc, more)?;
            Ok(Act::Leave { client, room })
        }
        "x" => Ok(Act::Cut { client }),
        "r" => Ok(Act::Recover { client, node }),
        "g" => Ok(Act::RecoverLagging { client, node }),
        "o" => Ok(Act::RecoverUnknown { client, node }),
        "n" => Ok(Act::RecoverUnanswered { client, node }),
        "f" => Ok(Act::Finish { client }),
        "drop" => Ok(Act::DropNext { client }),
        "double" => Ok(Act::DoubleNext { client }),
        "hold" => Ok(Act::HoldNext { client }),
        "alter" => Ok(Act::AlterNext { client }),
        "garble" => Ok(Act::GarbleNext { client }),
        "short" => Ok(Act::ShortenNext { client }),
        "lose" => Ok(Act::LoseLine),
        "repeat" => Ok(Act::RepeatLine),
        _ => Err("no act")?,
    }
}

/// The act of a word of a schedule.
fn act(alloc: Global, word: &str) -> Result<Act, Fail> {
    let (head, more) = word.split_once(':').unwrap_or((word, ""));
    let (who, node) = head.split_once('@').unwrap_or((head, ""));
    let name = who.trim_end_matches(|c: char| c.is_ascii_digit());
    let client = who.strip_prefix(name).unwrap_or("");
    act_of(alloc, name, number(client), number(node), more)
}

/// The acts of a schedule.
pub fn acts(alloc: Global, schedule: &str) -> Result<Vec<Act>, Fail> {
    let mut acts = Vec::new(alloc);
    for word in schedule.split(' ') {
        acts.push(act(alloc, word)?)?;
    }
    Ok(acts)
}

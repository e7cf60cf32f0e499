//! Events: their arguments, the rooms that they are for, and their attachments.
ghost use Rattle.std.specs.Prelude.{◌≡◌, IfOk};
ghost use Rattle.aud_schedule.specs.Acts.{IsQuiet};

use crate::audience::{ALL, Audience, ROOMS};
use crate::course::Course;
use aud_sim::Act;
use aud_tap::{Blobs, Bytes, Text, Texts};
use std::alloc::{AllocError, Global};

const WORDS: [&str; 6] = ["hi", "ho", "tick", "offer", "move", "note"];

/// The word of an event.
pub fn word(course: &mut Course) -> Result<Text, AllocError>
    ensures { course.new.size ≡ course.old.size }
{
    let index = course.below(6) as usize;
    Text::new(course.alloc, WORDS[index])
}

/// The names of these rooms, and of the room of the session with this number, unless it is 0.
fn names(alloc: Global, rooms: u8, session: u32) -> Result<Texts, AllocError> {
    let mut names = Vec::new(alloc);
    for (bit, room) in ROOMS.iter().enumerate() {
        if rooms >> bit & 1 != 0 {
            names.push(Text::new(alloc, room)?)?;
        }
    }
    if session != 0 {
        let room = format!(in alloc; "s{session}")?;
        names.push(Text::new(alloc, room.as_str())?)?;
    }
    Ok(Texts::new(names))
}

/// One attachment, or two.
fn some_attachments(course: &mut Course) -> Result<Blobs, AllocError>
    ensures { course.new.size ≡ course.old.size }
{
    let count = course.below(2) + 1;
    let mut blobs = Vec::new(course.alloc);
    for _ in 0..count {
        let bytes = course.word().to_le_bytes();
        blobs.push(Bytes::new(bytes.to_vec(course.alloc)?))?;
    }
    Ok(Blobs::new(blobs))
}

/// The attachments of an event: mostly none, else one or two.
fn attachments(course: &mut Course) -> Result<Blobs, AllocError>
    ensures { course.new.size ≡ course.old.size }
{
    if course.below(8) == 0 {
        return some_attachments(course);
    }
    Ok(Blobs::new(Vec::new(course.alloc)))
}

/// The set of one of the rooms.
fn some_room(course: &mut Course) -> u8
    ensures { course.new.size ≡ course.old.size }
{
    1u8 << course.below(4)
}

/// Whom an event is for: everyone, one session, or one or two rooms.
fn meant(course: &mut Course) -> Audience
    ensures { course.new.size ≡ course.old.size }
{
    match course.below(5) {
        0 => ALL,
        1 => Audience {
            session: course.some_session(),
            ..ALL
        },
        _ => Audience {
            rooms: some_room(course) | some_room(course),
            ..ALL
        },
    }
}

/// Whom an event is for, but for one session or one room, or for nobody.
pub fn some_audience(course: &mut Course) -> Audience
    ensures { course.new.size ≡ course.old.size }
{
    let meant = meant(course);
    match course.below(5) {
        0 => Audience {
            except_session: course.some_session(),
            ..meant
        },
        1 => Audience {
            except_rooms: some_room(course),
            ..meant
        },
        _ => meant,
    }
}

/// An event of this word for these comes into the stream, with these attachments.
fn emit_of(
    course: &mut Course,
    audience: Audience,
    word: Text,
    bin: Blobs,
) -> Result<Act, AllocError>
    ensures size { course.new.size ≡ course.old.size }
    ensures act { IfOk result (IsQuiet course.old.size) }
{
    course.enter(audience)?;
    let alloc = course.alloc;
    let rooms = names(alloc, audience.rooms, audience.session)?;
    let except = names(alloc, audience.except_rooms, audience.except_session)?;
    Ok(Act::Emit {
        rooms,
        except,
        word,
        bin,
    })
}

/// An event for these comes into the stream.
pub fn emit(course: &mut Course, audience: Audience) -> Result<Act, AllocError>
    ensures size { course.new.size ≡ course.old.size }
    ensures act { IfOk result (IsQuiet course.old.size) }
{
    let word = word(course)?;
    let bin = attachments(course)?;
    emit_of(course, audience, word, bin)
}

/// An event with attachments for these comes into the stream.
pub fn emit_binary(course: &mut Course, audience: Audience) -> Result<Act, AllocError>
    ensures size { course.new.size ≡ course.old.size }
    ensures act { IfOk result (IsQuiet course.old.size) }
{
    let word = word(course)?;
    let bin = some_attachments(course)?;
    emit_of(course, audience, word, bin)
}

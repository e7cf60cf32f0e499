//! Both texts of an event that isn't its entry, around the byte at which they part, in the sentence of its cause.
ghost use Rattle.std.specs.Prelude.{◌≡◌, ◌++◌, OnOk, string_bytes};
ghost use Rattle.std.specs.Option.{option_and_then, option_copied};
ghost use Rattle.aud_causes.specs.Texts.{apart_in, frame_of, texts_told, around, excerpt, shown_from};

use crate::cause::Cause;
use crate::lines::frame_in;
use aud_check::Part;
use aud_client::{Frame, Recording};
use aud_tap::StreamRec;
use std::alloc::AllocError;

/// A session's frame, by its number, whose text parts from its entry's, and the byte at which it does. Both count from 0.
#[derive(Clone, Copy, Drop)]
pub struct Apart {
    pub frame: usize,
    pub at: usize,
}

/// Adds what both texts have around the byte at which they part, where the cause speaks of that: those of the session's
/// frame and its entry, where these are the numbers of its stays in the client's tap at this place.
pub(crate) fn push_texts(
    out: &mut String,
    recording: &Recording<'_>,
    client: Option<usize>,
    numbers: &[usize],
    cause: Cause,
) -> Result<(), AllocError>
    ensures { OnOk result (string_bytes out.new
        ≡ string_bytes out.old ++ texts_told recording.now client numbers.now cause) }
{
    let Some(apart) = apart_in(cause) else {
        return Ok(());
    };
    let Some(frame) = frame_of(recording, client, numbers, apart.frame) else {
        return Ok(());
    };
    let Some(StreamRec::Ev(event)) = recording.logs().stream().entry(frame.position) else {
        return Ok(());
    };
    out.push_str(" It has ")?;
    push_excerpt(out, frame.text(), apart.at)?;
    out.push_str(", and the entry has ")?;
    push_excerpt(out, event.text.as_str(), apart.at)?;
    out.push_str(" there.")
}

/// Where the cause says that texts part.
fn apart_in(cause: Cause) -> Option<Apart>
    ensures { result ≡ apart_in cause }
{
    match cause {
        Cause::AnotherEncoder {
            frame,
            part: Part::Text { at },
        }
        | Cause::Altered {
            frame,
            part: Part::Text { at },
        } => Some(Apart { frame, at }),
        _ => None,
    }
}

/// The session's frame with this number, where these are the numbers of its stays in the client's tap at this place.
pub(crate) fn frame_of<'r, 'a>(
    recording: &'r Recording<'a>,
    client: Option<usize>,
    numbers: &[usize],
    frame: usize,
) -> Option<&'r Frame<'a>>
    ensures { option_copied result
        ≡ option_and_then (frame_of recording.now numbers.now frame) client }
{
    let client = client?;
    let place = frame_in(recording, client, numbers, frame)?;
    let stays = &recording.client(client)?.transcript().stays;
    stays.get(place.stay)?.frames.get(place.frame)
}

/// How many bytes are shown in front of the byte, and from it on.
const NEAR: usize = 24;

/// Adds the characters of the text that begin in the 24 bytes in front of this byte and in the 24 bytes from it on, and
/// two points for what is left out at either end. It costs the text up to there.
pub(crate) fn push_excerpt(out: &mut String, text: &str, at: usize) -> Result<(), AllocError>
    ensures { OnOk result (string_bytes out.new ≡ string_bytes out.old ++ excerpt text.now at) }
{
    if at.saturating_sub(NEAR) > 0 {
        out.push_str("..")?;
    }
    push_around(out, text, at)
}

/// Adds the characters that begin near this byte, and two points for those behind.
fn push_around(out: &mut String, text: &str, at: usize) -> Result<(), AllocError>
    ensures { OnOk result (string_bytes out.new ≡ string_bytes out.old ++ around at 0 text.now) }
{
    for (place, c) in text.char_indices() {
        if place.saturating_sub(at) >= NEAR {
            out.push_str("..")?;
            return Ok(());
        }
        push_from(out, at.saturating_sub(NEAR), place, c)?;
    }
    Ok(())
}

/// Adds the character that begins at this byte, if that is not in front of the other.
fn push_from(out: &mut String, from: usize, place: usize, c: char) -> Result<(), AllocError>
    ensures { OnOk result (string_bytes out.new
        ≡ string_bytes out.old ++ shown_from from place c) }
{
    if place >= from {
        out.push(c)?;
    }
    Ok(())
}

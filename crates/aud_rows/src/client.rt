//! What the records of a client's stay say.
ghost use Rattle.std.specs.Prelude.{◌≡◌, slice_get};
ghost use Rattle.std.specs.Option.{option_copied, option_map};
ghost use Rattle.aud_rows.specs.StayRows.{ask_said, frame_said, reply_said};
ghost use Rattle.aud_rows.specs.Private.SaidAt.{said_seen};

use crate::row::Says;
use aud_client::{Stay, StayPlaces};
use aud_node::Stream;
use aud_tap::Text;

/// A record of a client's tap, by its number, and what it says.
#[derive(Clone, Copy, Drop)]
pub struct SaidAt<'r> {
    pub number: usize,
    pub says: Says<'r>,
}

/// What the stay asked.
pub fn ask_said<'r>(places: &StayPlaces, stay: &'r Stay<'_>) -> Option<SaidAt<'r>>
    ensures { option_map said_seen result ≡ ask_said stay.now.c places.now.ask stay.now.asked }
{
    let number = places.ask? as usize;
    let asked = stay.asked.as_ref()?;
    let says = Says::Asks {
        conn: stay.c,
        pid: asked.pid.as_str(),
        off: lent(asked.offset.as_ref()),
    };
    Some(SaidAt { number, says })
}

/// What it was answered.
pub fn reply_said<'r>(places: &StayPlaces, stay: &'r Stay<'_>) -> Option<SaidAt<'r>>
    ensures { option_map said_seen result ≡ reply_said stay.now.c places.now.reply stay.now.reply }
{
    let number = places.reply? as usize;
    let reply = stay.reply.as_ref()?;
    let says = Says::Reply {
        conn: stay.c,
        sid: reply.sid.as_str(),
        pid: lent(reply.pid.as_ref()),
    };
    Some(SaidAt { number, says })
}

/// The stay's frame with this number.
pub fn frame_said<'r>(
    stream: &Stream<'r>,
    places: &StayPlaces,
    stay: &Stay<'_>,
    frame: usize,
) -> Option<SaidAt<'r>>
    ensures { option_map said_seen result
        ≡ frame_said stream.now stay.now.c (slice_get places.now.frames frame)
        (slice_get stay.now.frames frame) }
{
    let number = *places.frames.get(frame)? as usize;
    let position = stay.frames.get(frame)?.position;
    let entry = stream.entry(position)?;
    let says = Says::Got {
        conn: stay.c,
        position,
        off: entry.offset().as_str(),
    };
    Some(SaidAt { number, says })
}

/// The text, borrowed.
fn lent(text: Option<&Text>) -> Option<&str>
    ensures { option_map (λ lent. lent.now) result ≡ option_copied text.entry }
{
    match text {
        Some(text) => Some(text.as_str()),
        None => None,
    }
}

//! What came twice because a body of polling did.
ghost use Rattle.std.specs.Prelude.{◌≡◌, None, slice_get};
ghost use Rattle.std.specs.Option.{option_copied};
ghost use Rattle.aud_causes.specs.Bodies.{body_at, body_twice, client_record, frames_there, last_of, last_record, places_at, record_of};

use crate::cause::Cause;
use crate::facts::Facts;
use crate::lines::frame_in;
use crate::list::front_of;
use aud_client::{Recording, StayPlaces};
use aud_tap::{ClientRec, Text};

/// Where the two frames stand in one stay, and came in two bodies of polling of the same text; or where they stand in two
/// stays, and what came of the session from the first one on, up to the later stay, came in one body of polling.
/// `numbers` are those of the session's stays in the client's tap at this place. It costs these stays.
pub(crate) fn body_twice(
    recording: &Recording<'_>,
    client: usize,
    numbers: &[usize],
    facts: Facts,
) -> Option<Cause>
    ensures { result ≡ body_twice recording.now client numbers.now facts }
{
    let (first, again) = (facts.parted.first, facts.parted.again);
    let number = record_of(recording, client, numbers, first)?;
    let body = body_at(recording, client, number)?;
    if facts.earlier == facts.later {
        let other = record_of(recording, client, numbers, again)?;
        let text = body_at(recording, client, other)?;
        if number == other || body.as_str() != text.as_str() {
            return None;
        }
        return Some(Cause::BodyCameTwice {
            first,
            again,
            equal: true,
        });
    }
    let last = last_record(places_at(recording, client), front_of(numbers, facts.later))?;
    if facts.later <= facts.earlier || number != last {
        return None;
    }
    Some(Cause::BodyCameTwice {
        first,
        again,
        equal: false,
    })
}

/// The text of the record with this number of the client's tap at this place, if that is a body of polling.
fn body_at<'a>(recording: &Recording<'a>, client: usize, number: usize) -> Option<&'a Text>
    ensures { option_copied result ≡ body_at recording.now client number }
{
    match client_record(recording, client, number) {
        Some(ClientRec::Poll { t }) => Some(t),
        _ => None,
    }
}

/// The record with this number of the client's tap at this place.
pub(crate) fn client_record<'a>(
    recording: &Recording<'a>,
    client: usize,
    number: usize,
) -> Option<&'a ClientRec>
    ensures { option_copied result ≡ client_record recording.now client number }
{
    recording.logs().client(client)?.get(number)
}

/// The records of the stays of the client's tap at this place.
pub(crate) fn places_at<'r>(recording: &'r Recording<'_>, client: usize) -> &'r [StayPlaces]
    ensures { result.now ≡ places_at recording.now client }
{
    match recording.client(client) {
        Some(client) => client.transcript().places.as_slice(),
        None => &[],
    }
}

/// The record of the session's frame with this number.
fn record_of(
    recording: &Recording<'_>,
    client: usize,
    numbers: &[usize],
    frame: usize,
) -> Option<usize>
    ensures { result ≡ record_of recording.now client numbers.now frame }
{
    let at = frame_in(recording, client, numbers, frame)?;
    let places = places_at(recording, client).get(at.stay)?;
    let number = *places.frames.get(at.frame)?;
    Some(number as usize)
}

/// The record of the last frame in the stays with these numbers.
fn last_record(places: &[StayPlaces], numbers: &[usize]) -> Option<usize>
    ensures { result ≡ last_record places.now None numbers.now }
{
    let mut last = None;
    for number in numbers {
        last = last_of(places, *number).or(last);
    }
    last
}

/// The record of the last frame of the stay with this number.
fn last_of(places: &[StayPlaces], number: usize) -> Option<usize>
    ensures { result ≡ last_of (frames_there (slice_get places.now number)) }
{
    let frames = &places.get(number)?.frames;
    let last = *frames.get(frames.len().saturating_sub(1))?;
    Some(last as usize)
}

//! The records of a stream tap.
ghost use Rattle.std.specs.Prelude.{◌≡◌, ◌&&◌, nat_le, length, IfOk, IsTrue};
ghost use Rattle.aud_json.specs.View.{view};
ghost use Rattle.aud_tap.specs.Limits.{fit_rooms, max_attachments};
ghost use Rattle.aud_tap.specs.Forms.{is_id, is_namespace};
ghost use Rattle.aud_tap.specs.WellFormed.{stream_is_well_formed};
ghost use Rattle.aud_reader.specs.Steps.{Gives};
ghost use Rattle.aud_reader.specs.StreamRecord.{bounded_event, event_of, lists_of, stream_record_of};

use super::fields::{blobs_at, bounded_id_at, id_at, namespace_at, text_at, texts_at};
use crate::fault::{LIMIT, LineFault, UNKNOWN_KIND};
use aud_base::TextPool;
use aud_json::Fields;
use aud_tap::limits::{MAX_ATTACHMENTS, MAX_NAMESPACE, MAX_OFFSET, fit_rooms, fits};
use aud_tap::{Blobs, Event, StreamRec, Text, Texts};
use std::alloc::{AllocError, Global};

/// The rooms that an event is for, those that are excepted, and its attachments.
type Lists = (Texts, Texts, Blobs);

/// The rooms and the attachments of an event are no more than may be, and no room is empty or too long.
fn lists_fit(lists: &Lists) -> bool
    ensures { result ≡ (fit_rooms lists.now.0 && fit_rooms lists.now.1
        && nat_le (length lists.now.2) max_attachments) }
{
    let (rooms, except, bin) = lists;
    fit_rooms(rooms.as_slice())
        && fit_rooms(except.as_slice())
        && bin.as_slice().len() <= MAX_ATTACHMENTS
}

/// The lists of an event.
#[tactic(auto, unfolding(crate::specs::StreamRecord::lists_of))]
fn lists(alloc: Global, pool: &mut TextPool, d: &Fields<'_>) -> Result<Lists, LineFault>
    ensures { Gives result (lists_of (view d.now)) }
{
    let rooms = texts_at(alloc, pool, "rooms", d)?;
    let except = texts_at(alloc, pool, "except", d)?;
    Ok((rooms, except, blobs_at(alloc, "bin", d)?))
}

/// The event of texts and of its lists. Its offset and its namespace are shared with the pool; its text, which ends
/// with the offset, no other record has.
fn event_with(
    alloc: Global,
    pool: &mut TextPool,
    off: &str,
    nsp: &str,
    text: &str,
    lists: Lists,
) -> Result<Event, AllocError>
    ensures { IfOk result (λ event. event
        ≡ record {
          off = off.now;
          nsp = nsp.now;
          rooms = lists.0;
          except = lists.1;
          text = text.now;
          bin = lists.2;
        }) }
{
    let (rooms, except, bin) = lists;
    Ok(Event {
        off: pool.text(off)?,
        nsp: pool.text(nsp)?,
        rooms,
        except,
        text: Text::new(alloc, text)?,
        bin,
    })
}

/// The event of texts and of its lists, where all are within their limits.
#[tactic(auto, unfolding(crate::specs::StreamRecord::bounded_event))]
fn bounded_event(
    alloc: Global,
    pool: &mut TextPool,
    off: &str,
    nsp: &str,
    text: &str,
    lists: Lists,
) -> Result<StreamRec, LineFault>
    requires { IsTrue (is_id off.now && is_namespace nsp.now) }
    ensures reads { Gives result (bounded_event off.now nsp.now text.now lists) }
    ensures formed { IfOk result (λ rec. IsTrue (stream_is_well_formed rec)) }
{
    if !fits(MAX_OFFSET, off) || !fits(MAX_NAMESPACE, nsp) || !lists_fit(&lists) {
        return Err(LIMIT);
    }
    Ok(StreamRec::Ev(event_with(alloc, pool, off, nsp, text, lists)?))
}

#[tactic(auto, unfolding(crate::specs::StreamRecord::event_of))]
fn event(alloc: Global, pool: &mut TextPool, d: &Fields<'_>) -> Result<StreamRec, LineFault>
    ensures reads { Gives result (event_of (view d.now)) }
    ensures formed { IfOk result (λ rec. IsTrue (stream_is_well_formed rec)) }
{
    let off = id_at("off", d)?;
    let nsp = namespace_at("nsp", d)?;
    let text = text_at("text", d)?;
    let lists = lists(alloc, pool, d)?;
    bounded_event(alloc, pool, off, nsp, text, lists)
}

/// The stream's record of this kind.
#[tactic(auto, unfolding(crate::specs::StreamRecord::stream_record_of))]
pub fn stream_record(
    alloc: Global,
    pool: &mut TextPool,
    kind: &str,
    d: &Fields<'_>,
) -> Result<StreamRec, LineFault>
    ensures reads { Gives result (stream_record_of kind.now (view d.now)) }
    ensures formed { IfOk result (λ rec. IsTrue (stream_is_well_formed rec)) }
{
    match kind {
        "ev" => event(alloc, pool, d),
        "other" => Ok(StreamRec::Other {
            off: bounded_id_at(pool, MAX_OFFSET, "off", d)?,
        }),
        _ => Err(UNKNOWN_KIND),
    }
}

//! The JSON of a stream's record.
ghost use Rattle.std.specs.Prelude.{◌≡◌, IfOk};
ghost use Rattle.serde_json.specs.View.{view};
ghost use Rattle.aud_writer.specs.Written.{event_data, offset_data, stream_data};
ghost use Rattle.aud_writer.specs.BytesBack.{DecodeBack, stream_bytes};

use super::fields::{blobs, texts, with_list, with_text};
use aud_tap::{Event, StreamRec};
use serde_json::{Map, Value, json};
use std::alloc::{AllocError, Global};

// The greatest key goes in first, so that each is put before those that stand.
fn event_value(alloc: Global, event: &Event) -> Result<Value, AllocError>
    ensures data { IfOk result (λ v. view v ≡ event_data event.now) }
    ensures back { IfOk result (λ v. DecodeBack event.now.bin) }
{
    let rooms = texts(alloc, event.rooms.as_slice())?;
    let except = texts(alloc, event.except.as_slice())?;
    let bin = blobs(alloc, event.bin.as_slice())?;
    let members = Map::new(alloc);
    let members = with_text(alloc, members, "text", event.text.as_str())?;
    let members = with_list(alloc, members, "rooms", rooms)?;
    let members = with_text(alloc, members, "off", event.off.as_str())?;
    let members = with_text(alloc, members, "nsp", event.nsp.as_str())?;
    let members = with_text(alloc, members, "k", "ev")?;
    let members = with_list(alloc, members, "except", except)?;
    let members = with_list(alloc, members, "bin", bin)?;
    Ok(Value::Object(members))
}

/// The JSON of a record that has an offset alone.
pub fn offset_value(alloc: Global, kind: &str, off: &str) -> Result<Value, AllocError>
    ensures { IfOk result (λ v. view v ≡ offset_data kind.now off.now) }
{
    json!(in alloc; {"k": kind, "off": off})
}

pub fn stream_value(alloc: Global, rec: &StreamRec) -> Result<Value, AllocError>
    ensures data { IfOk result (λ v. view v ≡ stream_data rec.now) }
    ensures back { IfOk result (λ v. DecodeBack (stream_bytes rec.now)) }
{
    match rec {
        StreamRec::Ev(event) => event_value(alloc, event),
        StreamRec::Other { off } => offset_value(alloc, "other", off.as_str()),
    }
}

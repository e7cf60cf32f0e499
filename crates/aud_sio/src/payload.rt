//! The payload of a packet: JSON text, which stays where it lies.
ghost use Rattle.std.specs.Prelude.{◌≡◌, ◌<◌, Ok, Err, MatchResult, length, option_and_then, option_map, string_bytes};
ghost use Rattle.serde_json.specs.Find.{as_str};
ghost use Rattle.aud_json.specs.View.{field_view, list_view};
ghost use Rattle.aud_sio.specs.Reading.{Gives};
ghost use Rattle.aud_sio.specs.Payload.{last_item, last_of_payload, last_of_value, payload_at};

use crate::fault::SioFault;
use crate::kind::PacketKind;
use aud_json::{Field, FieldsFault, Scratch};
use std::alloc::Global;

/// The payload that a text is, if it has any byte; and the text at the payload's end.
#[tactic(auto, unfolding(crate::specs::Payload::payload_at))]
pub(crate) fn payload_at<'a>(
    alloc: Global,
    scratch: &mut Scratch,
    kind: PacketKind,
    text: &'a str,
) -> Result<(Option<&'a str>, Option<String>), SioFault>
    ensures value { Gives (λ read. (option_map (λ s. s.now) read.0, option_map string_bytes read.1))
        result (payload_at kind text.now) }
    ensures memory { result ≡ Err SioFault.Memory → 0 < length text.now }
{
    if text.is_empty() {
        if kind.wants_array() {
            return Err(SioFault::Payload);
        }
        return Ok((None, None));
    }
    let last = last_of_payload(alloc, scratch, kind, text)?;
    Ok((Some(text), last))
}

#[tactic(auto, unfolding(crate::specs::Payload::last_of_payload))]
fn last_of_payload(
    alloc: Global,
    scratch: &mut Scratch,
    kind: PacketKind,
    text: &str,
) -> Result<Option<String>, SioFault>
    ensures { Gives (option_map string_bytes) result (last_of_payload kind text.now) }
{
    match Field::read(alloc, text, scratch) {
        Ok(value) => owned(alloc, last_of_value(kind, &value)?),
        Err(FieldsFault::NotJson) => Err(SioFault::Payload),
        Err(FieldsFault::Memory) => Err(SioFault::Memory),
    }
}

/// The text at the end of the value that a payload is.
fn last_of_value<'a>(kind: PacketKind, value: &Field<'a>) -> Result<Option<&'a str>, SioFault>
    ensures { MatchResult result
        (λ last. last_of_value kind (field_view value.now) ≡ Ok (option_map (λ s. s.now) last))
        (λ fault. last_of_value kind (field_view value.now) ≡ Err fault) }
{
    let Some(items) = value.as_list() else {
        return if kind.wants_array() {
            Err(SioFault::Payload)
        } else {
            Ok(None)
        };
    };
    Ok(last_text(items))
}

/// The last element, where it is a text.
fn last_text<'a>(items: &[Option<&'a str>]) -> Option<&'a str>
    ensures { option_map (λ s. s.now) result
        ≡ option_and_then as_str (last_item (list_view items.now)) }
{
    *items.last()?
}

/// The text, in memory of its own.
fn owned(alloc: Global, text: Option<&str>) -> Result<Option<String>, SioFault>
    ensures { Gives (option_map string_bytes) result (Ok (option_map (λ s. s.now) text.entry)) }
{
    match text {
        Some(text) => Ok(Some(String::from_str(alloc, text)?)),
        None => Ok(None),
    }
}

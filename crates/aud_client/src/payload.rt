//! The fields of a packet's payload.
ghost use Rattle.std.specs.Prelude.{◌≡◌, IfOk, option_map};
ghost use Rattle.std.specs.Option.{option_copied};
ghost use Rattle.aud_json.specs.Shown.{shown};
ghost use Rattle.aud_json.specs.View.{view};
ghost use Rattle.aud_tap.specs.Json.{text_at};
ghost use Rattle.aud_client.specs.Replies.{value_of};

use aud_json::{Fields, FieldsFault, Scratch};
use std::alloc::{AllocError, Global};

/// The fields of the payload's value; none where there is no payload, or it is no JSON text (RFC 8259).
pub fn fields_of<'a>(
    alloc: Global,
    payload: Option<&'a str>,
    scratch: &'a mut Scratch,
) -> Result<Option<Fields<'a>>, AllocError>
    ensures { IfOk result (λ fields. option_map view fields
        ≡ option_map shown (value_of (option_map (λ text. text.now) payload.entry))) }
{
    let Some(text) = payload else {
        return Ok(None);
    };
    match Fields::read(alloc, text, scratch) {
        Ok(fields) => Ok(Some(fields)),
        Err(FieldsFault::NotJson) => Ok(None),
        Err(FieldsFault::Memory) => Err(AllocError),
    }
}

/// The text at the key of an object, borrowed; none where the value is no object, or has no text there.
pub fn text_at<'a>(fields: &Fields<'a>, key: &str) -> Option<&'a str>
    ensures { option_copied result ≡ text_at key.now (view fields.now) }
{
    fields.get(key)?.as_str()
}

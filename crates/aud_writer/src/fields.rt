//! Lists of texts as members of a JSON object.
ghost use Rattle.std.specs.Prelude.{◌≡◌, Some, IfOk, map as list_map, string_bytes};
ghost use Rattle.serde_json.specs.Data.{string, put};
ghost use Rattle.serde_json.specs.View.{items_view, members_view};
ghost use Rattle.aud_reader.specs.Fields.{decoded};
ghost use Rattle.aud_writer.specs.Written.{encoded, text_items};
ghost use Rattle.aud_writer.specs.BytesBack.{DecodeBack, put_unless_empty};

use aud_tap::{Bytes, Text};
use base64::engine::general_purpose::STANDARD;
use serde_json::{Map, Value};
use std::alloc::{AllocError, Global};

pub fn texts(alloc: Global, texts: &[Text]) -> Result<Vec<Value>, AllocError>
    ensures { IfOk result (λ list. items_view list.items ≡ text_items texts.now) }
{
    let mut list = Vec::new(alloc);
    for text in texts {
        list.push(Value::try_from_str(alloc, text.as_str())?)?;
    }
    Ok(list)
}

/// Bytes in base64 (RFC 4648, section 4), padded.
pub fn encoded(alloc: Global, bytes: &[u8]) -> Result<String, AllocError>
    ensures text { IfOk result (λ text. string_bytes text ≡ encoded bytes.now) }
    ensures back { IfOk result (λ text. decoded (encoded bytes.now) ≡ Some bytes.now) }
{
    STANDARD.encode(alloc, bytes)
}

pub fn blobs(alloc: Global, blobs: &[Bytes]) -> Result<Vec<Value>, AllocError>
    ensures list { IfOk result
        (λ list. items_view list.items ≡ text_items (list_map encoded blobs.now)) }
    ensures back { IfOk result (λ list. DecodeBack blobs.now) }
{
    let mut list = Vec::new(alloc);
    for bytes in blobs {
        let text = encoded(alloc, bytes.as_slice())?;
        list.push(Value::String(text))?;
    }
    Ok(list)
}

/// The members with a text under a key.
pub fn with_text(
    alloc: Global,
    mut members: Map<String, Value>,
    key: &str,
    text: &str,
) -> Result<Map<String, Value>, AllocError>
    ensures { IfOk result (λ new. members_view new.entries
        ≡ put key.now (string text.now) (members_view members.entries)) }
{
    let value = Value::try_from_str(alloc, text)?;
    serde_json::put(&mut members, alloc, key, value)?;
    Ok(members)
}

/// The members with a list under a key, unless it is empty.
pub fn with_list(
    alloc: Global,
    mut members: Map<String, Value>,
    key: &str,
    list: Vec<Value>,
) -> Result<Map<String, Value>, AllocError>
    ensures { IfOk result (λ new. members_view new.entries
        ≡ put_unless_empty key.now (items_view list.items) (members_view members.entries)) }
{
    if list.as_slice().is_empty() {
        return Ok(members);
    }
    serde_json::put(&mut members, alloc, key, Value::Array(list))?;
    Ok(members)
}

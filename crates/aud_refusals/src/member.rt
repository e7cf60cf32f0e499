//! The members of a line's object.
ghost use Rattle.std.specs.Prelude.{◌≡◌, is_some, IfOk, option_map};
ghost use Rattle.aud_json.specs.View.{view};
ghost use Rattle.aud_tap.specs.Json.{text_at};
ghost use Rattle.aud_reader.specs.Fields.{blobs_at, decoded, number_at, texts_at};
ghost use Rattle.aud_refusals.specs.Members.{is_formed, key_of};

use aud_json::{Field, Fields};
use aud_tap::{is_id, is_namespace};
use base64::DecodeAllocError;
use base64::engine::general_purpose::STANDARD;
use std::alloc::{AllocError, Global};

/// A member of the object of a line: docs/FORMAT.md has the forms of each.
#[derive(Clone, Copy, Drop)]
pub enum Member {
    Kind,
    Version,
    Of,
    Off,
    /// The offset of a `start`, which may be null.
    OffOrNull,
    Nsp,
    Text,
    Rooms,
    Except,
    Bin,
    Pid,
    Sid,
    Room,
    Turn,
    Connection,
    Message,
    Bytes,
}

impl Member {
    /// The key of the member.
    pub fn key(self) -> &'static str
        ensures { result.now ≡ key_of self }
    {
        match self {
            Member::Kind => "k",
            Member::Version => "v",
            Member::Of => "of",
            Member::Off | Member::OffOrNull => "off",
            Member::Nsp => "nsp",
            Member::Text => "text",
            Member::Rooms => "rooms",
            Member::Except => "except",
            Member::Bin => "bin",
            Member::Pid => "pid",
            Member::Sid => "sid",
            Member::Room => "room",
            Member::Turn => "turn",
            Member::Connection => "c",
            Member::Message => "t",
            Member::Bytes => "b",
        }
    }
}

/// The text at a key.
pub fn text_at<'a>(key: &str, d: &Fields<'a>) -> Option<&'a str>
    ensures { option_map (λ s. s.now) result ≡ text_at key.now (view d.now) }
{
    d.get(key).and_then(Field::as_str)
}

/// The whole number at a key.
pub fn number_at(key: &str, d: &Fields<'_>) -> Option<u64>
    ensures { result ≡ number_at key.now (view d.now) }
{
    d.get(key).and_then(Field::as_u64)
}

/// Whether the text spells bytes in base64 (RFC 4648, section 4), padded.
fn is_base64(alloc: Global, text: &str) -> Result<bool, AllocError>
    ensures { IfOk result (λ is. is ≡ is_some (decoded text.now)) }
{
    match STANDARD.decode(alloc, text.as_bytes()) {
        Ok(_) => Ok(true),
        Err(DecodeAllocError::OutOfMemory) => Err(AllocError),
        Err(DecodeAllocError::DecodeError(_)) => Ok(false),
    }
}

/// Whether the member is a list of texts, or missing.
fn has_texts(key: &str, d: &Fields<'_>) -> bool
    ensures { result ≡ is_some (texts_at key.now (view d.now)) }
{
    let Some(field) = d.get(key) else {
        return true;
    };
    let Some(items) = field.as_list() else {
        return false;
    };
    for item in items {
        if item.is_none() {
            return false;
        }
    }
    true
}

/// Whether the member is a list of texts that spell bytes, or missing.
fn has_blobs(alloc: Global, key: &str, d: &Fields<'_>) -> Result<bool, AllocError>
    ensures { IfOk result (λ is. is ≡ is_some (blobs_at key.now (view d.now))) }
{
    let Some(field) = d.get(key) else {
        return Ok(true);
    };
    let Some(items) = field.as_list() else {
        return Ok(false);
    };
    for item in items {
        let Some(text) = item else {
            return Ok(false);
        };
        if !is_base64(alloc, text)? {
            return Ok(false);
        }
    }
    Ok(true)
}

/// Whether the object has this member, of its type and form.
pub fn is_formed(alloc: Global, member: Member, d: &Fields<'_>) -> Result<bool, AllocError>
    ensures { IfOk result (λ is. is ≡ is_formed member (view d.now)) }
{
    let key = member.key();
    match member {
        Member::Kind | Member::Of | Member::Text | Member::Room | Member::Message => {
            Ok(text_at(key, d).is_some())
        }
        Member::Version | Member::Turn | Member::Connection => Ok(number_at(key, d).is_some()),
        Member::Off | Member::Pid | Member::Sid => match text_at(key, d) {
            Some(text) => Ok(is_id(text)),
            None => Ok(false),
        },
        Member::OffOrNull => match d.get(key) {
            Some(field) if field.is_null() => Ok(true),
            Some(field) => match field.as_str() {
                Some(text) => Ok(is_id(text)),
                None => Ok(false),
            },
            None => Ok(false),
        },
        Member::Nsp => match text_at(key, d) {
            Some(text) => Ok(is_namespace(text)),
            None => Ok(false),
        },
        Member::Rooms | Member::Except => Ok(has_texts(key, d)),
        Member::Bin => has_blobs(alloc, key, d),
        Member::Bytes => match text_at(key, d) {
            Some(text) => is_base64(alloc, text),
            None => Ok(false),
        },
    }
}

//! The fields of a JSON object, by their types and forms.
ghost use Rattle.std.specs.Prelude.{◌≡◌, ◌&&◌, Ok, IfOk, IfSome, IsTrue, MatchResult, option_map};
ghost use Rattle.aud_json.specs.View.{field_view, list_view, text_view, view};
ghost use Rattle.serde_json.specs.Find.{as_str};
ghost use Rattle.aud_reader.specs.declared.fault.InputCode.TheVariants.{Field};
ghost use Rattle.aud_base.specs.Steps.{need};
ghost use Rattle.aud_reader.specs.Steps.{Fails, Gives};
ghost use Rattle.aud_tap.specs.Limits.{fits};
ghost use Rattle.aud_tap.specs.Forms.{is_id, is_namespace};
ghost use Rattle.aud_tap.specs.Json.{text_at};
ghost use Rattle.aud_reader.specs.Fields.{number_at, id_at, bounded_id_at, namespace_at};
ghost use Rattle.aud_reader.specs.Fields.{id_or_null, id_or_null_at, decoded, as_blob, bytes_at};
ghost use Rattle.aud_reader.specs.Fields.{all_items, texts_at, blobs_at};

use crate::fault::{FIELD, LIMIT, LineFault};
use aud_base::TextPool;
use aud_json::{Field as Member, Fields};
use aud_tap::limits::fits;
use aud_tap::{Blobs, Bytes, Text, Texts, is_id, is_namespace};
use base64::DecodeAllocError;
use base64::engine::general_purpose::STANDARD;
use std::alloc::{AllocError, Global};

/// Three texts, shared with the pool.
pub fn shared(
    pool: &mut TextPool,
    first: &str,
    second: &str,
    third: &str,
) -> Result<(Text, Text, Text), AllocError>
    ensures { IfOk result (λ shared. shared ≡ (first.now, second.now, third.now)) }
{
    Ok((pool.text(first)?, pool.text(second)?, pool.text(third)?))
}

/// A whole number.
pub fn number_at(key: &str, d: &Fields<'_>) -> Result<u64, LineFault>
    ensures { Gives result (need Field (number_at key.now (view d.now))) }
{
    d.get(key).and_then(Member::as_u64).ok_or(FIELD)
}

fn text_in<'a>(key: &str, d: &Fields<'a>) -> Option<&'a str>
    ensures { option_map (λ s. s.now) result ≡ text_at key.now (view d.now) }
{
    d.get(key).and_then(Member::as_str)
}

/// A text.
pub fn text_at<'a>(key: &str, d: &Fields<'a>) -> Result<&'a str, LineFault>
    ensures { MatchResult result
        (λ s. need Field (text_at key.now (view d.now)) ≡ Ok s.now)
        (λ e. Fails e (need Field (text_at key.now (view d.now)))) }
{
    text_in(key, d).ok_or(FIELD)
}

/// A pid, a sid or an offset.
pub fn id_at<'a>(key: &str, d: &Fields<'a>) -> Result<&'a str, LineFault>
    ensures value { MatchResult result
        (λ s. need Field (id_at key.now (view d.now)) ≡ Ok s.now)
        (λ e. Fails e (need Field (id_at key.now (view d.now)))) }
    ensures form { IfOk result (λ s. IsTrue (is_id s.now)) }
{
    match text_in(key, d) {
        Some(text) if is_id(text) => Ok(text),
        _ => Err(FIELD),
    }
}

/// A pid, a sid or an offset of at most so many bytes, shared with the pool.
#[tactic(auto, unfolding(crate::specs::Fields::bounded_id_at))]
pub fn bounded_id_at(
    pool: &mut TextPool,
    most: usize,
    key: &str,
    d: &Fields<'_>,
) -> Result<Text, LineFault>
    ensures reads { Gives result (bounded_id_at most key.now (view d.now)) }
    ensures formed { IfOk result (λ id. IsTrue (is_id id && fits most id)) }
{
    let id = id_at(key, d)?;
    if !fits(most, id) {
        return Err(LIMIT);
    }
    Ok(pool.text(id)?)
}

/// A namespace.
pub fn namespace_at<'a>(key: &str, d: &Fields<'a>) -> Result<&'a str, LineFault>
    ensures value { MatchResult result
        (λ s. need Field (namespace_at key.now (view d.now)) ≡ Ok s.now)
        (λ e. Fails e (need Field (namespace_at key.now (view d.now)))) }
    ensures form { IfOk result (λ s. IsTrue (is_namespace s.now)) }
{
    match text_in(key, d) {
        Some(text) if is_namespace(text) => Ok(text),
        _ => Err(FIELD),
    }
}

fn id_or_null<'a>(d: &Member<'a>) -> Option<Option<&'a str>>
    ensures value { option_map (option_map (λ s. s.now)) result ≡ id_or_null (field_view d.now) }
    ensures form { IfSome result (λ o. IfSome o (λ s. IsTrue (is_id s.now))) }
{
    if d.is_null() {
        return Some(None);
    }
    match d.as_str() {
        Some(text) if is_id(text) => Some(Some(text)),
        _ => None,
    }
}

/// An offset, or null for none.
pub fn id_or_null_at<'a>(key: &str, d: &Fields<'a>) -> Option<Option<&'a str>>
    ensures value { option_map (option_map (λ s. s.now)) result
        ≡ id_or_null_at key.now (view d.now) }
    ensures form { IfSome result (λ o. IfSome o (λ s. IsTrue (is_id s.now))) }
{
    d.get(key).and_then(id_or_null)
}

/// The bytes that a text spells in base64 (RFC 4648, section 4), padded.
fn decoded(alloc: Global, text: &str) -> Result<Bytes, LineFault>
    ensures { Gives result (need Field (decoded text.now)) }
{
    match STANDARD.decode(alloc, text.as_bytes()) {
        Ok(bytes) => Ok(Bytes::new(bytes)),
        Err(DecodeAllocError::OutOfMemory) => Err(LineFault::Memory),
        Err(DecodeAllocError::DecodeError(_)) => Err(FIELD),
    }
}

fn as_blob(alloc: Global, d: &Member<'_>) -> Result<Bytes, LineFault>
    ensures { Gives result (need Field (as_blob (field_view d.now))) }
{
    let text = d.as_str().ok_or(FIELD)?;
    decoded(alloc, text)
}

/// Bytes, as a text in base64.
pub fn bytes_at(alloc: Global, key: &str, d: &Fields<'_>) -> Result<Bytes, LineFault>
    ensures { Gives result (need Field (bytes_at key.now (view d.now))) }
{
    let d = d.get(key).ok_or(FIELD)?;
    as_blob(alloc, d)
}

/// The text that an item is, shared with the pool.
fn item_text(pool: &mut TextPool, item: Option<&str>) -> Result<Text, LineFault>
    ensures { Gives result (need Field (as_str (text_view item.entry))) }
{
    let text = item.ok_or(FIELD)?;
    Ok(pool.text(text)?)
}

/// The texts that the items are, shared with the pool, in a list that has room for no others.
fn texts(alloc: Global, pool: &mut TextPool, items: &[Option<&str>]) -> Result<Texts, LineFault>
    ensures { Gives result (need Field (all_items as_str (list_view items.now))) }
{
    let mut texts = Vec::with_capacity(alloc, items.len())?;
    for item in items {
        let text = item_text(pool, *item)?;
        texts.push(text)?;
    }
    Ok(Texts::new(texts))
}

/// A list of texts, empty where it is absent. The texts are shared with the pool.
pub fn texts_at(
    alloc: Global,
    pool: &mut TextPool,
    key: &str,
    d: &Fields<'_>,
) -> Result<Texts, LineFault>
    ensures { Gives result (need Field (texts_at key.now (view d.now))) }
{
    let Some(list) = d.get(key) else {
        return Ok(Texts::new(Vec::new(alloc)));
    };
    let items = list.as_list().ok_or(FIELD)?;
    texts(alloc, pool, items)
}

/// The bytes that an item spells in base64.
fn item_bytes(alloc: Global, item: Option<&str>) -> Result<Bytes, LineFault>
    ensures { Gives result (need Field (as_blob (text_view item.entry))) }
{
    let text = item.ok_or(FIELD)?;
    decoded(alloc, text)
}

/// The bytes that the items spell, in a list that has room for no others.
fn blobs(alloc: Global, items: &[Option<&str>]) -> Result<Blobs, LineFault>
    ensures { Gives result (need Field (all_items as_blob (list_view items.now))) }
{
    let mut blobs = Vec::with_capacity(alloc, items.len())?;
    for item in items {
        let bytes = item_bytes(alloc, *item)?;
        blobs.push(bytes)?;
    }
    Ok(Blobs::new(blobs))
}

/// A list of texts in base64, empty where it is absent.
pub fn blobs_at(alloc: Global, key: &str, d: &Fields<'_>) -> Result<Blobs, LineFault>
    ensures { Gives result (need Field (blobs_at key.now (view d.now))) }
{
    let Some(list) = d.get(key) else {
        return Ok(Blobs::new(Vec::new(alloc)));
    };
    let items = list.as_list().ok_or(FIELD)?;
    blobs(alloc, items)
}

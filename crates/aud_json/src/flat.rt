//! A fast way for ordinary objects, in one pass over their bytes.
//!
//! It reads an object with at least one member and no white space, whose keys have no escapes, and whose values are
//! texts with no escape but the short ones (`\n`, and not `\u000a`), whole numbers of at most 15 digits, and lists of
//! texts with no escape. Of any other text it says nothing, and that is then read from its start by [`json::Reader`].
ghost use Rattle.std.specs.Prelude.{◌≡◌, ◌<◌, ◌≤◌, [], ◌∷◌, length, Some, IfOk, IfSome, IsTrue};
ghost use Rattle.std.specs.List.{prefix_len};
ghost use Rattle.std.specs.Char.{is_ascii_digit};
ghost use Rattle.json.specs.Token.{Token, string};
ghost use Rattle.json.specs.Text.{content, plain};
ghost use Rattle.json.specs.Lex.{between, colon, in_string, lex, token};
ghost use Rattle.serde_json.specs.Data.{Data, object};
ghost use Rattle.serde_json.specs.Read.{read};
ghost use Rattle.aud_json.specs.Shown.{shown};
ghost use Rattle.aud_json.specs.View.{members_view};
ghost use Rattle.aud_json.specs.Private.Flat.{AreRead, IsOneLetter, IsRead, IsToken};

use crate::field::Field;
use crate::number::number;
use crate::run::plain_end;
use crate::unescape::unescaped;
use std::alloc::{AllocError, Global};

/// What follows this mark, where it comes first.
#[inline(always)]
fn after<'a>(text: &'a str, mark: u8) -> Option<&'a str>
    requires { mark < 128 }
    ensures { IfSome result (λ rest. text.now ≡ mark ∷ rest.now) }
{
    let bytes = text.as_bytes();
    if bytes.is_empty() || bytes[0] != mark {
        return None;
    }
    Some(&text[1..])
}

/// The text up to the next quote, and what follows the quote, where no escape comes before.
#[inline(always)]
fn plain_text<'a>(text: &'a str) -> Option<(&'a str, &'a str)>
    ensures read { IfSome result (λ p. (content plain text.now ≡ Some p.0.now)
        × (lex in_string text.now ≡ lex between p.1.now)) }
    ensures shorter { IfSome result (λ p. length p.1.now < length text.now) }
{
    let bytes = text.as_bytes();
    let end = plain_end(bytes);
    if end == bytes.len() || bytes[end] != b'"' {
        return None;
    }
    Some((&text[..end], &text[end + 1..]))
}

/// How many digits come first.
#[inline(always)]
fn digits(bytes: &[u8]) -> usize
    ensures value { result ≡ prefix_len is_ascii_digit bytes.now }
    ensures bound { result ≤ length bytes.now }
{
    let mut i = 0;
    'digits: while i < bytes.len() && bytes[i].is_ascii_digit() {
        i += 1;
    }
    i
}

/// A whole number of at most 15 digits, and what follows it, where that is the next member or the object's end.
#[inline(always)]
fn whole_number<'a>(text: &'a str) -> Option<(Field<'a>, &'a str)>
    ensures read { IfSome result (λ p. (t : Token)
        × (lex between text.now ≡ token t ∷ lex between p.1.now) × IsToken t p.0) }
    ensures shorter { IfSome result (λ p. length p.1.now < length text.now) }
{
    let bytes = text.as_bytes();
    let count = digits(bytes);
    if count == 0 || count > 15 || count == bytes.len() {
        return None;
    }
    if (bytes[0] == b'0') & (count > 1) {
        return None;
    }
    if (bytes[count] != b',') & (bytes[count] != b'}') {
        return None;
    }
    let number = number(&text[..count])?;
    Some((Field::Number(number), &text[count..]))
}

/// A text with no escape, and what follows it.
#[inline(always)]
fn quoted<'a>(text: &'a str) -> Option<(&'a str, &'a str)>
    ensures read { IfSome result (λ p. lex between text.now
        ≡ token (string p.0.now) ∷ lex between p.1.now) }
    ensures shorter { IfSome result (λ p. length p.1.now < length text.now) }
{
    let (found, rest) = plain_text(after(text, b'"')?)?;
    Some((found, rest))
}

/// The texts of a list with some, after its bracket, and what follows the list.
fn texts<'a>(
    alloc: Global,
    text: &'a str,
) -> Result<Option<(Vec<Option<&'a str>>, &'a str)>, AllocError>
    ensures read { IfOk result (λ found. IfSome found
        (λ p. AreRead text.now p.0.items p.1.now)) }
    ensures shorter { IfOk result (λ found. IfSome found
        (λ p. length p.1.now < length text.now)) }
{
    let mut found = Vec::new(alloc);
    let mut rest = text;
    'items: loop {
        let Some((item, left)) = quoted(rest) else {
            return Ok(None);
        };
        found.push(Some(item))?;
        let Some(more) = after(left, b',') else {
            let Some(outside) = after(left, b']') else {
                return Ok(None);
            };
            return Ok(Some((found, outside)));
        };
        rest = more;
    }
}

/// A text or a number, what follows it, and the room that is left.
#[inline(always)]
fn single<'a>(text: &'a str, room: &'a mut [u8]) -> Option<(Field<'a>, &'a str, &'a mut [u8])>
    ensures read { IfSome result (λ p. (t : Token)
        × (lex between text.now ≡ token t ∷ lex between p.1.now) × IsToken t p.0) }
    ensures shorter { IfSome result (λ p. length p.1.now < length text.now) }
{
    let Some(inner) = after(text, b'"') else {
        let (number, rest) = whole_number(text)?;
        return Some((number, rest, room));
    };
    if let Some((text, rest)) = plain_text(inner) {
        return Some((Field::Text(text), rest, room));
    }
    let (text, rest, left) = unescaped(inner, room)?;
    Some((Field::Text(text), rest, left))
}

/// A field, what follows it, and the room that is left.
#[inline(always)]
fn field<'a>(
    alloc: Global,
    text: &'a str,
    room: &'a mut [u8],
) -> Result<Option<(Field<'a>, &'a str, &'a mut [u8])>, AllocError>
    ensures read { IfOk result (λ found. IfSome found (λ p. IsRead text.now p.0 p.1.now)) }
    ensures shorter { IfOk result (λ found. IfSome found
        (λ p. length p.1.now < length text.now)) }
{
    let Some(inner) = after(text, b'[') else {
        let Some((field, rest, left)) = single(text, room) else {
            return Ok(None);
        };
        return Ok(Some((field, rest, left)));
    };
    let Some((items, rest)) = texts(alloc, inner)? else {
        return Ok(None);
    };
    Ok(Some((Field::List(items), rest, room)))
}

/// Whether a key of one byte and its colon come first, as `"k":` does.
#[inline(always)]
fn is_one_letter(bytes: &[u8]) -> bool
    ensures { IsTrue result → IsOneLetter bytes.now }
{
    if bytes.len() < 4 || bytes[0] != b'"' || bytes[2] != b'"' || bytes[3] != b':' {
        return false;
    }
    bytes[1] != b'"' && bytes[1] != b'\\' && bytes[1] >= 0x20
}

/// A key, and what follows its colon.
#[inline(always)]
fn key<'a>(text: &'a str) -> Option<(&'a str, &'a str)>
    ensures read { IfSome result (λ p. lex between text.now
        ≡ token (string p.0.now) ∷ colon ∷ lex between p.1.now) }
    ensures shorter { IfSome result (λ p. length p.1.now < length text.now) }
{
    if is_one_letter(text.as_bytes()) {
        return Some((&text[1..2], &text[4..]));
    }
    let (key, rest) = plain_text(after(text, b'"')?)?;
    Some((key, after(rest, b':')?))
}

/// Whether the object's brace is all that is left.
#[inline(always)]
fn is_end(text: &str) -> bool
    ensures { IsTrue result → text.now ≡ 125 ∷ [] }
{
    text == "}"
}

/// The keys and fields of an ordinary object; none where the text is none.
pub fn flat_members<'a>(
    alloc: Global,
    text: &'a str,
    room: &'a mut [u8],
) -> Result<Option<Vec<(&'a str, Field<'a>)>>, AllocError>
    ensures { IfOk result (λ found. IfSome found (λ members. (d : Data)
        × (read text.now ≡ Some d) × (shown d ≡ object (members_view members.items)))) }
{
    let Some(mut rest) = after(text, b'{') else {
        return Ok(None);
    };
    let mut found = Vec::with_capacity(alloc, 8)?;
    let mut room = room;
    'members: loop {
        let Some((key, colon_passed)) = key(rest) else {
            return Ok(None);
        };
        let Some((field, left, less_room)) = field(alloc, colon_passed, room)? else {
            return Ok(None);
        };
        found.push((key, field))?;
        let Some(more) = after(left, b',') else {
            if !is_end(left) {
                return Ok(None);
            }
            return Ok(Some(found));
        };
        rest = more;
        room = less_room;
    }
}

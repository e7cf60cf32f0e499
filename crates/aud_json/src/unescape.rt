//! Texts with short escapes, for the fast way.
ghost use Rattle.std.specs.Prelude.{◌≡◌, ◌+◌, ◌<◌, ◌≤◌, ◌≢◌, length, take, drop, get_or, Some, IfSome};
ghost use Rattle.std.specs.Str.{IsUtf8};
ghost use Rattle.json.specs.Text.{content, plain, short_escape};
ghost use Rattle.json.specs.Lex.{between, in_string, lex};
ghost use Rattle.aud_json.specs.Private.Unescaped.{IsByte};

use crate::run::copy_plain;

/// The bytes `\"` as one number. No escape is as frequent in a text that is JSON itself.
const ESCAPED_QUOTE: u16 = 0x5c22;

/// What a backslash and this byte stand for, but for `\u`.
#[tactic(auto, unfolding(json::specs::Text::short_escape))]
#[inline(always)]
fn short(x: u8) -> Option<u8>
    ensures value { result ≡ short_escape x }
    ensures ascii { IfSome result (λ c. (c < 128) × (x < 128)) }
{
    match x {
        b'"' | b'\\' | b'/' => Some(x),
        b'b' => Some(8),
        b'f' => Some(12),
        b'n' => Some(b'\n'),
        b'r' => Some(b'\r'),
        b't' => Some(b'\t'),
        _ => None,
    }
}

/// The byte that the text has at this place, where no quote is, and the place after it or after its escape.
#[inline(always)]
fn byte_at(bytes: &[u8], at: usize) -> Option<(u8, usize)>
    requires within { at < length bytes.now }
    requires inside { get_or bytes.now at 0 ≢ 34 }
    ensures read { IfSome result (λ p. IsByte bytes.now at p.0 p.1) }
    ensures next { IfSome result (λ p. (at < p.1) × (p.1 ≤ length bytes.now)) }
{
    let byte = bytes[at];
    if byte == b'\\' {
        if at + 1 == bytes.len() {
            return None;
        }
        return Some((short(bytes[at + 1])?, at + 2));
    }
    if byte < 0x20 {
        return None;
    }
    Some((byte, at + 1))
}

/// Writes the text up to the next quote without its escapes, and returns how long it is and where the quote stands.
fn unescape(text: &str, room: &mut [u8]) -> Option<(usize, usize)>
    requires { length text.now ≤ length room.old }
    ensures read { IfSome result (λ p. (content plain text.now ≡ Some (take p.0 room.new))
        × (lex in_string text.now ≡ lex between (drop (p.1 + 1) text.now))) }
    ensures text { IfSome result (λ p. IsUtf8 (take p.0 room.new)) }
    ensures places { IfSome result (λ p. (p.0 ≤ length room.new) × (p.1 < length text.now)
        × (get_or text.now p.1 0 ≡ 34)) }
{
    let bytes = text.as_bytes();
    let mut from = 0;
    let mut to = 0;
    let last = bytes.len().saturating_sub(17);
    'whole: while from < last {
        let Some(run) = copy_plain(bytes, from, room, to) else {
            from += 16;
            to += 16;
            continue;
        };
        from += run;
        to += run;
        if u16::from_be_bytes([bytes[from], bytes[from + 1]]) == ESCAPED_QUOTE {
            room[to] = b'"';
            to += 1;
            from += 2;
            continue;
        }
        if bytes[from] == b'"' {
            return Some((to, from));
        }
        let (byte, next) = byte_at(bytes, from)?;
        room[to] = byte;
        to += 1;
        from = next;
    }
    'rest: while from < bytes.len() {
        if bytes[from] == b'"' {
            return Some((to, from));
        }
        let (byte, next) = byte_at(bytes, from)?;
        room[to] = byte;
        to += 1;
        from = next;
    }
    None
}

/// The text up to the next quote without its escapes, what follows the quote, and the room that is left.
pub fn unescaped<'a>(text: &'a str, room: &'a mut [u8]) -> Option<(&'a str, &'a str, &'a mut [u8])>
    ensures read { IfSome result (λ p. (content plain text.now ≡ Some p.0.now)
        × (lex in_string text.now ≡ lex between p.1.now)) }
    ensures shorter { IfSome result (λ p. length p.1.now < length text.now) }
{
    if room.len() < text.len() {
        return None;
    }
    let (len, quote) = unescape(text, room)?;
    let (front, left) = room.split_at_mut(len);
    let found = unsafe { std::str::from_utf8_unchecked(front) };
    Some((found, &text[quote + 1..], left))
}

//! The forms of texts: what can be a tap's name, an offset, a pid, a sid or a namespace.
ghost use Rattle.std.specs.Prelude.{◌≡◌, ◌==◌, not};
ghost use Rattle.std.specs.List.{list_all};
ghost use Rattle.aud_tap.specs.Forms.{is_id, is_namespace};
ghost use Rattle.aud_tap.specs.TapName.{is_name_byte, is_tap_name};
ghost use Rattle.aud_tap.specs.WellFormed.{is_session_id};

use crate::limits::{MAX_ID, MAX_NAME, fits};

fn is_name_byte(b: u8) -> bool
    ensures { result ≡ is_name_byte b }
{
    matches!(b, b'0'..=b'9' | b'A'..=b'Z' | b'a'..=b'z' | b'_' | b'.' | b'-')
}

fn are_name_bytes(name: &[u8]) -> bool
    ensures { result ≡ list_all is_name_byte name.now }
{
    name.iter().all(|b| is_name_byte(*b))
}

/// Whether the text can be a tap's name: 1 to 32 bytes, each a digit or a letter of ASCII, `_`, `.` or `-`.
pub fn is_tap_name(name: &str) -> bool
    ensures { result ≡ is_tap_name name.now }
{
    fits(MAX_NAME, name) && are_name_bytes(name.as_bytes())
}

/// Whether each byte is of 0x21 to 0x7e, as in an offset, a pid or a sid, of whatever length.
pub fn is_id(text: &str) -> bool
    ensures { result ≡ is_id text.now }
{
    text.as_bytes().iter().all(|b| 0x21 <= *b && *b <= 0x7e)
}

/// Whether the text can be a pid or a sid: 1 to 128 bytes, each of 0x21 to 0x7e.
pub fn is_session_id(text: &str) -> bool
    ensures { result ≡ is_session_id text.now }
{
    is_id(text) && fits(MAX_ID, text)
}

fn has_no_comma(text: &str) -> bool
    ensures { result ≡ list_all (λ b. not (b == 44)) text.now }
{
    text.as_bytes().iter().all(|b| *b != b',')
}

/// Whether the text begins with `/` and has no comma, as a namespace does, of whatever length.
pub fn is_namespace(text: &str) -> bool
    ensures { result ≡ is_namespace text.now }
{
    text.as_bytes().first() == Some(&b'/') && has_no_comma(text)
}

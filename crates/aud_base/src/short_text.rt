//! Texts of so few bytes that these stand in the value itself.
ghost use Rattle.std.specs.Prelude.{◌≡◌, MatchOption, false};
ghost use Rattle.aud_base.specs.Private.ShortText.{is_short, short_count};

use std::marker::Model;
use std::str;

/// The most bytes of a short text. The value takes no more, so that an enum that has it beside a pointer takes 16.
const SHORT: usize = 15;

/// The last byte of a UTF-8 text is less than this (RFC 3629, section 3): a greater one counts the bytes.
const COUNTS: u8 = 192;

/// A text of at most 15 bytes. Where it has fewer, the last of the 15 is 192 and how many they are.
#[derive(Drop)]
pub(crate) struct ShortText {
    bytes: [u8; SHORT],
}

impl Model for ShortText {
    ghost use Rattle.std.specs.Prelude.{List, ℕ, IsUtf8};
    ghost use Rattle.aud_base.specs.Private.ShortText.{short_bytes};

    ghost Value = { List ℕ };

    ghost view = { λ s. short_bytes s.bytes };

    ghost invariant = { λ s. ∥ IsUtf8 (short_bytes s.bytes) ∥₁ };
}

impl ShortText {
    /// A copy of the text, if it is short.
    pub fn new(text: &str) -> Option<ShortText>
        ensures { MatchOption result (is_short text.now ≡ false) (λ short. short ≡ text.now) }
    {
        let from = text.as_bytes();
        let count = from.len();
        if count > SHORT {
            return None;
        }
        let mut bytes = [0; SHORT];
        bytes[..count].copy_from_slice(from);
        if count < SHORT {
            bytes[SHORT - 1] = COUNTS + count as u8;
        } else if bytes[SHORT - 1] >= COUNTS {
            return None;
        }
        Some(ShortText { bytes })
    }

    /// The same text again.
    pub fn copied(&self) -> ShortText
        ensures { result ≡ self.now }
    {
        ShortText { bytes: self.bytes }
    }

    /// The text, borrowed.
    pub fn as_str(&self) -> &str
        ensures { result.now ≡ self.now }
    {
        let count = count_of(self.bytes[SHORT - 1]);
        // SAFETY: the value's invariant says that these bytes are UTF-8.
        unsafe { str::from_utf8_unchecked(&self.bytes[..count]) }
    }
}

/// How many of 15 bytes, of which this is the last, a short text has.
fn count_of(last: u8) -> usize
    ensures { result ≡ short_count last }
{
    if last < COUNTS {
        SHORT
    } else {
        ((last - COUNTS) as usize).min(SHORT)
    }
}

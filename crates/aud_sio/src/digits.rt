//! The digits at the front of a text, and the number that they write.
ghost use Rattle.std.specs.Prelude.{◌≡◌, ◌<◌, ◌≤◌, length, take_while};
ghost use Rattle.std.specs.Char.{is_ascii_digit};
ghost use Rattle.std.specs.Str.Parse.{AllDigits, digits_value};
ghost use Rattle.aud_sio.specs.Digits.{after_digits, digit_count};

/// The digits at the front of a text, and the rest.
pub(crate) fn split_digits(text: &str) -> (&str, &str)
    ensures digits { result.0.now ≡ take_while is_ascii_digit text.now }
    ensures count { length result.0.now ≡ digit_count text.now }
    ensures decimal { AllDigits 10 result.0.now }
    ensures rest { result.1.now ≡ after_digits text.now }
{
    text.split_at(digit_count(text.as_bytes()))
}

fn digit_count(bytes: &[u8]) -> usize
    ensures { result ≡ digit_count bytes.now }
{
    bytes
        .iter()
        .take_while(|byte| byte.is_ascii_digit())
        .count()
}

/// The number that a few digits write.
pub(crate) fn number_of(digits: &str) -> u64
    requires some { 0 < length digits.now }
    requires decimal { AllDigits 10 digits.now }
    requires few { length digits.now ≤ 18 }
    ensures { result ≡ digits_value 10 digits.now }
{
    digits.parse::<u64>().unwrap()
}

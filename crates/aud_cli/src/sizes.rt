//! How many parts are wanted, or how large.
ghost use Rattle.std.specs.Prelude.{◌≡◌, ◌<◌, ◌≤◌, IfSome, option_map};
ghost use Rattle.aud_cli.specs.Sizes.{IsWithin, bytes_named, cut_unit, number_named, parts_named, size_named, units};

use crate::split_options::PartsWanted;

/// The number of this text, `least` to `most`: decimal digits, and a plus may stand before them.
pub(crate) fn number_named(least: u64, most: u64, text: &str) -> Option<u64>
    ensures number { result ≡ number_named least most text.now }
    ensures within { IfSome result (λ n. (least ≤ n) × (n ≤ most)) }
{
    let number = text.parse::<u64>().ok()?;
    if (least..=most).contains(&number) {
        Some(number)
    } else {
        None
    }
}

/// What `--parts` says with this text.
pub fn parts_named(text: &str) -> Option<PartsWanted>
    ensures parts { result ≡ parts_named text.now }
    ensures within { IfSome result IsWithin }
{
    let number = number_named(1, 9_999, text)?;
    Some(PartsWanted::Number(number as u16))
}

/// The text before the letter of this unit, where it ends in it.
fn cut_unit(unit: char, text: &str) -> Option<&str>
    requires { unit < 128 }
    ensures { option_map (λ s. s.now) result ≡ cut_unit unit text.now }
{
    text.strip_suffix(unit)
}

/// So many of this unit.
fn units(unit: u64, text: &str) -> Option<u64>
    ensures { result ≡ units unit text.now }
{
    number_named(1, u64::MAX, text)?.checked_mul(unit)
}

/// The bytes of this text: a number of them, or of K, M or G.
fn bytes_named(text: &str) -> Option<u64>
    ensures { result ≡ bytes_named text.now }
{
    if let Some(kibibytes) = cut_unit('K', text) {
        units(1_024, kibibytes)
    } else if let Some(mebibytes) = cut_unit('M', text) {
        units(1_048_576, mebibytes)
    } else if let Some(gibibytes) = cut_unit('G', text) {
        units(1_073_741_824, gibibytes)
    } else {
        units(1, text)
    }
}

/// What `--bytes` says with this text.
pub fn size_named(text: &str) -> Option<PartsWanted>
    ensures size { result ≡ size_named text.now }
    ensures within { IfSome result IsWithin }
{
    let bytes = bytes_named(text)?;
    Some(PartsWanted::Bytes(bytes))
}

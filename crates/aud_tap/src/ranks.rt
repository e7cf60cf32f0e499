//! An order of offsets.
ghost use Rattle.std.specs.Prelude.{◌≡◌};
ghost use Rattle.aud_tap.specs.Rank.{after_byte, number_of, rank};

/// The two numbers after one byte more.
fn after_byte(numbers: (u64, u64), byte: u8) -> (u64, u64)
    ensures { result ≡ after_byte numbers byte }
{
    let (high, low) = numbers;
    if byte == b'-' {
        return (low, 0);
    }
    (
        high,
        low.wrapping_mul(10).wrapping_add(u64::from(byte % 16)),
    )
}

/// The two numbers as one, of which the first counts more.
fn number_of(high: u64, low: u64) -> u128
    ensures { result ≡ number_of (high, low) }
{
    u128::from(high) * 18_446_744_073_709_551_616 + u128::from(low)
}

/// A number for an offset, which grows as a server's offsets do, such as `1700000000000-5`. Texts of different ranks are
/// different; different texts may have one rank.
pub fn rank(offset: &str) -> u128
    ensures { result ≡ rank offset.now }
{
    let mut numbers = (0, 0);
    for byte in offset.as_bytes() {
        numbers = after_byte(numbers, *byte);
    }
    number_of(numbers.0, numbers.1)
}

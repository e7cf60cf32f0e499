//! The bytes by which texts differ most, mixed to a number.
//!
//! Each byte counts for the upper half of the number, and what is greater in a digit of the one word doesn't make up for
//! what is less in one of the other. It promises nothing but to take few instructions: whoever finds something by it
//! compares the whole text.
ghost use Rattle.std.specs.Prelude.{◌+◌, ◌≤◌, length};

/// The 16 bytes in front of the last `after` ones, and the key; 0 of a text that has fewer.
pub fn mixed_ending(text: &str, after: usize, key: u64) -> u64 {
    let bytes = text.as_bytes();
    if bytes.len() < 16 || bytes.len() - 16 < after {
        return 0;
    }
    let start = bytes.len() - 16 - after;
    mixed(word_at(bytes, start) ^ key, word_at(bytes, start + 8))
}

/// The first and the last 16 bytes: of a name as long as that of a tap may be, all.
pub fn mixed_name(name: &[u8]) -> u64 {
    let (first, last) = ends(name);
    let outer = mixed(first, last);
    if name.len() <= 16 {
        return outer;
    }
    let (first, last) = ends(&name[8..name.len() - 8]);
    outer ^ mixed(first, last)
}

/// Two words, mixed.
fn mixed(first: u64, last: u64) -> u64 {
    let word = first.wrapping_mul(0x9e37_79b9_7f4a_7c15) ^ last;
    (word ^ (word >> 32)).wrapping_mul(0xd6e8_feb8_6659_fd93)
}

/// The eight bytes from this place on, as a number.
fn word_at(bytes: &[u8], at: usize) -> u64
    requires { at + 8 ≤ length bytes.now }
{
    u64::from_le_bytes([
        bytes[at],
        bytes[at + 1],
        bytes[at + 2],
        bytes[at + 3],
        bytes[at + 4],
        bytes[at + 5],
        bytes[at + 6],
        bytes[at + 7],
    ])
}

/// The first and the last eight bytes as numbers, or those of fewer bytes.
fn ends(bytes: &[u8]) -> (u64, u64) {
    if let (Some(first), Some(last)) = (bytes.first_chunk::<8>(), bytes.last_chunk::<8>()) {
        return (u64::from_le_bytes(*first), u64::from_le_bytes(*last));
    }
    if let (Some(first), Some(last)) = (bytes.first_chunk::<4>(), bytes.last_chunk::<4>()) {
        let (first, last) = (u32::from_le_bytes(*first), u32::from_le_bytes(*last));
        return (u64::from(first), u64::from(last));
    }
    let mut word: u64 = 0;
    for byte in bytes {
        word = (word << 8) | u64::from(*byte);
    }
    (0, word)
}

//! The name that a line begins with.
ghost use Rattle.std.specs.Prelude.{◌≡◌, option_map, take, IfSome, IsTrue};
ghost use Rattle.aud_tap.specs.TapName.{is_tap_name};
ghost use Rattle.aud_input.specs.LineName.{name_of};

use aud_reader::{cut_at_blank, tap_name};

/// So many bytes have a tap's name and the blank after it.
pub const FRONT: usize = 33;

/// The first bytes, so many, or all where there are fewer.
pub fn first_bytes(count: usize, bytes: &[u8]) -> &[u8]
    ensures { result.now ≡ take count bytes.now }
{
    if bytes.len() < count {
        bytes
    } else {
        &bytes[..count]
    }
}

/// The name that these bytes begin with, where that can be a tap's.
fn name_in(front: &[u8]) -> Option<&str>
    ensures value { option_map (λ s. s.now) result ≡ name_of front.now }
    ensures form { IfSome result (λ s. IsTrue (is_tap_name s.now)) }
{
    let (name, _) = cut_at_blank(front)?;
    tap_name(name)
}

/// The name that a line begins with, where that can be a tap's. No more than the line's first 33 bytes are looked at.
pub fn name_of(line: &[u8]) -> Option<&str>
    ensures value { option_map (λ s. s.now) result ≡ name_of line.now }
    ensures form { IfSome result (λ s. IsTrue (is_tap_name s.now)) }
{
    name_in(first_bytes(FRONT, line))
}

//! The name of a tap, before the first blank of a line.
ghost use Rattle.std.specs.Prelude.{◌≡◌, ◌==◌, IfSome, IsTrue, option_map, position};
ghost use Rattle.aud_tap.specs.Forms.{passing};
ghost use Rattle.aud_tap.specs.TapName.{is_tap_name};
ghost use Rattle.aud_reader.specs.Record.{cut_at_blank};

use aud_tap::is_tap_name;

/// The bytes as a text, if they are a tap's name.
pub fn tap_name(name: &[u8]) -> Option<&str>
    ensures value { option_map (λ s. s.now) result ≡ passing is_tap_name name.now }
    ensures form { IfSome result (λ s. IsTrue (is_tap_name s.now)) }
{
    let Ok(text) = str::from_utf8(name) else {
        return None;
    };
    if !is_tap_name(text) {
        return None;
    }
    Some(text)
}

fn first_blank(line: &[u8]) -> Option<usize>
    ensures { result ≡ position (λ b. b == 32) line.now }
{
    line.iter().position(|b| *b == b' ')
}

/// What stands before the first blank, and what stands after it.
pub fn cut_at_blank(line: &[u8]) -> Option<(&[u8], &[u8])>
    ensures { option_map (λ cut. (cut.0.now, cut.1.now)) result ≡ cut_at_blank line.now }
{
    match first_blank(line) {
        Some(at) if at < line.len() => Some((&line[..at], &line[at + 1..])),
        _ => None,
    }
}

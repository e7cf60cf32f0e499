//! At which byte of a text a token begins.
ghost use Rattle.std.specs.Prelude.{◌≡◌, ◌≤◌, length};
ghost use Rattle.aud_refusals.specs.NoJson.{begin_of_token, begins, is_bracket, is_comma_or_colon, is_white, mode_after};
ghost use Rattle.aud_refusals.specs.declared.token_place.Mode.TheVariants.{Between};

/// Within what a byte stands.
#[derive(Clone, Copy, Drop)]
pub enum Mode {
    Between,
    InWord,
    /// In quotes.
    InText,
    /// In quotes, after a backslash.
    InEscape,
}

pub(crate) fn is_white(b: u8) -> bool
    ensures { result ≡ is_white b }
{
    matches!(b, b' ' | b'\t' | b'\n' | b'\r')
}

fn is_comma_or_colon(b: u8) -> bool
    ensures { result ≡ is_comma_or_colon b }
{
    matches!(b, b',' | b':')
}

fn is_bracket(b: u8) -> bool
    ensures { result ≡ is_bracket b }
{
    matches!(b, b'[' | b']' | b'{' | b'}')
}

fn mode_after(mode: Mode, b: u8) -> Mode
    ensures { result ≡ mode_after mode b }
{
    match mode {
        Mode::Between if b == b'"' => Mode::InText,
        Mode::Between | Mode::InWord => {
            if is_white(b) || is_comma_or_colon(b) || is_bracket(b) {
                Mode::Between
            } else {
                Mode::InWord
            }
        }
        Mode::InText if b == b'"' => Mode::Between,
        Mode::InText if b == b'\\' => Mode::InEscape,
        Mode::InText | Mode::InEscape => Mode::InText,
    }
}

/// Whether a token begins at this byte.
fn begins(mode: Mode, b: u8) -> bool
    ensures { result ≡ begins mode b }
{
    match mode {
        Mode::Between => !(is_white(b) || is_comma_or_colon(b)),
        Mode::InWord => is_bracket(b),
        Mode::InText | Mode::InEscape => false,
    }
}

/// The byte, from 0, at which a token begins that so many others come before; the end, where there is none.
pub(crate) fn begin_of_token(text: &[u8], before: usize) -> usize
    ensures place { result ≡ begin_of_token Between before 0 text.now }
    ensures inside { result ≤ length text.now }
{
    let mut mode = Mode::Between;
    let mut left = before;
    for (at, b) in text.iter().enumerate() {
        let begins = begins(mode, *b);
        mode = mode_after(mode, *b);
        if begins {
            if left == 0 {
                return at;
            }
            left -= 1;
        }
    }
    text.len()
}

//! Several files as one input.
ghost use Rattle.std.specs.Prelude.{◌≡◌, ◌<◌, ◌-◌, ◌∷◌, List, ℕ, length, map, Option, option_map, Bool};
ghost use Rattle.std.specs.Io.{ReadsAtMost};
ghost use Rattle.std.specs.Io.KnownBytes.{ReadConsumes};
ghost use Rattle.aud_input.specs.Sources.{all_known, is_begun, joined, left_in};

use std::collections::VecDeque;
use std::io::{self, Read};

/// Files that are read one after the other, as one input. A file's end ends its last line: of each but the last, a
/// newline is put in after the last byte where that is none. A file is dropped once it was read.
#[derive(Drop)]
pub struct Sources<R> {
    current: R,
    waiting: VecDeque<R>,
    begun: bool,
}

/// Whether what comes after these bytes stands on a line that has begun.
pub fn is_begun(bytes: &[u8]) -> bool
    requires { 0 < length bytes.now }
    ensures { (begun : Bool) → result ≡ is_begun begun bytes.now }
{
    bytes[bytes.len() - 1] != b'\n'
}

impl<R> Sources<R> {
    /// A file, and those that are read after it.
    pub fn new(first: R, others: VecDeque<R>) -> Sources<R>
        ensures { (remaining : R → Option (List ℕ))
            → left_in remaining result
            ≡ option_map joined (all_known (map remaining (first ∷ others.items))) }
    {
        Sources {
            current: first,
            waiting: others,
            begun: false,
        }
    }

    /// The file that is read now: after an error, the one whose read failed.
    pub fn current(&self) -> &R
        ensures { result.now ≡ self.now.current }
    {
        &self.current
    }
}

impl<R: Read + Drop> Read for Sources<R> {
    ghost use Rattle.aud_input.specs.Sources.{left_in};

    ghost remaining = { left_in R.remaining };

    fn read(&mut self, buf: &mut [u8]) -> io::Result<usize>
        ensures bound { ReadsAtMost result buf.new }
        ensures bytes { ReadConsumes (left_in R.remaining self.old)
            (left_in R.remaining self.new) result buf.new }
    {
        if buf.is_empty() {
            return Ok(0);
        }
        'files: loop {
            let n = self.current.read(buf)?;
            if n > 0 {
                self.begun = is_begun(&buf[..n]);
                return Ok(n);
            }
            let Some(next) = self.waiting.pop_front() else {
                return Ok(0);
            };
            self.current = next;
            if self.begun {
                self.begun = false;
                buf[0] = b'\n';
                return Ok(1);
            }
        }
    }
}

//! Lines one after the other.
ghost use Rattle.std.specs.Prelude.{◌≡◌, ◌≢◌, ◌+◌, ◌^◌, ◌<◌, ◌≤◌, ◌++◌, ◌∷◌, [], List, ℕ, length, false, Some, IfOk, IfErr, OnOk};
ghost use Rattle.aud_reader.specs.Lines.{IsFront, has_newline, lines_to_come};
ghost use Rattle.aud_reader.specs.Private.Bounds.{line_within};
ghost use Rattle.aud_reader.specs.Private.SplitterSteps.{at_line};

use crate::fault::ReadFault;
use crate::line::{LentLine, line_at, next_line};
use std::alloc::{AllocError, Global};
use std::marker::Model;

/// Where a line stands among the bytes of all.
#[derive(Clone, Copy, Drop)]
pub struct Bounds {
    number: u64,
    start: usize,
    length: usize,
}

/// Lines one after the other, whose bytes stand in one block of memory. It grows with the lines, and is kept when they
/// are let go.
#[derive(Drop)]
pub struct Lines {
    alloc: Global,
    bytes: Vec<u8>,
    bounds: Vec<Bounds>,
}

impl Model for Lines {
    ghost use Rattle.std.specs.Prelude.{List};
    ghost use Rattle.aud_reader.specs.declared.line.Line.{Line};
    ghost use Rattle.aud_reader.specs.Private.Bounds.{AreWithin, lines_at};

    ghost Value = { List Line };

    ghost view = { λ s. lines_at s.bytes.items s.bounds.items };

    ghost invariant = { λ s. AreWithin s.bytes.items s.bounds.items };
}

/// The line that stands there.
fn lent_line(bytes: &[u8], at: Bounds) -> LentLine<'_>
    requires within { at.start + at.length ≤ length bytes.now }
    ensures { result ≡ line_within bytes.now at }
{
    LentLine {
        number: at.number,
        bytes: &bytes[at.start..at.start + at.length],
    }
}

impl Lines {
    /// No lines, and no room for any.
    pub fn new(alloc: Global) -> Lines
        ensures { result ≡ [] }
    {
        Lines {
            alloc,
            bytes: Vec::new(alloc),
            bounds: Vec::new(alloc),
        }
    }

    /// Puts a line after the others. Its bytes are copied.
    pub fn push(&mut self, line: &LentLine<'_>) -> Result<(), AllocError>
        ensures pushed { OnOk result (self.new ≡ self.old ++ line.now ∷ []) }
        ensures kept { IfErr result (λ _. self.new ≡ self.old) }
    {
        let start = self.bytes.len();
        self.bytes.extend_from_slice(line.bytes)?;
        self.bounds.push(Bounds {
            number: line.number,
            start,
            length: line.bytes.len(),
        })?;
        Ok(())
    }

    /// Puts these lines after the others. Their bytes are copied together.
    pub fn append(&mut self, lines: &Lines) -> Result<(), AllocError>
        ensures { OnOk result (self.new ≡ self.old ++ lines.now) }
    {
        let front = self.bytes.len();
        self.bytes.extend_from_slice(&lines.bytes)?;
        for at in &lines.bounds {
            self.bounds.push(Bounds {
                start: front + at.start,
                ..*at
            })?;
        }
        Ok(())
    }

    /// Puts the lines that end in a text after the others, up to the first that is too long. The first has this number,
    /// and the text is copied as one. Gives the number of the line that has begun, and its front.
    pub(crate) fn cut<'a>(
        &mut self,
        number: u64,
        text: &'a [u8],
    ) -> Result<(u64, &'a [u8]), ReadFault>
        requires { number + length text.now < 2 ^ 64 }
        ensures lines { IfOk result (λ begun. (more : List ℕ)
            → lines_to_come (at_line self.new begun.0) (begun.1.now ++ more)
            ≡ lines_to_come (at_line self.old number) (text.now ++ more)) }
        ensures refused { IfErr result (λ e. e ≢ ReadFault.Memory → (more : List ℕ)
            → lines_to_come (at_line self.old number) (text.now ++ more)
            ≡ record { lines = self.new; fault = Some e }) }
        ensures begun { IfOk result (λ begun. has_newline begun.1.now ≡ false) }
        ensures number { IfOk result (λ begun. begun.0 ≤ number + length text.now) }
        ensures kept { IsFront self.old self.new }
        ensures front { (more : List ℕ)
            → IsFront self.new (lines_to_come (at_line self.old number) (text.now ++ more)).lines }
    {
        self.bytes.extend_from_slice(text)?;
        let mut begun = number;
        let mut left = text;
        'lines: while let Some((front, others)) = next_line(left) {
            let line = match line_at(begun, front) {
                Ok(line) => line,
                Err(fault) => return Err(fault),
            };
            self.bounds.push(Bounds {
                number: line.number,
                start: self.bytes.len() - left.len(),
                length: line.bytes.len(),
            })?;
            begun += 1;
            left = others;
        }
        Ok((begun, left))
    }

    /// How many lines there are.
    pub fn len(&self) -> usize
        ensures { result ≡ length self.now }
    {
        self.bounds.len()
    }

    /// The lines, whose bytes are borrowed.
    pub fn lent(&self) -> Result<Vec<LentLine<'_>>, AllocError>
        ensures { IfOk result (λ lines. lines.items ≡ self.now) }
    {
        let mut lines = Vec::with_capacity(self.alloc, self.bounds.len())?;
        for at in &self.bounds {
            lines.push(lent_line(&self.bytes, *at))?;
        }
        Ok(lines)
    }

    /// Lets the lines go, and keeps their room.
    pub fn clear(&mut self)
        ensures { self.new ≡ [] }
    {
        self.bytes.clear();
        self.bounds.clear();
    }
}

//! The first of the lines that are refused.
ghost use Rattle.std.specs.Prelude.{◌≡◌, None};
ghost use Rattle.aud_parts.specs.FirstRefusal.{first_refused};

use aud_reader::InputCode;
use std::marker::Model;

/// A line that is refused; lines count from 1 over all files.
#[derive(Clone, Copy, Drop)]
pub struct RefusedLine {
    pub number: u64,
    pub code: InputCode,
}

/// Of the lines that were refused so far the one with the least number; seen as that one.
#[derive(Drop)]
pub struct FirstRefusal {
    line: Option<RefusedLine>,
}

impl Model for FirstRefusal {
    ghost use Rattle.std.specs.Prelude.{Option};
    ghost use Rattle.aud_parts.specs.declared.tap_index.first_refusal.RefusedLine.{RefusedLine};

    ghost Value = { Option RefusedLine };

    ghost view = { λ s. s.line };
}

impl FirstRefusal {
    /// No line is refused.
    pub fn new() -> FirstRefusal
        ensures { result ≡ None }
    {
        FirstRefusal { line: None }
    }

    /// This line is refused too.
    pub fn add(&mut self, number: u64, code: InputCode)
        ensures { self.new ≡ first_refused self.old (record { number = number; code = code }) }
    {
        let line = RefusedLine { number, code };
        self.line = match self.line {
            Some(first) if first.number <= number => Some(first),
            _ => Some(line),
        };
    }

    /// The first line that is refused, if one is.
    pub fn line(&self) -> Option<RefusedLine>
        ensures { result ≡ self.now }
    {
        self.line
    }
}

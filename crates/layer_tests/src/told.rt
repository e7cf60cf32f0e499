//! A text that is written piece by piece.
use std::alloc::{AllocError, Global};
use std::fmt::{Debug, Display};

/// The text so far. Once memory runs out, that is told at the end.
#[derive(Drop)]
pub struct Told {
    text: String,
    is_whole: bool,
}

impl Told {
    pub fn new(alloc: Global) -> Told {
        Told {
            text: String::new(alloc),
            is_whole: true,
        }
    }

    /// Adds a text.
    pub fn text(&mut self, text: &str) {
        if self.text.push_str(text).is_err() {
            self.is_whole = false;
        }
    }

    /// Adds what is displayed.
    pub fn show(&mut self, what: &impl Display) {
        if write!(self.text, "{what}").is_err() {
            self.is_whole = false;
        }
    }

    /// Adds a blank and what is printed in the form of `Debug`.
    pub fn debug(&mut self, what: &impl Debug) {
        if write!(self.text, " {what:?}").is_err() {
            self.is_whole = false;
        }
    }

    /// Notes that memory ran out.
    pub fn fail(&mut self) {
        self.is_whole = false;
    }

    /// The text, unless memory ran out.
    pub fn finish(self) -> Result<String, AllocError> {
        if self.is_whole {
            Ok(self.text)
        } else {
            Err(AllocError)
        }
    }
}

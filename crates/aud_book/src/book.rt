//! The lines of each tap, and the order in which they came.
ghost use Rattle.std.specs.Prelude.{◌≡◌, ◌≢◌, true, false, ◌+◌, ◌<◌, [], ◌∷◌, ◌++◌, IfOk, OnOk, OnErr, vec_len, length, map};
ghost use Rattle.aud_book.specs.History.{IsMergingOf, lines_at, texts, pairs};
ghost use Rattle.aud_book.specs.Taps.{seen, seen_taps, names_of, unposted};

use crate::lines::{copied, same_lines};
use std::alloc::{AllocError, Global};

/// A tap's lines, in the order in which they were posted, without its name and the blank after it. All are borrowed.
#[derive(Drop)]
pub struct TapLines<'a> {
    /// The tap's name.
    pub name: &'a str,
    /// Its lines: the first is its header.
    pub lines: Vec<&'a [u8]>,
}

/// The lines of each tap, and the history: every line in the order in which it came, with the place of its tap. Places
/// count from 0. Each tap's lines are those that the history has for it, in their order.
#[derive(Drop)]
pub struct Book<'a> {
    pub(crate) taps: Vec<TapLines<'a>>,
    pub(crate) history: Vec<(usize, &'a [u8])>,
    ghost projected: { IsMergingOf (seen_taps taps.items) (pairs history.items) },
}

impl<'a> Book<'a> {
    /// A book of taps of these names, with no line.
    pub fn new(alloc: Global, names: &[&'a str]) -> Result<Book<'a>, AllocError>
        ensures taps { IfOk result (λ b. seen_taps b.taps.items ≡ map unposted names.now) }
        ensures len { IfOk result (λ b. vec_len b.taps ≡ length names.now) }
        ensures empty { IfOk result (λ b. b.history.items ≡ []) }
    {
        let mut taps = Vec::with_capacity(alloc, names.len())?;
        for i in 0..names.len() {
            taps.push(TapLines {
                name: names[i],
                lines: Vec::new(alloc),
            })?;
        }
        Ok(Book {
            taps,
            history: Vec::new(alloc),
        })
    }

    /// Adds a line at the end of the history and of its tap's lines, and answers its place in the history, from 0. The
    /// tap is told by its place. Nothing is changed where memory runs out.
    pub fn append(&mut self, tap: usize, line: &'a [u8]) -> Result<usize, AllocError>
        requires { tap < vec_len self.old.taps }
        ensures place { IfOk result (λ n. n ≡ vec_len self.old.history) }
        ensures ok { OnOk result (pairs self.new.history.items
            ≡ pairs self.old.history.items ++ (tap, line.now) ∷ []) }
        ensures err { OnErr result (pairs self.new.history.items ≡ pairs self.old.history.items) }
        ensures taps { vec_len self.new.taps ≡ vec_len self.old.taps }
        ensures names { names_of self.new.taps.items ≡ names_of self.old.taps.items }
    {
        let Book { taps, history } = self;
        history.reserve(1)?;
        let list = &mut taps[tap].lines;
        list.reserve(1)?;
        list.push_reserved(line);
        let place = history.len();
        history.push_reserved((tap, line));
        Ok(place)
    }

    /// The lines of a tap, in a list of their own.
    pub fn lines_of(&self, alloc: Global, tap: usize) -> Result<Vec<&'a [u8]>, AllocError>
        requires { tap < vec_len self.now.taps }
        ensures { IfOk result (λ v. texts v.items ≡ lines_at (seen_taps self.now.taps.items) tap) }
    {
        copied(alloc, &self.taps[tap].lines)
    }

    /// How many lines there are, of all taps.
    pub fn len(&self) -> usize
        ensures { result ≡ vec_len self.now.history }
    {
        self.history.len()
    }
}

/// Whether the tap has this name and these lines.
pub fn is_tap_of(tap: &TapLines<'_>, name: &str, lines: &[&[u8]]) -> bool
    ensures same { result ≡ true
        → seen tap.now ≡ record { name = name.now; lines = texts lines.now } }
    ensures other { result ≡ false
        → seen tap.now ≢ record { name = name.now; lines = texts lines.now } }
{
    if tap.name != name {
        return false;
    }
    same_lines(&tap.lines, lines)
}

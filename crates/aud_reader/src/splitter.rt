//! The lines of an input that comes in pieces.
ghost use Rattle.std.specs.Prelude.{◌≡◌, ◌+◌, ◌-◌, ◌^◌, ◌<◌, ◌≤◌, ◌++◌, [], List, ℕ, length, Some, None, Err, IfOk, IfErr, OnOk, IfSome, false, ◌≢◌};
ghost use Rattle.aud_reader.specs.Lines.{IsFront, lines_of, lines_to_come, has_newline, IsPartial, line_at, result_of};
ghost use Rattle.aud_reader.specs.Private.SplitterSteps.{answer_of, line_begun, line_ended, lines_with};

use crate::fault::{ReadFault, refuse};
use crate::line::{line_at, next_line};
use crate::lines::Lines;
use std::alloc::Global;
use std::marker::Model;
use std::mem;

/// Cuts an input that comes in pieces into lines.
///
/// It keeps the lines that [`take`](Splitter::take) hasn't handed out, and the front of the line that has begun. After
/// a refusal it gives that refusal from then on, and looks at no more bytes.
/// [`lines_in_any_pieces`](crate::lines_in_any_pieces) says what it gives over any list of calls.
#[derive(Drop)]
pub struct Splitter {
    alloc: Global,
    waiting: Lines,
    number: u64,
    rest: Vec<u8>,
    fault: Option<ReadFault>,
}

impl Model for Splitter {
    ghost use Rattle.std.specs.Prelude.{◌≡◌, None};
    ghost use Rattle.aud_reader.specs.Lines.{Split, IsPartial};

    ghost Value = { Split };

    ghost view = { λ s. record { waiting = s.waiting; number = s.number; rest = s.rest.items; fault = s.fault } };

    ghost invariant = { λ s. s.fault ≡ None → IsPartial s.rest.items };
}

/// Keeps the line of a number, of which the rest has the front and these bytes are what follows.
fn keep_ended(
    lines: &mut Lines,
    number: u64,
    rest: &mut Vec<u8>,
    front: &[u8],
) -> Result<(), ReadFault>
    ensures lines { result ≢ Err ReadFault.Memory
        → lines.new ≡ lines_with lines.old (line_at number (rest.old.items ++ front.now)) }
    ensures value { result ≢ Err ReadFault.Memory
        → result ≡ answer_of (line_at number (rest.old.items ++ front.now)) }
    ensures kept { IfErr result (λ _. lines.new ≡ lines.old) }
{
    rest.extend_from_slice(front)?;
    match line_at(number, rest) {
        Ok(line) => Ok(lines.push(&line)?),
        Err(fault) => Err(fault),
    }
}

impl Splitter {
    ghost use Rattle.aud_reader.specs.Lines.{lines_to_come};

    /// A splitter at the start of an input.
    pub fn new(alloc: Global) -> Splitter
        ensures state { result ≡ record { waiting = []; number = 1; rest = []; fault = None } }
        ensures lines { (text : List ℕ) → lines_to_come result text ≡ lines_of text }
    {
        Splitter {
            alloc,
            waiting: Lines::new(alloc),
            number: 1,
            rest: Vec::new(alloc),
            fault: None,
        }
    }

    /// Hands out the whole lines that stand and weren't handed out yet; after a refusal too.
    pub fn take(&mut self) -> Lines
        ensures lines { result ≡ self.old.waiting }
        ensures left { self.new ≡ record self.old { waiting = [] } }
    {
        let empty = Lines::new(self.alloc);
        mem::replace(&mut self.waiting, empty)
    }

    /// Hands out the whole lines that stand and weren't handed out yet, in the place of the lines that are given, whose
    /// room is kept for the next ones; after a refusal too.
    pub fn take_into(&mut self, lines: &mut Lines)
        ensures lines { lines.new ≡ self.old.waiting }
        ensures left { self.new ≡ record self.old { waiting = [] } }
    {
        lines.clear();
        mem::swap(&mut self.waiting, lines);
    }

    /// The whole lines that stand and weren't handed out yet, borrowed; after a refusal too.
    pub fn waiting(&self) -> &Lines
        ensures { result.now ≡ self.now.waiting }
    {
        &self.waiting
    }

    /// Lets the whole lines that stand go, as if they were handed out. Their room is kept for the next ones.
    pub fn clear(&mut self)
        ensures { self.new ≡ record self.old { waiting = [] } }
    {
        self.waiting.clear();
    }

    /// Ends the line that has begun: these bytes are the last of it.
    fn end_line(&mut self, front: &[u8]) -> Result<(), ReadFault>
        requires going { self.old.fault ≡ None }
        requires number { self.old.number + 1 < 2 ^ 64 }
        ensures after { result ≢ Err ReadFault.Memory → self.new ≡ line_ended self.old front.now }
        ensures value { result ≡ result_of self.new.fault }
        ensures number { self.new.number ≤ self.old.number + 1 }
        ensures kept { IfErr result (λ _. self.new.waiting ≡ self.old.waiting) }
    {
        let kept = keep_ended(&mut self.waiting, self.number, &mut self.rest, front);
        self.rest.clear();
        match kept {
            Ok(()) => {
                self.number += 1;
                Ok(())
            }
            Err(fault) => refuse(&mut self.fault, fault),
        }
    }

    /// Keeps the front of a line, in which no newline stands.
    fn begin_line(&mut self, front: &[u8]) -> Result<(), ReadFault>
        requires going { self.old.fault ≡ None }
        requires no_newline { has_newline front.now ≡ false }
        ensures after { result ≢ Err ReadFault.Memory → self.new ≡ line_begun self.old front.now }
        ensures value { result ≡ result_of self.new.fault }
        ensures number { self.new.number ≡ self.old.number }
        ensures partial { self.new.fault ≡ None → IsPartial self.new.rest }
        ensures kept { self.new.waiting ≡ self.old.waiting }
    {
        let Ok(()) = self.rest.extend_from_slice(front) else {
            return refuse(&mut self.fault, ReadFault::Memory);
        };
        match line_at(self.number, &self.rest) {
            Ok(_) => Ok(()),
            Err(fault) => refuse(&mut self.fault, fault),
        }
    }

    /// Ends the lines of what follows a newline, and begins the last.
    fn cut(&mut self, text: &[u8]) -> Result<(), ReadFault>
        requires going { self.old.fault ≡ None }
        requires none { self.old.rest ≡ [] }
        requires number { self.old.number + length text.now < 2 ^ 64 }
        ensures value { result ≡ result_of self.new.fault }
        ensures lines { (more : List ℕ) → result ≢ Err ReadFault.Memory
            → lines_to_come self.new more ≡ lines_to_come self.old (text.now ++ more) }
        ensures partial { OnOk result (IsPartial self.new.rest) }
        ensures number { self.new.number ≤ self.old.number + length text.now }
        ensures kept { IsFront self.old.waiting self.new.waiting }
        ensures front { (more : List ℕ)
            → IsFront self.new.waiting (lines_to_come self.old (text.now ++ more)).lines }
    {
        match self.waiting.cut(self.number, text) {
            Ok((number, begun)) => {
                self.number = number;
                self.begin_line(begun)
            }
            Err(fault) => refuse(&mut self.fault, fault),
        }
    }

    /// Takes the next piece of the input.
    ///
    /// The first line that is too long is refused by its number, as soon as its bytes are too many; the lines before it
    /// stay for [`take`](Splitter::take). Where memory runs out, the lines that wait are those that waited before, and
    /// a front of those that this piece ended. The numbers of lines are below 2 to the 64th.
    pub fn feed(&mut self, piece: &[u8]) -> Result<(), ReadFault>
        requires { self.old.number + length piece.now < 2 ^ 64 }
        ensures value { result ≡ result_of self.new.fault }
        ensures lines { (more : List ℕ) → result ≢ Err ReadFault.Memory
            → lines_to_come self.new more ≡ lines_to_come self.old (piece.now ++ more) }
        ensures partial { OnOk result (IsPartial self.new.rest) }
        ensures refused { IfSome self.old.fault (λ fault. (result ≡ Err fault)
            × (self.new ≡ self.old)) }
        ensures number { self.new.number ≤ self.old.number + length piece.now }
        ensures kept { IsFront self.old.waiting self.new.waiting }
        ensures front { (more : List ℕ)
            → IsFront self.new.waiting (lines_to_come self.old (piece.now ++ more)).lines }
    {
        if let Some(fault) = self.fault {
            return Err(fault);
        }
        let Some((front, others)) = next_line(piece) else {
            return self.begin_line(piece);
        };
        self.end_line(front)?;
        self.cut(others)
    }

    /// Ends the input: the lines that weren't handed out yet, with what came after the last newline.
    ///
    /// It refuses where an earlier piece was refused, and when out of memory.
    pub fn finish(self) -> Result<Lines, ReadFault>
        requires { self.number < 2 ^ 64 - 1 }
        ensures ok { IfOk result (λ ls. lines_to_come self []
            ≡ record { lines = ls; fault = None }) }
        ensures err { IfErr result (λ e. e ≢ ReadFault.Memory → self.fault ≡ Some e) }
        ensures refused { IfSome self.fault (λ fault. result ≡ Err fault) }
    {
        let mut this = self;
        if let Some(fault) = this.fault {
            return Err(fault);
        }
        if this.rest.is_empty() {
            return Ok(this.take());
        }
        this.end_line(&[])?;
        Ok(this.take())
    }
}

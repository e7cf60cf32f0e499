//! The text of a bundle, while it is written.
ghost use Rattle.std.specs.Prelude.{◌≡◌, OnOk};
ghost use Rattle.aud_tap.specs.declared.records.Rec.TheVariants.{Node, Client};
ghost use Rattle.aud_sim.specs.Bundle.{no_lines, with_text, with_text_of, with_line};

use aud_reader::ReadFault;
use aud_tap::{ClientRec, NodeRec, Rec, is_tap_name};
use aud_writer::{is_well_formed, write_line};
use std::alloc::{AllocError, Global};
use std::marker::Model;

/// A fault of the nodes' logs.
#[derive(Clone, Copy, Drop)]
pub enum LogFault {
    /// None: lines are written as they are.
    Nothing,
    /// The next line is not written.
    LoseLine,
    /// The next line is written twice.
    RepeatLine,
}

/// The lines so far, whether each line that was to be written could be a bundle's, and the fault that waits for the
/// next line of a node's log.
#[derive(Drop)]
pub struct Bundle {
    pub alloc: Global,
    pub text: Vec<u8>,
    pub is_whole: bool,
    pub fault: LogFault,
}

impl Model for Bundle {
    ghost use Rattle.aud_sim.specs.Bundle.{Lines};

    ghost Value = { Lines };

    ghost view = { λ b. record { text = b.text.items; is_whole = b.is_whole; fault = b.fault } };
}

impl Bundle {
    /// No line.
    pub fn new(alloc: Global) -> Bundle
        ensures { result ≡ no_lines }
    {
        Bundle {
            alloc,
            text: Vec::new(alloc),
            is_whole: true,
            fault: LogFault::Nothing,
        }
    }

    /// Puts a line of this text at the end.
    fn push(&mut self, line: &[u8]) -> Result<(), AllocError>
        ensures { OnOk result (self.new ≡ with_text line.now self.old) }
    {
        self.text.extend_from_slice(line)?;
        self.text.push(b'\n')?;
        Ok(())
    }

    /// Puts the line of a record, which is this text, at the end; a node's by the fault that waits.
    fn push_of(&mut self, rec: &Rec, line: &[u8]) -> Result<(), AllocError>
        ensures { OnOk result (self.new ≡ with_text_of rec.now line.now self.old) }
    {
        let Rec::Node(_) = rec else {
            return self.push(line);
        };
        let fault = self.fault;
        self.fault = LogFault::Nothing;
        match fault {
            LogFault::Nothing => self.push(line),
            LogFault::LoseLine => Ok(()),
            LogFault::RepeatLine => {
                self.push(line)?;
                self.push(line)
            }
        }
    }

    /// Puts the line of a record at the end, by the fault that waits if it is a node's. One that can't be a bundle's is
    /// left out, and the text is not whole from then on.
    pub fn line(&mut self, name: &str, rec: &Rec) -> Result<(), AllocError>
        ensures { OnOk result (self.new ≡ with_line name.now rec.now self.old) }
    {
        if !is_tap_name(name) || !is_well_formed(rec) {
            self.is_whole = false;
            return Ok(());
        }
        match write_line(self.alloc, name, rec) {
            Ok(line) => self.push_of(rec, line.as_slice())?,
            Err(ReadFault::Input(_, _)) => self.is_whole = false,
            Err(ReadFault::Memory) => return Err(AllocError),
        }
        Ok(())
    }

    /// Puts the line of a node's record at the end.
    pub fn node(&mut self, name: &str, rec: NodeRec) -> Result<(), AllocError>
        ensures { OnOk result (self.new ≡ with_line name.now (Node rec) self.old) }
    {
        self.line(name, &Rec::Node(rec))
    }

    /// Puts the line of a client's record at the end.
    pub fn client(&mut self, name: &str, rec: ClientRec) -> Result<(), AllocError>
        ensures { OnOk result (self.new ≡ with_line name.now (Client rec) self.old) }
    {
        self.line(name, &Rec::Client(rec))
    }
}

//! The taps and the certificates of lines that come one after another.
ghost use Rattle.std.specs.Prelude.{◌≡◌, ◌≢◌, ◌++◌, ◌∷◌, [], List, None, Ok, Err, IfOk, IfErr, OnOk, true};
ghost use Rattle.aud_input.specs.declared.input.Layout.TheVariants.{Bundle};
ghost use Rattle.aud_reader.specs.declared.line.Line.{Line};
ghost use Rattle.aud_tap.specs.Names.{AreNamedOnce};
ghost use Rattle.aud_input.specs.Input.{opens_object, is_certificate, parts_of};
ghost use Rattle.aud_input.specs.Reader.{AreAmong, Holds, line_numbered, parts_to_come};

use crate::input::{Input, Layout};
use aud_reader::{BundleReader, LentLine, Line, Lines, ReadFault, Splitter};
use std::alloc::{AllocError, Global};
use std::hash::RandomState;
use std::marker::Model;
use std::thread::Threads;

/// So many lines are enough to be read by several threads.
const MAX_LINES: usize = 32_768;

/// So many bytes are enough, however few the lines are.
const MAX_BYTES: usize = 4_194_304;

/// Reads lines until one is refused: keeps the certificates, and of the others what the reader of the bundle keeps. For
/// more than one thread those wait until there are enough to be read together.
#[derive(Drop)]
pub struct PartsReader {
    alloc: Global,
    layout: Layout,
    taps: BundleReader,
    waiting: Lines,
    /// With how many bytes of the input the lines that wait came.
    bytes: usize,
    certificates: Vec<Line>,
}

impl Model for PartsReader {
    ghost use Rattle.aud_input.specs.Reader.{PartsSoFar};

    ghost Value = { PartsSoFar };

    ghost view = { λ s. record { layout = s.layout; taps = s.taps; waiting = s.waiting; certificates = s.certificates.items } };
}

/// Whether a line begins with `{`.
fn opens_object(line: &[u8]) -> bool
    ensures { result ≡ opens_object line.now }
{
    !line.is_empty() && line[0] == b'{'
}

/// Whether a line is a certificate.
fn is_certificate(layout: Layout, line: &LentLine<'_>) -> bool
    ensures { result ≡ is_certificate layout line.now }
{
    match layout {
        Layout::Bundle => false,
        Layout::BundleAndCertificates => opens_object(line.bytes),
    }
}

impl PartsReader {
    /// A reader before the first line. Texts are found again by their hashes under these keys.
    pub fn new(alloc: Global, keys: RandomState, layout: Layout) -> PartsReader
        ensures going { result.taps.fault ≡ None }
        ensures none { result.waiting ≡ [] }
        ensures parts { (lines : List Line) → parts_to_come result lines ≡ parts_of layout lines }
    {
        PartsReader {
            alloc,
            layout,
            taps: BundleReader::new(alloc, keys),
            waiting: Lines::new(alloc),
            bytes: 0,
            certificates: Vec::new(alloc),
        }
    }

    /// Reads the bundle's lines that wait.
    pub fn read_waiting<H: Threads + Sync>(
        &mut self,
        rt: &H,
        threads: usize,
    ) -> Result<(), ReadFault>
        requires going { self.old.taps.fault ≡ None }
        ensures going { OnOk result (self.new.taps.fault ≡ None) }
        ensures none { OnOk result (self.new.waiting ≡ []) }
        ensures parts { OnOk result ((more : List Line)
            → parts_to_come self.new more ≡ parts_to_come self.old more) }
        ensures refused { IfErr result (λ e. e ≢ ReadFault.Memory → (more : List Line)
            → parts_to_come self.old more ≡ Err e) }
        ensures waits { AreAmong self.new.waiting self.old.waiting }
        ensures held { IfErr result (λ e. e ≢ ReadFault.Memory → Holds e self.new.waiting) }
    {
        match self.taps.lines(rt, threads, &self.waiting) {
            Ok(()) => {
                self.waiting.clear();
                self.bytes = 0;
                Ok(())
            }
            Err(fault) => Err(fault),
        }
    }

    /// Keeps the next line.
    fn keep_line(&mut self, line: &LentLine<'_>) -> Result<(), AllocError>
        ensures going { self.new.taps ≡ self.old.taps }
        ensures parts { OnOk result ((more : List Line)
            → parts_to_come self.new more ≡ parts_to_come self.old (line.now ∷ more)) }
        ensures waits { OnOk result (AreAmong self.new.waiting
            (self.old.waiting ++ line.now ∷ [])) }
    {
        if is_certificate(self.layout, line) {
            self.certificates.push(line.copied(self.alloc)?)?;
        } else {
            self.waiting.push(line)?;
        }
        Ok(())
    }

    /// Keeps the next lines, each by itself.
    fn keep_each(&mut self, lines: &[LentLine<'_>]) -> Result<(), AllocError>
        ensures going { self.new.taps ≡ self.old.taps }
        ensures parts { OnOk result ((more : List Line)
            → parts_to_come self.new more ≡ parts_to_come self.old (lines.now ++ more)) }
        ensures waits { OnOk result (AreAmong self.new.waiting (self.old.waiting ++ lines.now)) }
    {
        for line in lines {
            self.keep_line(line)?;
        }
        Ok(())
    }

    /// Keeps the next lines, which came with so many bytes of the input: together, where none can be a certificate.
    pub fn keep_lines(&mut self, lines: &Lines, size: usize) -> Result<(), AllocError>
        ensures going { self.new.taps ≡ self.old.taps }
        ensures parts { OnOk result ((more : List Line)
            → parts_to_come self.new more ≡ parts_to_come self.old (lines.now ++ more)) }
        ensures waits { OnOk result (AreAmong self.new.waiting (self.old.waiting ++ lines.now)) }
    {
        self.bytes = self.bytes.saturating_add(size);
        match self.layout {
            Layout::Bundle => self.waiting.append(lines),
            Layout::BundleAndCertificates => self.keep_each(&lines.lent()?),
        }
    }

    /// Whether the next lines needn't be put after others to be read: no line waits, and none can be a certificate.
    fn reads_at_once(&self) -> bool
        ensures bundle { result ≡ true → self.now.layout ≡ Bundle }
        ensures none { result ≡ true → self.now.waiting ≡ [] }
    {
        match self.layout {
            Layout::Bundle => self.waiting.len() == 0,
            Layout::BundleAndCertificates => false,
        }
    }

    /// Reads the next lines by one thread, up to the first that is refused. They are kept only where one is.
    fn read_at_once<H: Threads + Sync>(&mut self, rt: &H, lines: &Lines) -> Result<(), ReadFault>
        requires going { self.old.taps.fault ≡ None }
        requires bundle { self.old.layout ≡ Bundle }
        requires none { self.old.waiting ≡ [] }
        ensures going { OnOk result (self.new.taps.fault ≡ None) }
        ensures parts { OnOk result ((more : List Line)
            → parts_to_come self.new more ≡ parts_to_come self.old (lines.now ++ more)) }
        ensures refused { IfErr result (λ e. e ≢ ReadFault.Memory → (more : List Line)
            → parts_to_come self.old (lines.now ++ more) ≡ Err e) }
        ensures waits { result ≢ Err ReadFault.Memory
            → AreAmong self.new.waiting (self.old.waiting ++ lines.now) }
        ensures held { IfErr result (λ e. e ≢ ReadFault.Memory → Holds e self.new.waiting) }
    {
        match self.taps.lines(rt, 1, lines) {
            Ok(()) => Ok(()),
            Err(fault) => {
                self.waiting.append(lines)?;
                Err(fault)
            }
        }
    }

    /// Reads the next lines by one thread, up to the first that is refused.
    fn read_lines<H: Threads + Sync>(&mut self, rt: &H, lines: &Lines) -> Result<(), ReadFault>
        requires going { self.old.taps.fault ≡ None }
        ensures going { OnOk result (self.new.taps.fault ≡ None) }
        ensures parts { OnOk result ((more : List Line)
            → parts_to_come self.new more ≡ parts_to_come self.old (lines.now ++ more)) }
        ensures refused { IfErr result (λ e. e ≢ ReadFault.Memory → (more : List Line)
            → parts_to_come self.old (lines.now ++ more) ≡ Err e) }
        ensures waits { result ≢ Err ReadFault.Memory
            → AreAmong self.new.waiting (self.old.waiting ++ lines.now) }
        ensures held { IfErr result (λ e. e ≢ ReadFault.Memory → Holds e self.new.waiting) }
    {
        if self.reads_at_once() {
            return self.read_at_once(rt, lines);
        }
        self.keep_lines(lines, 0)?;
        self.read_waiting(rt, 1)
    }

    /// Keeps the lines that a splitter hands out, which came with so many bytes of the input: as they stand, where no
    /// other line waits and none can be a certificate.
    fn keep_cut(&mut self, cut: &mut Splitter, size: usize) -> Result<(), AllocError>
        ensures going { self.new.taps ≡ self.old.taps }
        ensures cut { OnOk result (cut.new ≡ record cut.old { waiting = [] }) }
        ensures number { cut.new.number ≡ cut.old.number }
        ensures parts { OnOk result ((more : List Line) → parts_to_come self.new more
            ≡ parts_to_come self.old (cut.old.waiting ++ more)) }
        ensures waits { OnOk result (AreAmong self.new.waiting
            (self.old.waiting ++ cut.old.waiting)) }
    {
        if self.reads_at_once() {
            self.bytes = size;
            cut.take_into(&mut self.waiting);
            return Ok(());
        }
        self.keep_lines(cut.waiting(), size)?;
        cut.clear();
        Ok(())
    }

    /// Takes the lines that a splitter hands out, which came with so many bytes of the input. One thread reads them, up
    /// to the first that is refused; for several they wait.
    pub fn take_lines<H: Threads + Sync>(
        &mut self,
        rt: &H,
        threads: usize,
        cut: &mut Splitter,
        size: usize,
    ) -> Result<(), ReadFault>
        requires going { self.old.taps.fault ≡ None }
        ensures going { OnOk result (self.new.taps.fault ≡ None) }
        ensures cut { OnOk result (cut.new ≡ record cut.old { waiting = [] }) }
        ensures number { cut.new.number ≡ cut.old.number }
        ensures parts { OnOk result ((more : List Line) → parts_to_come self.new more
            ≡ parts_to_come self.old (cut.old.waiting ++ more)) }
        ensures refused { IfErr result (λ e. e ≢ ReadFault.Memory → (more : List Line)
            → parts_to_come self.old (cut.old.waiting ++ more) ≡ Err e) }
        ensures waits { result ≢ Err ReadFault.Memory
            → AreAmong self.new.waiting (self.old.waiting ++ cut.old.waiting) }
        ensures held { IfErr result (λ e. e ≢ ReadFault.Memory → Holds e self.new.waiting) }
    {
        if 1 < threads {
            return Ok(self.keep_cut(cut, size)?);
        }
        match self.read_lines(rt, cut.waiting()) {
            Ok(()) => {
                cut.clear();
                Ok(())
            }
            Err(fault) => Err(fault),
        }
    }

    /// Whether the lines that wait are enough for several threads to read them.
    pub fn has_enough(&self) -> bool {
        MAX_LINES <= self.waiting.len() || MAX_BYTES <= self.bytes
    }

    /// The line of this number, copied, where it waits to be read.
    pub fn waiting_line(&self, number: u64) -> Result<Option<Line>, AllocError>
        ensures { IfOk result (λ line. line ≡ line_numbered number self.now.waiting) }
    {
        for line in &self.waiting.lent()? {
            if line.number == number {
                return Ok(Some(line.copied(self.alloc)?));
            }
        }
        Ok(None)
    }

    /// The taps and the certificates of the lines that were read.
    pub fn close(self) -> Result<Input, ReadFault>
        requires going { self.taps.fault ≡ None }
        requires none { self.waiting ≡ [] }
        ensures read { IfOk result (λ input. parts_to_come self [] ≡ Ok input) }
        ensures names { IfOk result (λ input. AreNamedOnce input.taps) }
        ensures err { IfErr result (λ e. e ≡ ReadFault.Memory) }
    {
        let PartsReader {
            alloc: _,
            layout: _,
            taps,
            waiting: _,
            bytes: _,
            certificates,
        } = self;
        let taps = taps.finish()?;
        Ok(Input { taps, certificates })
    }

    /// The taps and the certificates of the lines, or the first of those that waited that is refused. No two taps have
    /// one name.
    pub fn finish<H: Threads + Sync>(self, rt: &H, threads: usize) -> Result<Input, ReadFault>
        requires going { self.taps.fault ≡ None }
        ensures read { IfOk result (λ input. parts_to_come self [] ≡ Ok input) }
        ensures names { IfOk result (λ input. AreNamedOnce input.taps) }
        ensures refused { IfErr result (λ e. e ≢ ReadFault.Memory → parts_to_come self [] ≡ Err e) }
    {
        let mut this = self;
        this.read_waiting(rt, threads)?;
        this.close()
    }
}

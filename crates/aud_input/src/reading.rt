//! The files of an input, read to their end.
ghost use Rattle.std.specs.Prelude.{◌≡◌, ◌≢◌, ℕ, List, ◌<◌, ◌≤◌, ◌⊎◌, [], length, map, true, false, None, Some, IfOk, IfErr, OnOk, OnErr, Err};
ghost use Rattle.aud_tap.specs.Names.{AreNamedOnce};
ghost use Rattle.aud_input.specs.Input.{IsInputOf};
ghost use Rattle.aud_input.specs.Files.{AreRecorded, AreUnrecorded};
ghost use Rattle.aud_input.specs.Sources.{is_begun};
ghost use Rattle.aud_base.specs.declared.watched.Watched.{Watched};
ghost use Rattle.aud_base.specs.Watched.{inner_of, calls_of, has_failed};
ghost use Rattle.aud_input.specs.Private.Feeding.{AreReadBefore, EndsFile, IsRead, IsReadWhole, IsRecordedOf, IsRefusedOf, IsRoom, IsWithin, TellsUnread, counts_after};
ghost use Rattle.aud_input.specs.declared.reading.ReadingFault.TheVariants.{Memory};

use crate::feeding::{Feeding, MAX_PIECE, PIECE, READ_LIMIT};
use crate::input::{Input, Layout};
use crate::place::file_line;
use crate::reader::InputReader;
use crate::refusal::{Refusal, header_stands};
use crate::tap_lines::RecordLines;
use aud_base::{RunFault, Watched};
use aud_reader::{InputCode, ReadFault};
use aud_tap::Taps;
use std::alloc::{AllocError, AllocFailed, Global};
use std::hash::RandomState;
use std::io::Read;
use std::thread::Threads;

/// A recording, and the line of each of its records in the files that are read as one input.
#[derive(Drop)]
pub struct Recorded {
    pub taps: Taps,
    pub lines: RecordLines,
    pub size: Size,
    /// How many lines each of the files has.
    pub counts: Vec<u64>,
}

/// How many lines and how many bytes files have. What comes after the last newline of a file is a line too.
#[derive(Clone, Copy, Debug, PartialEq, Eq, Drop)]
pub struct Size {
    pub lines: u64,
    pub bytes: u64,
}

/// Why there is no recording. Files count from 0, in their order.
#[derive(Drop)]
pub enum ReadingFault {
    /// A line is refused.
    Refused(Refusal),
    /// A read of this file failed, or there were too many reads.
    Unread { file: usize },
    /// Memory could not be had.
    Memory,
}

impl From<AllocError> for ReadingFault {
    ghost from_gives = { λ _ e. e ≡ Memory };

    fn from(_: AllocError) -> ReadingFault {
        ReadingFault::Memory
    }
}

impl<T: Drop> From<AllocFailed<T>> for ReadingFault {
    ghost from_gives = { λ _ e. e ≡ Memory };

    fn from(_: AllocFailed<T>) -> ReadingFault {
        ReadingFault::Memory
    }
}

/// Why a file could not be read.
fn unread(fault: RunFault, file: usize) -> ReadingFault
    ensures { TellsUnread file result }
{
    match fault {
        RunFault::Memory => ReadingFault::Memory,
        _ => ReadingFault::Unread { file },
    }
}

/// Makes room for four times as many bytes where several threads parse the lines and a read filled the buffer, as far as
/// there is memory. The lines of a large piece needn't be put together with those of others.
fn make_room(threads: usize, read: usize, buffer: &mut Vec<u8>)
    requires { IsRoom (length buffer.old.items) }
    ensures { IsRoom (length buffer.new.items) }
{
    if 1 < threads && read == buffer.len() {
        let size = (4 * read).min(MAX_PIECE);
        let _ = buffer.resize(size, 0);
    }
}

/// Takes in a file to its end. A read that fails is not tried again, of whatever kind its error is.
fn read_file<H: Threads + Sync, R: Read>(
    rt: &H,
    threads: usize,
    feeding: &mut Feeding,
    buffer: &mut Vec<u8>,
    file: &mut Watched<R>,
) -> Result<(), RunFault>
    requires within { IsWithin feeding.old }
    requires room { IsRoom (length buffer.old.items) }
    ensures room { IsRoom (length buffer.new.items) }
    ensures read { OnOk result (IsReadWhole (R.remaining (inner_of file.old)) feeding.old
        feeding.new) }
    ensures within { OnOk result (IsWithin feeding.new) }
    ensures pieces { OnOk result (feeding.new.pieces < READ_LIMIT) }
    ensures unfailed { OnOk result (has_failed file.new ≡ has_failed file.old) }
    ensures failed { result ≡ Err RunFault.Read
        → (has_failed file.new ≡ true) ⊎ (READ_LIMIT ≤ feeding.new.pieces) }
    ensures calls { calls_of file.old ≡ feeding.old.pieces → result ≡ Err RunFault.Read
        → feeding.new.pieces ≤ calls_of file.new }
    ensures others { OnErr result ((result ≡ Err RunFault.Read) ⊎ (result ≡ Err RunFault.Memory)) }
{
    'pieces: while feeding.pieces < READ_LIMIT {
        match file.read(buffer) {
            Ok(0) => return Ok(()),
            Ok(n) => {
                feeding.feed(rt, threads, &buffer[..n])?;
                make_room(threads, n, buffer);
            }
            Err(_) => return Err(RunFault::Read),
        }
    }
    Err(RunFault::Read)
}

/// The taps and the certificates of the input, or its first refused line.
///
/// Lines are read by at most `threads` threads, this one among them; for more than one they wait until there are
/// enough, and one thread more cuts what comes next, as [`InputReader`] says. Each line is dropped once it was read, but
/// for the certificates. The input is read
/// to its end where a line of it is refused too, so that a read that fails is told first, however many bytes the reader
/// gives a call. A read that fails is not tried again, of whatever kind its error is.
pub fn read_input<H: Threads + Sync, R: Read>(
    rt: &H,
    threads: usize,
    alloc: Global,
    keys: RandomState,
    layout: Layout,
    input: &mut Watched<R>,
) -> Result<Result<Input, ReadFault>, RunFault>
    requires { calls_of input.old ≡ 0 }
    ensures input { IfOk result (λ read. read ≢ Err ReadFault.Memory
        → IsInputOf layout (R.remaining (inner_of input.old)) read) }
    ensures names { IfOk result (λ read. IfOk read (λ input. AreNamedOnce input.taps)) }
    ensures unfailed { OnOk result (has_failed input.new ≡ has_failed input.old) }
    ensures read { result ≡ Err RunFault.Read
        → (has_failed input.new ≡ true) ⊎ (READ_LIMIT ≤ calls_of input.new) }
    ensures others { OnErr result ((result ≡ Err RunFault.Read) ⊎ (result ≡ Err RunFault.Memory)) }
{
    let mut buffer = vec![in alloc; 0u8; PIECE]?;
    let mut feeding = Feeding::new(InputReader::new(alloc, keys, layout));
    match read_file(rt, threads, &mut feeding, &mut buffer, input) {
        Ok(()) => Ok(feeding.reader.finish(rt, threads)),
        Err(fault) => Err(fault),
    }
}

/// Ends a file, before which so many lines were noted, and counts its lines, unless one is refused.
fn end_file<H: Threads + Sync>(
    rt: &H,
    threads: usize,
    before: u64,
    feeding: &mut Feeding,
    counts: &mut Vec<u64>,
) -> Result<(), AllocError>
    requires within { IsWithin feeding.old }
    requires room { feeding.old.pieces < READ_LIMIT }
    ensures ended { OnOk result (EndsFile feeding.old feeding.new) }
    ensures within { OnOk result (IsWithin feeding.new) }
    ensures counts { OnOk result (counts.new.items
        ≡ counts_after before feeding.new.reader counts.old.items) }
{
    feeding.end_file(rt, threads)?;
    if feeding.reader.goes_on() {
        counts.push(feeding.reader.lines().saturating_sub(before))?;
    }
    Ok(())
}

/// Takes in all files, and ends each: how many lines it has.
fn read_all<H: Threads + Sync, R: Read>(
    rt: &H,
    threads: usize,
    alloc: Global,
    feeding: &mut Feeding,
    buffer: &mut Vec<u8>,
    files: &mut [Watched<R>],
) -> Result<Vec<u64>, ReadingFault>
    requires begins { IsRead [] feeding.old.reader }
    requires unrefused { feeding.old.reader.fault ≡ None }
    requires begun { feeding.old.begun ≡ false }
    requires bytes { feeding.old.bytes ≡ 0 }
    requires within { IsWithin feeding.old }
    requires room { IsRoom (length buffer.old.items) }
    ensures read { IfOk result (λ counts. AreReadBefore
        (map (λ file. R.remaining (inner_of file)) files.old) counts.items feeding.new) }
    ensures unread { IfErr result (λ e. (file : ℕ) × (file < length files.old)
        × TellsUnread file e) }
{
    let mut counts = Vec::new(alloc);
    'files: for place in 0..files.len() {
        let before = feeding.reader.lines();
        match read_file(rt, threads, feeding, buffer, &mut files[place]) {
            Ok(()) => {}
            Err(fault) => return Err(unread(fault, place)),
        }
        end_file(rt, threads, before, feeding, &mut counts)?;
    }
    Ok(counts)
}

/// The recording of an input of so many bytes, all of whose lines were read, where its files have so many lines.
fn recording(
    alloc: Global,
    reader: InputReader,
    bytes: u64,
    counts: Vec<u64>,
) -> Result<Recorded, ReadingFault>
    requires going { reader.fault ≡ None }
    requires none { reader.parts.waiting ≡ [] }
    ensures recorded { (text : List ℕ) → IsRead text reader → is_begun false text ≡ false
        → IfOk result (λ read. IsRecordedOf text read) }
    ensures names { IfOk result (λ read. AreNamedOnce read.taps) }
    ensures bytes { IfOk result (λ read. read.size.bytes ≡ bytes) }
    ensures counts { IfOk result (λ read. read.counts.items ≡ counts.items) }
    ensures err { IfErr result (λ e. e ≡ ReadingFault.Memory) }
{
    let size = Size {
        lines: reader.lines(),
        bytes,
    };
    match reader.close(alloc) {
        Ok((input, lines)) => Ok(Recorded {
            taps: input.taps,
            lines,
            size,
            counts,
        }),
        Err(_) => Err(ReadingFault::Memory),
    }
}

/// What is told of the line of this number, which is refused.
fn refusal(
    alloc: Global,
    reader: InputReader,
    counts: &[u64],
    number: u64,
    code: InputCode,
) -> Result<Refusal, AllocError>
    requires refused { reader.fault ≡ Some (ReadFault.Input number code) }
    ensures refused { (text : List ℕ) → IsRead text reader
        → IfOk result (λ told. IsRefusedOf text counts.now (ReadingFault.Refused told)) }
{
    let (line, header) = reader.refused(alloc, number, code)?;
    Ok(Refusal {
        number,
        code,
        at: file_line(counts, number),
        line,
        header,
        header_at: header_stands(counts, number, header),
    })
}

/// The recording at the end of the input, or its first refused line.
fn finish<H: Threads + Sync>(
    rt: &H,
    threads: usize,
    alloc: Global,
    feeding: Feeding,
    counts: Vec<u64>,
) -> Result<Recorded, ReadingFault>
    ensures recorded { (text : List ℕ) → IsRead text feeding.reader
        → is_begun false text ≡ false → IfOk result (λ read. IsRecordedOf text read) }
    ensures names { IfOk result (λ read. AreNamedOnce read.taps) }
    ensures bytes { IfOk result (λ read. read.size.bytes ≡ feeding.bytes) }
    ensures counts { IfOk result (λ read. read.counts.items ≡ counts.items) }
    ensures refused { (text : List ℕ) → IsRead text feeding.reader
        → IfErr result (λ e. IsRefusedOf text counts.items e) }
{
    let Feeding {
        reader,
        begun: _,
        pieces: _,
        bytes,
    } = feeding;
    let mut reader = reader;
    match reader.read_waiting(rt, threads) {
        Ok(()) => recording(alloc, reader, bytes, counts),
        Err(ReadFault::Input(number, code)) => {
            let told = refusal(alloc, reader, &counts, number, code)?;
            Err(ReadingFault::Refused(told))
        }
        Err(ReadFault::Memory) => Err(ReadingFault::Memory),
    }
}

/// Reads files one after the other, as one input: its recording, the line of each record, how many lines and bytes the
/// files have, and how many lines each. No two taps have one name.
///
/// Each line is read by at most `threads` threads, this one among them, as [`InputReader`](crate::reader::InputReader)
/// says. The files are read to their end where a line is refused too, so that a read that fails is told first; it is
/// not tried again, of whatever kind its error is, and [`Watched::os_error`] has the system's reason. All files are
/// read in at most 4,294,967,296 pieces.
pub fn read_files<H: Threads + Sync, R: Read>(
    rt: &H,
    threads: usize,
    alloc: Global,
    keys: RandomState,
    files: &mut [Watched<R>],
) -> Result<Recorded, ReadingFault>
    ensures recorded { IfOk result (λ read. AreRecorded
        (map (λ file. R.remaining (inner_of file)) files.old) read) }
    ensures names { IfOk result (λ read. AreNamedOnce read.taps) }
    ensures unrecorded { IfErr result (λ e. AreUnrecorded
        (map (λ file. R.remaining (inner_of file)) files.old) e) }
{
    let mut feeding = Feeding::new(InputReader::indexed(alloc, keys));
    let mut buffer = vec![in alloc; 0u8; PIECE]?;
    match read_all(rt, threads, alloc, &mut feeding, &mut buffer, files) {
        Ok(counts) => finish(rt, threads, alloc, feeding, counts),
        Err(fault) => Err(fault),
    }
}

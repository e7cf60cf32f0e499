//! The files of an input, in pieces.
ghost use Rattle.std.specs.Prelude.{◌≡◌, ◌+◌, ◌^◌, ◌<◌, ◌≤◌, length, OnOk, false};
ghost use Rattle.aud_input.specs.Private.Feeding.{EndsFile, IsWithin, Takes, TakesIn};

use crate::reader::InputReader;
use crate::sources::is_begun;
use aud_reader::ReadFault;
use std::alloc::AllocError;
use std::thread::Threads;

/// How many times the files of an input may be read.
pub const READ_LIMIT: u64 = 4_294_967_296;

/// How many bytes the first read is asked for.
pub const PIECE: usize = 65_536;

/// The most bytes that one read is asked for.
pub const MAX_PIECE: usize = 4_194_304;

/// The reader of the input, and whether a line has begun in the file that is read; and of all files how many pieces
/// there were, and how many bytes.
#[derive(Drop)]
pub struct Feeding {
    pub reader: InputReader,
    pub begun: bool,
    pub pieces: u64,
    pub bytes: u64,
}

/// Hands the next piece to the reader, which keeps a refusal until it ends.
fn feed_reader<H: Threads + Sync>(
    rt: &H,
    threads: usize,
    reader: &mut InputReader,
    piece: &[u8],
) -> Result<(), AllocError>
    requires { reader.old.cut.number + length piece.now < 2 ^ 64 }
    ensures takes { OnOk result (Takes reader.old reader.new piece.now) }
    ensures number { reader.new.cut.number ≤ reader.old.cut.number + length piece.now }
{
    match reader.feed(rt, threads, piece) {
        Ok(()) | Err(ReadFault::Input(_, _)) => Ok(()),
        Err(ReadFault::Memory) => Err(AllocError),
    }
}

impl Feeding {
    /// Before the first byte.
    pub fn new(reader: InputReader) -> Feeding
        requires { reader.cut.number ≡ 1 }
        ensures reader { result.reader ≡ reader }
        ensures begun { result.begun ≡ false }
        ensures bytes { result.bytes ≡ 0 }
        ensures pieces { result.pieces ≡ 0 }
        ensures within { IsWithin result }
    {
        Feeding {
            reader,
            begun: false,
            pieces: 0,
            bytes: 0,
        }
    }

    /// Takes in the next piece of the file that is read.
    pub fn feed<H: Threads + Sync>(
        &mut self,
        rt: &H,
        threads: usize,
        piece: &[u8],
    ) -> Result<(), AllocError>
        requires within { IsWithin self.old }
        requires room { self.old.pieces < READ_LIMIT }
        requires some { 0 < length piece.now }
        requires size { length piece.now ≤ MAX_PIECE }
        ensures taken { OnOk result (TakesIn self.old self.new piece.now) }
        ensures within { OnOk result (IsWithin self.new) }
        ensures pieces { OnOk result (self.new.pieces ≡ self.old.pieces + 1) }
    {
        feed_reader(rt, threads, &mut self.reader, piece)?;
        self.begun = is_begun(piece);
        self.pieces += 1;
        self.bytes += piece.len() as u64;
        Ok(())
    }

    /// Ends the file that is read: its last line is ended where it isn't.
    pub fn end_file<H: Threads + Sync>(&mut self, rt: &H, threads: usize) -> Result<(), AllocError>
        requires within { IsWithin self.old }
        requires room { self.old.pieces < READ_LIMIT }
        ensures ended { OnOk result (EndsFile self.old self.new) }
        ensures within { OnOk result (IsWithin self.new) }
    {
        let bytes = self.bytes;
        if self.begun {
            self.feed(rt, threads, b"\n")?;
        }
        self.bytes = bytes;
        self.begun = false;
        Ok(())
    }
}

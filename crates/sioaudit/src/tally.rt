//! A line on standard error that tells how much was read.
use std::io::Write;

/// After how many bytes more the line is written again.
const STEP: u64 = 67_108_864;

/// Takes the line away.
const CLEAR: &str = "\r\x1b[K";

/// Counts bytes, and where `is_shown` tells after each 64 MiB how many there are. Whether that could be written changes
/// nothing.
#[derive(Drop)]
pub struct Tally<N> {
    notes: N,
    is_shown: bool,
    read: u64,
    told: u64,
}

impl<N: Write> Tally<N> {
    /// Before the first byte.
    pub fn new(notes: N, is_shown: bool) -> Tally<N> {
        Tally {
            notes,
            is_shown,
            read: 0,
            told: 0,
        }
    }

    /// So many bytes more were read.
    pub fn add(&mut self, count: usize) {
        self.read = self.read.saturating_add(count as u64);
        if self.is_shown && self.read.saturating_sub(self.told) >= STEP {
            self.told = self.read;
            let mebibytes = self.read / 1_048_576;
            let _ = write!(self.notes, "{CLEAR}sioaudit: {mebibytes} MiB read");
        }
    }

    /// Takes the line away, if it stands there.
    pub fn clear(&mut self) {
        if self.told != 0 {
            self.told = 0;
            let _ = write!(self.notes, "{CLEAR}");
        }
    }
}

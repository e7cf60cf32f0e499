//! Other entries with the same fault.

/// Entries, one after the other in the stream, that have the fault too.
#[derive(Clone, Copy, Drop)]
pub struct Also<'r> {
    /// The first of them; positions count from 1.
    pub position: u64,
    /// The last of them.
    pub to: u64,
    /// The lines that show it, which count from 1: of more than one entry a line of the first and one of the last.
    pub lines: &'r [u64],
}

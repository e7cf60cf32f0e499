//! How a run ended.

use aud_verdict::Status;

/// How a run ended that wrote all.
#[derive(Debug, PartialEq, Eq, Drop)]
pub struct Ending<'o> {
    pub status: Status,
    /// Those of the pids of the words, borrowed, each once, that are pids of sessions and of which nothing was written,
    /// since `--only` leaves them out.
    pub left_out: Vec<&'o str>,
}

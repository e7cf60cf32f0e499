//! Recoveries that were refused.
use aud_rows::Row;

/// A recovery of the session that a client asked for and did not get. What it missed is borrowed for `'l`, names for
/// `'r`.
#[derive(Clone, Copy, Drop)]
pub struct RefusedRecovery<'l, 'r> {
    /// The record in which it asks.
    pub ask: Row<'r>,
    /// The record in which it is answered; none where the connection ended before.
    pub reply: Option<Row<'r>>,
    /// The session that it got instead; none where it got none.
    pub instead: Option<&'r str>,
    /// What it missed of the session that it asked for, in the order of the stream; none where that is not known.
    pub missed: Option<&'l [Missed<'r>]>,
    /// Whether a cause of it is told.
    pub has_cause: bool,
    /// The names of the causes that it can have and that were refuted.
    pub refuted: &'l [&'static str],
}

/// An entry that a client missed.
#[derive(Clone, Copy, Drop)]
pub struct Missed<'r> {
    /// Positions count from 1.
    pub position: u64,
    pub off: &'r str,
}

//! The turns of a session.

/// A session's turn on a node, as a timeline shows it.
#[derive(Clone, Copy, Drop)]
pub struct TurnShown<'r> {
    /// Turns count from 0.
    pub turn: u16,
    /// The name of the node's tap.
    pub node: &'r str,
    /// The record by which it begins, and the line that it stands on.
    pub begin: TurnBegin,
    pub begin_line: u64,
    /// The node's cursor after that record.
    pub low: u64,
    /// The first and the last position that the node took in the turn; none where it took none, and where the end is
    /// missing.
    pub took: Option<(u64, u64)>,
    /// How it ends.
    pub end: TurnEnd,
}

/// By which record a turn begins.
#[derive(Clone, Copy, Drop)]
pub enum TurnBegin {
    Open,
    Back,
}

/// How a turn ends, on which line, and with which cursor of the node. Lines count from 1.
#[derive(Clone, Copy, Drop)]
pub enum TurnEnd {
    Break { line: u64, high: u64 },
    Gone { line: u64, high: u64 },
    /// The node's log ends in the turn, with the record on this line.
    Log { line: u64, high: u64 },
    /// Another turn follows, and no record says that this one ended.
    Missing,
}

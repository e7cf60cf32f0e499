//! How far a log has come.

/// How many records of a log were taken, and the cursor of its node, 0 before the node's `start`.
#[derive(Clone, Copy, Debug, PartialEq, Eq, Drop)]
pub(crate) struct Progress {
    pub(crate) taken: usize,
    pub(crate) cursor: u64,
}

//! Which records of a node are joined.

/// Of the records by which a node takes entries those that are joined where they stand side by side.
#[derive(Clone, Copy)]
pub enum Joins {
    /// `take` records: each `takes` stays as it was recorded.
    TakeAlone,
    /// `take` and `takes` records.
    TakeAndTakes,
}

//! Intervals of positions.

/// The positions past `after` up to `last`.
#[derive(Clone, Copy, Drop)]
pub struct Interval {
    pub after: u64,
    pub last: u64,
}

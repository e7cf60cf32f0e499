//! One step of the cluster.

/// A record of a log: the place of its tap in the order of the headers, and its number there; both count from 0.
#[derive(Clone, Copy, Debug, PartialEq, Eq, Drop)]
pub struct Step {
    pub log: usize,
    pub index: usize,
}

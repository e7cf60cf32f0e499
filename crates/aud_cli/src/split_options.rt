//! What the arguments of `split` ask for.
use aud_base::{Text, Texts};

/// How many parts there are to be, or how large.
#[derive(Clone, Copy, Debug, PartialEq, Eq, Drop)]
pub enum PartsWanted {
    /// At most so many parts, 1 to 9,999.
    Number(u16),
    /// As few as have at most so many bytes each.
    Bytes(u64),
}

/// What is to be cut into parts, and how.
#[derive(Drop)]
pub struct SplitOptions {
    pub parts: PartsWanted,
    /// The folder that the parts are written to.
    pub into: Text,
    /// The names of the files that are read one after the other: one at least, and none is `-`.
    pub files: Texts,
    /// Whether nothing is told of how much of a long input was read.
    pub quiet: bool,
    /// How many threads there are at most: 1 to 64. The parts are the same for every number.
    pub workers: u8,
}

/// The options that are no texts; each stands at most once.
#[derive(Clone, Copy, Drop)]
pub struct SplitChoices {
    pub parts: Option<PartsWanted>,
    pub quiet: bool,
    pub workers: Option<u8>,
}

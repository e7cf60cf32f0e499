//! What the rule of the tickets speaks of.
use std::collections::LinkedList;

/// What a seat knows: which tickets it is of, the numbers that it drew, in order, and its passes, which are the numbers
/// past the end that it may still draw. It is live until another seat takes it over. No value of this is made.
pub struct SeatView {
    pub n: u64,
    pub seats: u64,
    pub passes: u64,
    pub drawn: LinkedList<u64>,
    pub live: bool,
}

/// How many numbers the tickets hand out, and to how many seats.
#[derive(Drop)]
pub struct Bound {
    pub n: u64,
    pub seats: u64,
}

//! What is shown of the logs.
use crate::step::Step;

/// A run of the logs, or the records that block.
#[derive(Drop)]
pub enum Order {
    /// A run: each step is the next record of the first log, in the order of the taps, whose next record is allowed.
    Run(Vec<Step>),
    /// No run exists. That choice was made as often as it could be; these are, in the order of the taps, the next
    /// records of the logs that aren't finished then. None of them is allowed there.
    Blocked(Vec<Step>),
}

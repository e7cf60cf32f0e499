//! What a call gave.
use aud_check::Accepted;
use std::fmt;

/// What a call gave.
#[derive(Clone, Copy, Drop)]
pub enum Given {
    /// Its answer: so many of these.
    Answer(&'static str, usize),
    /// The answer of a check.
    Accepted(Accepted),
    /// Its memory fault, after which all is as promised.
    Memory,
    /// The memory fault of workers that had made so many entries.
    MemoryAfter(usize),
    /// A worker's thread could not be started.
    Spawn,
    /// What it may never give, or what it left that isn't as promised.
    Wrong(&'static str),
}

impl fmt::Display for Given {
    fn fmt<W: fmt::Write>(&self, f: &mut fmt::Formatter<W>) -> fmt::Result {
        match self {
            Given::Answer(what, count) => write!(f, "{what}={count}"),
            Given::Accepted(accepted) => accepted.fmt(f),
            Given::Memory => f.write_str("memory"),
            Given::MemoryAfter(made) => write!(f, "memory {made}"),
            Given::Spawn => f.write_str("spawn"),
            Given::Wrong(what) => write!(f, "WRONG: {what}"),
        }
    }
}

/// Memory was refused, and this holds of what was left.
pub fn memory_if(holds: bool, what: &'static str) -> Given {
    if holds {
        Given::Memory
    } else {
        Given::Wrong(what)
    }
}

//! An input with what is written for it, and runs over memory.
ghost use Rattle.std.specs.Prelude.{◌<◌, ◌≤◌};

use aud_app::{Mode, Options, RunFault, Status, Watched, run};
use std::alloc::Global;
use std::hash::RandomState;
use std::io::Read;
use std::sync::Wait;
use std::thread::Threads;
use std::time::Clock;

pub const AUDIT: Options = Options {
    mode: Mode::Audit,
    workers: 4,
    whole: false,
};

/// An input, and what is written for it.
#[derive(Drop)]
pub struct Case<'a> {
    pub name: &'a str,
    pub options: Options,
    pub input: String,
    pub text: &'a str,
    pub status: Status,
}

/// What a text has before the first such mark, and after it.
pub fn cut<'a>(text: &'a str, mark: &str) -> (&'a str, &'a str) {
    text.split_once(mark).unwrap_or((text, ""))
}

/// What came of a run.
#[derive(Drop)]
pub struct Ran {
    pub outcome: Result<Status, RunFault>,
    pub written: Vec<u8>,
}

/// Runs over an input, and keeps what is written.
pub fn run_over<H: Threads + Wait + Clock + Sync, R: Read + Drop>(
    rt: &H,
    alloc: Global,
    keys: RandomState,
    options: Options,
    input: R,
) -> Ran
    requires workers { (0 < options.workers) × (options.workers ≤ 64) }
{
    let mut input = Watched::new(input);
    let mut output = Watched::new(Vec::new(alloc));
    let outcome = run(rt, alloc, keys, &mut input, &mut output, options);
    Ran {
        outcome,
        written: output.into_inner(),
    }
}

//! What workers decide, by index. They see it as a type parameter, since a closure keeps what it ensures of a captured
//! value only where the value's type names no lifetime.
ghost use Rattle.std.specs.Prelude.{◌≡◌, ◌<◌, IfOk, length, map, string_bytes};

use crate::entry::Entry;
use aud_client::Recording;
use std::alloc::{AllocError, Global};

/// What can be decided by index.
pub trait Decide {
    ghost use Rattle.std.specs.Prelude.{ℕ};
    ghost use Rattle.aud_verdict.specs.declared.verdict.Verdict.{Verdict};

    /// How many indices there are.
    ghost count: { Self → ℕ };

    /// Whether this is the verdict at the index.
    ghost is_verdict: { Self → ℕ → Verdict → Type 0 };

    /// The verdict at the index.
    fn decide(&self, alloc: Global, index: usize) -> Result<Entry, AllocError>
        requires { index < count self.now }
        ensures index { IfOk result (λ entry. entry.index ≡ index) }
        ensures verdict { IfOk result (λ entry. is_verdict self.now index entry.verdict) };
}

/// The sessions of a recording.
#[derive(Drop)]
pub struct Sessions<'s, 'a> {
    pub recording: &'s Recording<'a>,
    pub pids: &'s [String],
    /// Whether the whole is asked for.
    pub whole: bool,
}

impl<'s, 'a> Decide for Sessions<'s, 'a> {
    ghost use Rattle.std.specs.Prelude.{length, map, string_bytes};
    ghost use Rattle.aud_verdict.specs.Verdicts.{IsVerdictAt};

    ghost count = { λ s. length s.pids.now };

    ghost is_verdict = { λ s. IsVerdictAt s.recording.now s.whole (map string_bytes s.pids.now) };

    fn decide(&self, alloc: Global, index: usize) -> Result<Entry, AllocError> {
        Entry::decide(alloc, self.recording, self.pids, index, self.whole)
    }
}

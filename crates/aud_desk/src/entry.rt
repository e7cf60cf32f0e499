//! The verdict on one session, by its index.
ghost use Rattle.std.specs.Prelude.{◌≡◌, ◌<◌, IfOk, length, map, string_bytes};

use aud_client::Recording;
use aud_verdict::{Verdict, decide};
use std::alloc::{AllocError, Global};

/// The verdict on one session, with the session's index. Only [`Entry::decide`] makes one.
#[derive(Drop)]
pub struct Entry {
    index: usize,
    verdict: Verdict,
}

impl Entry {
    ghost use Rattle.aud_verdict.specs.Verdicts.{IsVerdictAt};

    /// The verdict on the session with this index, which counts from 0; `whole` as in [`decide`].
    pub fn decide(
        alloc: Global,
        recording: &Recording<'_>,
        sessions: &[String],
        index: usize,
        whole: bool,
    ) -> Result<Entry, AllocError>
        requires { index < length sessions.now }
        ensures index { IfOk result (λ entry. entry.index ≡ index) }
        ensures verdict { IfOk result (λ entry. IsVerdictAt recording.now whole
            (map string_bytes sessions.now) index entry.verdict) }
    {
        let verdict = decide(alloc, recording, sessions[index].as_str(), whole)?;
        Ok(Entry { index, verdict })
    }

    /// The session's index.
    pub fn index(&self) -> usize
        ensures { result ≡ self.now.index }
    {
        self.index
    }

    /// The index, and the verdict.
    pub fn into_parts(self) -> (usize, Verdict)
        ensures { (result.0 ≡ self.index) × (result.1 ≡ self.verdict) }
    {
        let Entry { index, verdict } = self;
        (index, verdict)
    }
}

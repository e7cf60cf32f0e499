//! The verdict on a session.
use aud_cert::Fault;
use aud_tap::Text;

/// The answer on a session.
#[derive(Drop)]
pub enum Verdict {
    /// No fault holds: all that was received was due, in order, from the first event on.
    Yes {
        /// How many of the due events were received.
        got: usize,
        /// How many due events after the last one received were not.
        tail: usize,
        /// Over how many turns.
        turns: usize,
    },
    /// The first fault that holds.
    No(Fault),
}

/// A session and the answer on it.
#[derive(Drop)]
pub struct SessionVerdict {
    pub pid: Text,
    pub verdict: Verdict,
}

impl SessionVerdict {
    ghost use Rattle.std.specs.Prelude.{◌≡◌};
    ghost use Rattle.aud_verdict.specs.YesOf.{is_yes};

    pub fn is_yes(&self) -> bool
        ensures { result ≡ is_yes self.now }
    {
        matches!(&self.verdict, Verdict::Yes { .. })
    }
}

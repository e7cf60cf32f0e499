//! Causes of a fault, and of a refused recovery.
ghost use Rattle.std.specs.Prelude.{◌≡◌};
ghost use Rattle.aud_explanation.specs.CauseState.{is_certain, state_word};

/// How a cause stands, whose test over the records holds.
#[derive(Clone, Copy, Debug, PartialEq, Drop)]
pub enum CauseState {
    /// It alone holds of those that are known, and others were ruled out.
    Certain,
    /// Others hold too, and each of them can be true beside it.
    Holds,
    /// Others hold too that speak of the same, or none was ruled out: the records alone don't decide.
    Fits,
}

impl CauseState {
    /// The state in a word, of lower-case letters.
    pub fn word(self) -> &'static str
        ensures { result.now ≡ state_word self }
    {
        match self {
            CauseState::Certain => "certain",
            CauseState::Holds => "holds",
            CauseState::Fits => "fits",
        }
    }

    /// Whether the records leave no other of the known causes.
    pub fn is_certain(self) -> bool
        ensures { result ≡ is_certain self }
    {
        matches!(self, CauseState::Certain)
    }
}

/// What a cause is of.
#[derive(Clone, Copy, Drop)]
pub enum CauseOf {
    /// The session's fault.
    Fault,
    /// A recovery of it that was refused.
    Refused {
        /// The line of the ask, counted from 1; none where it is not known.
        line: Option<u64>,
    },
}

/// What a fault or a refused recovery may come from.
#[derive(Clone, Copy, Drop)]
pub struct Cause<'r> {
    /// The name of the cause, for scripts: lower-case words joined by `-`.
    pub id: &'r str,
    pub of: CauseOf,
    pub state: CauseState,
    /// The lines that say so; lines count from 1.
    pub lines: &'r [u64],
    /// What happened, in a sentence.
    pub why: &'r str,
    /// What to do.
    pub todo: &'r str,
}

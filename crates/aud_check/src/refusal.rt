//! Why a certificate is refused.
use aud_cert::Fault;
use std::alloc::AllocError;
use thiserror::Error;

/// Why a certificate is refused, in the order in which it is looked for: the first four for each turn, turn after
/// turn, and then the others.
#[derive(Debug, Drop, Error)]
pub enum Refusal {
    /// K5: the turn's first record is not the session's `open`, or, after turn 0, its `back` with the turn's number.
    NotItsTurn,
    /// K6: after the first record stands an `open`, a `back` or a `break` of the session that is not this turn's, or
    /// an end of it before the last record.
    EndInside,
    /// K7: the records end neither with the turn's `break` nor, in the last turn, with the session's `gone` or with
    /// the log.
    NoEnd,
    /// K8: the node did not take the entries one after the other, or a cursor is not the node's.
    Cursor,
    /// K9: the spans are not those of the turns.
    Span,
    /// K10: the client's tap has no reply that names the session, or one with another sid or namespace.
    Names,
    /// K11: what the client received is not what was due.
    Received(Fault),
    /// K12: memory for the check could not be had.
    Memory,
}

impl From<AllocError> for Refusal {
    ghost use Rattle.std.specs.Prelude.{◌≡◌};
    ghost use Rattle.aud_check.specs.declared.refusal.Refusal.TheVariants.{Memory};

    ghost from_gives = { λ _ e. e ≡ Memory };

    fn from(_: AllocError) -> Refusal {
        Refusal::Memory
    }
}

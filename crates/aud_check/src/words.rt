//! The words of a refusal, and of what an accepted certificate shows.
use crate::certificate::Accepted;
use crate::refusal::Refusal;
use std::fmt;

/// The code and the name of the refusal, as section "Certificates" of docs/FORMAT.md has them; after `Received` stands
/// the fault.
impl fmt::Display for Refusal {
    ghost use Rattle.std.specs.Prelude.{Some};
    ghost use Rattle.aud_check.specs.Words.{refusal_text};

    ghost output = { λ r. Some (refusal_text r) };

    fn fmt<W: fmt::Write>(&self, f: &mut fmt::Formatter<W>) -> fmt::Result {
        match self {
            Refusal::NotItsTurn => write!(f, "K5 NotItsTurn"),
            Refusal::EndInside => write!(f, "K6 EndInside"),
            Refusal::NoEnd => write!(f, "K7 NoEnd"),
            Refusal::Cursor => write!(f, "K8 Cursor"),
            Refusal::Span => write!(f, "K9 Span"),
            Refusal::Names => write!(f, "K10 Names"),
            Refusal::Received(fault) => write!(f, "K11 Received {fault}"),
            Refusal::Memory => write!(f, "K12 Memory"),
        }
    }
}

/// The counts: `got=2 tail=0 turns=1`.
impl fmt::Display for Accepted {
    ghost use Rattle.std.specs.Prelude.{Some};
    ghost use Rattle.aud_check.specs.Words.{accepted_text};

    ghost output = { λ a. Some (accepted_text a) };

    fn fmt<W: fmt::Write>(&self, f: &mut fmt::Formatter<W>) -> fmt::Result {
        let Accepted { got, tail, turns } = self;
        write!(f, "got={got} tail={tail} turns={turns}")
    }
}

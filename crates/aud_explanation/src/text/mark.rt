//! What a record is shown for, in words.
ghost use Rattle.std.specs.Prelude.{◌≡◌};
ghost use Rattle.aud_explanation.specs.Mark.{mark};

use aud_cert::Fault;
use aud_rows::Role;
use aud_verdict::Verdict;

/// What a record is shown for, under this verdict; nothing where the record says it itself.
pub(crate) fn mark(role: Role, verdict: &Verdict) -> &'static str
    ensures { result.now ≡ mark role verdict.now }
{
    match role {
        Role::Fault => match verdict {
            Verdict::Yes { .. } => "  <- here",
            Verdict::No(Fault::NoLog) => "  <- opened on no node",
            Verdict::No(Fault::Chain) => "  <- does not fit in the turns",
            Verdict::No(Fault::Order) => "  <- out of order",
            Verdict::No(Fault::Client) => "  <- names the session",
            Verdict::No(Fault::Names) => "  <- another name",
            Verdict::No(Fault::Frame) => "  <- no packet",
            Verdict::No(Fault::Orphan) => "  <- of no known session",
            Verdict::No(Fault::Content(_)) => "  <- not as the entry has it",
            Verdict::No(Fault::Extra(_)) => "  <- not due",
            Verdict::No(Fault::Doubled(_)) => "  <- again",
            Verdict::No(Fault::Swapped(_)) => "  <- too early",
            Verdict::No(Fault::Lost(_)) => "  <- passes it over",
            Verdict::No(Fault::Window(_)) => "  <- does not fit what came",
            Verdict::No(Fault::Tail(_)) => "  <- the last received",
        },
        Role::Earlier => "  earlier",
        Role::Later => "  later",
        Role::Entry => "  the entry",
        Role::Reached => "  reached here",
        Role::Room => "  decides",
        Role::Left => "  left after that",
        Role::Break | Role::Back | Role::Ask | Role::Reply => "",
    }
}

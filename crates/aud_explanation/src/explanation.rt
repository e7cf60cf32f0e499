//! The explanation of a session.
ghost use Rattle.std.specs.Prelude.{◌≡◌};
ghost use Rattle.aud_explanation.specs.ExplainedClass.{class_of_explained};

use crate::also::Also;
use crate::cause::Cause;
use crate::client::{Account, Client};
use crate::event::ClientEvent;
use crate::refused::RefusedRecovery;
use crate::turn::TurnShown;
use aud_cert::{Class, class_of};
use aud_rows::Row;
use aud_verdict::Verdict;

/// What is told of a session: the verdict on it, its client, and why. All of it is borrowed: names for as long as the
/// recording, `'r`; lists for as long as what was found, `'s`; and what their elements list for `'l`.
#[derive(Clone, Copy, Drop)]
pub struct Explanation<'s, 'l, 'r> {
    /// The session.
    pub pid: &'r str,
    /// The verdict on it.
    pub verdict: &'r Verdict,
    /// The client that had it; none where no tap of a client names it, or several do.
    pub client: Option<Client<'r>>,
    /// What was received of what was due; none where the delivery was not judged.
    pub account: Option<Account>,
    /// The turns, from turn 0 on.
    pub turns: &'s [TurnShown<'r>],
    /// The records that show the fault.
    pub evidence: &'s [Row<'r>],
    /// The other entries with the same fault, in ranges.
    pub also: &'s [Also<'l>],
    /// How many entries past these ranges have it.
    pub also_left: u64,
    /// The pids of other sessions with the same fault at the same record, which have no explanation of their own.
    pub alike: &'s [&'r str],
    /// The recoveries of this session that were asked for and refused.
    pub refused: &'s [RefusedRecovery<'l, 'r>],
    /// What happened to the client, in the order of its tap.
    pub events: &'s [ClientEvent],
    /// What the fault may come from, and after that what the refused recoveries may come from.
    pub causes: &'s [Cause<'l>],
    /// The names of the causes that such a fault can have, and of which none of these is.
    pub refuted: &'s [&'static str],
}

/// The class of what is explained: that of the fault, or delivery where there is none and a recovery was refused.
pub fn class_of_explained(explanation: &Explanation<'_, '_, '_>) -> Option<Class>
    ensures { result ≡ class_of_explained explanation.now }
{
    match explanation.verdict {
        Verdict::No(fault) => Some(class_of(fault)),
        Verdict::Yes { .. } if explanation.refused.is_empty() => None,
        Verdict::Yes { .. } => Some(Class::Delivery),
    }
}

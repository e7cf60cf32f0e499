//! The limits of a part, and why there is no plan.
ghost use Rattle.std.specs.Prelude.{◌≡◌};
ghost use Rattle.aud_parts.specs.declared.plan.fault.PlanFault.TheVariants.{Memory};

use std::alloc::{AllocError, AllocFailed};
use thiserror::Error;

/// A limit of a part, in words: that of a bundle.
#[derive(Debug, Drop, Error)]
pub enum Limit {
    /// A part has at most 4,096 taps of clients.
    #[error("4,096 taps of clients")]
    Clients,
    /// A part has at most 65,536 sessions.
    #[error("65,536 sessions")]
    Sessions,
    /// A part has at most 64 taps of nodes that name its sessions.
    #[error("64 taps of nodes")]
    Nodes,
}

/// Why there is no plan. Sessions that one part has to have together are named by the first of them.
#[derive(Debug, Drop, Error)]
pub enum PlanFault {
    /// Memory could not be had.
    #[error("out of memory")]
    Memory,
    /// No part has room for these sessions beside those that it has; each has fewer than this alone.
    #[error("no part has room for session {first} and those that go with it: a part has at most {limit}. More parts are needed")]
    NoRoom { first: String, limit: Limit },
    /// These sessions alone are past the limit, so no number of parts helps.
    #[error("session {first} and those that go with it can't be parted, and a part has at most {limit}")]
    OneUnit { first: String, limit: Limit },
    /// The plan that was made parts what has to stay together, or passes a limit. It is never seen: each plan is looked
    /// at before it is given, whatever made it.
    #[error("the plan parts what has to stay together, or passes a limit")]
    Unclosed,
}

impl From<AllocError> for PlanFault {
    ghost from_gives = { λ _ e. e ≡ Memory };

    fn from(_: AllocError) -> PlanFault {
        PlanFault::Memory
    }
}

impl<T: Drop> From<AllocFailed<T>> for PlanFault {
    ghost from_gives = { λ _ e. e ≡ Memory };

    fn from(_: AllocFailed<T>) -> PlanFault {
        PlanFault::Memory
    }
}

//! Why there is no bundle.
ghost use Rattle.std.specs.Prelude.{◌≡◌};

use std::alloc::AllocError;
use thiserror::Error;

/// Why there is no bundle of a schedule.
#[derive(Clone, Copy, Debug, PartialEq, Eq, Drop, Error)]
pub enum SimFault {
    /// The act with this number, from 0, is not possible in the state that the acts before it leave.
    #[error("act {0} is not possible")]
    Act(usize),
    /// Memory could not be had.
    #[error("out of memory")]
    Memory,
}

impl From<AllocError> for SimFault {
    ghost use Rattle.aud_sim.specs.declared.fault.SimFault.TheVariants.{Memory};

    ghost from_gives = { λ _ e. e ≡ Memory };

    fn from(_: AllocError) -> SimFault {
        SimFault::Memory
    }
}

//! A simulated cluster: the bundle that its taps write while it runs a schedule, with faults where the schedule has
//! them.
//!
//! Begin at [`simulate`] and [`Act`]; docs/SIMULATE.md has what each act does.
#![tactic(auto)]

mod act;
mod bundle;
mod client;
mod cluster;
mod delivery;
mod doing;
mod entry;
mod fault;
mod frames;
mod node;
mod possible;
mod recovery;
mod rooms;
mod schedule;
mod sessions;
mod texts;

pub use act::Act;
pub use fault::SimFault;
pub use schedule::simulate;

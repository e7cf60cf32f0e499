//! The tap of a WebSocket: what a client's end receives, as records of a client's tap.
//!
//! Begin at [`tap_next`].
#![tactic(auto)]

mod fault;
mod socket;

pub use fault::WireFault;
pub use socket::tap_next;

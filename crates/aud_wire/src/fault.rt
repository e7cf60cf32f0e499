//! Why the tap of a socket ends.
use thiserror::Error;

/// Why the tap of a socket ends: after one of these the caller taps it no more.
#[derive(Clone, Copy, Debug, PartialEq, Eq, Drop, Error)]
pub enum WireFault {
    /// The socket's read failed.
    #[error("the socket could not be read")]
    Socket,
    /// Memory could not be had.
    #[error("out of memory")]
    Memory,
}

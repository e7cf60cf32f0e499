//! An Engine.IO packet, and why a text is none.
ghost use Rattle.std.specs.Prelude.{◌≡◌};
ghost use Rattle.aud_eio.specs.declared.packet.EioFault.TheVariants.{Memory};

use std::alloc::{AllocError, AllocFailed};
use thiserror::Error;

/// A packet type other than a message (Engine.IO protocol 4, section "Packet encoding").
#[derive(Clone, Copy, Debug, PartialEq, Eq, Drop)]
pub enum Control {
    /// Digit 0, `open`.
    Opening,
    /// Digit 1, `close`.
    Closing,
    /// Digit 2, sent by the server.
    Ping,
    /// Digit 3, the client's answer to a ping.
    Pong,
    /// Digit 5.
    Upgrade,
    /// Digit 6.
    Noop,
}

/// A packet. Texts, without the type digit, are borrowed from the text or body that the packet was read from.
#[derive(Debug, PartialEq, Eq, Drop)]
pub enum Eio<'a> {
    /// Any packet that is no message, with its payload.
    Control(Control, &'a str),
    /// Digit 4: a message of text.
    Message(&'a str),
    /// A message of bytes that came as bytes, which it lends.
    Lent(&'a [u8]),
    /// A message of bytes that came as `b` and base64: the bytes that this spells.
    Own(Vec<u8>),
}

/// Why a text is no packet; or running out of memory.
#[derive(Clone, Copy, Debug, PartialEq, Eq, Drop, Error)]
pub enum EioFault {
    /// The text has no byte.
    #[error("the text has no byte")]
    Empty,
    /// The first byte is neither a digit from 0 to 6 nor `b`.
    #[error("the first byte is no packet type")]
    UnknownType,
    /// What follows `b` is not base64 of the standard alphabet, padded, with unused bits zero (RFC 4648, section 4).
    #[error("what follows `b` is not base64")]
    BadBase64,
    /// Memory could not be had.
    #[error("out of memory")]
    Memory,
}

impl From<AllocError> for EioFault {
    ghost from_gives = { λ _ e. e ≡ Memory };

    fn from(_: AllocError) -> EioFault {
        EioFault::Memory
    }
}

impl<T: Drop> From<AllocFailed<T>> for EioFault {
    ghost from_gives = { λ _ e. e ≡ Memory };

    fn from(_: AllocFailed<T>) -> EioFault {
        EioFault::Memory
    }
}

//! What a run writes, whichever mode it has.
ghost use Rattle.std.specs.Prelude.{◌≡◌};

use aud_verdict::{Output, Status};
use std::marker::Model;

/// How a run ends, and all bytes that it writes.
#[derive(Drop)]
pub struct Written {
    pub status: Status,
    pub bytes: Vec<u8>,
}

impl Model for Written {
    ghost use Rattle.aud_verdict.specs.Output.{OutputSeen};

    ghost Value = { OutputSeen };

    ghost view = { λ w. record { status = w.status; text = w.bytes.items } };
}

impl Written {
    /// The bytes of a text.
    pub fn of(output: Output) -> Written
        ensures { result ≡ output }
    {
        let Output { status, text } = output;
        Written {
            status,
            bytes: text.into_bytes(),
        }
    }
}

//! How many taps there are of each kind.
ghost use Rattle.std.specs.Prelude.{◌≡◌, ◌∷◌, ◌++◌, [], List, ℕ, Ok, MatchResult};
ghost use Rattle.aud_tap.specs.declared.records.Version.{Version};
ghost use Rattle.aud_tap.specs.declared.taps.Tap.{Tap};
ghost use Rattle.aud_reader.specs.Steps.{Fails};
ghost use Rattle.aud_reader.specs.Bundle.{another_tap, no_records};

use crate::fault::{InputCode, LIMIT, LineFault};
use crate::limits::{MAX_CLIENT_TAPS, MAX_NODE_TAPS};
use aud_tap::TapKind;

const SECOND_STREAM: LineFault = LineFault::Code(InputCode::SecondStream);

#[derive(Drop)]
pub struct Counts {
    streams: usize,
    nodes: usize,
    clients: usize,
}

impl Counts {
    ghost use Rattle.aud_reader.specs.Private.Kept.{Counted};

    pub fn new() -> Counts
        ensures { Counted result [] }
    {
        Counts {
            streams: 0,
            nodes: 0,
            clients: 0,
        }
    }

    /// Counts one more tap of a kind, unless there are as many as may be.
    pub fn add(&mut self, of: TapKind) -> Result<(), LineFault>
        ensures { (taps : List Tap) → Counted self.old taps
            → MatchResult result
            (λ _. (another_tap of taps ≡ Ok tt)
            × ((name : List ℕ) (version : Version)
            → Counted self.new
            (taps ++ record { name = name; version = version; records = no_records of } ∷ [])))
            (λ e. Fails e (another_tap of taps)) }
    {
        match of {
            TapKind::Stream => {
                if self.streams >= 1 {
                    return Err(SECOND_STREAM);
                }
                self.streams += 1;
            }
            TapKind::Node => {
                if self.nodes >= MAX_NODE_TAPS {
                    return Err(LIMIT);
                }
                self.nodes += 1;
            }
            TapKind::Client => {
                if self.clients >= MAX_CLIENT_TAPS {
                    return Err(LIMIT);
                }
                self.clients += 1;
            }
        }
        Ok(())
    }
}

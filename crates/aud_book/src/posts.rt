//! The ledger that counts what is posted at a desk.
ghost use Rattle.std.specs.Prelude.{ℕ};

use std::marker::Brand;
use std::sync::ledger::Ledger;

/// The ledger of a desk's posts. Its shares are cut into a part for each tap.
///
/// Code that opens a desk is generic over it, and is called with [`Brand`].
pub trait Posts: Ledger {
    /// How many taps there are.
    ghost count: { ℕ };
}

impl Posts for Brand {
    ghost count = { 0 };
}

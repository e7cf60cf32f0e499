//! The taps of a bundle.
ghost use Rattle.std.specs.Prelude.{IfOk};
ghost use Rattle.aud_tap.specs.Names.{AreNamedOnce};

use aud_reader::{LentLine, Lines, read_bundle};
use aud_tap::Taps;
use std::alloc::Global;
use std::hash::RandomState;
use std::test::Fail;

/// The taps of the lines of a text.
pub fn taps_of(alloc: Global, keys: RandomState, bundle: &str) -> Result<Taps, Fail>
    ensures { IfOk result (λ taps. AreNamedOnce taps) }
{
    let mut lines = Lines::new(alloc);
    for line in bundle.lines() {
        let number = (lines.len() as u64).saturating_add(1);
        let bytes = line.as_bytes();
        lines.push(&LentLine { number, bytes })?;
    }
    let taps = read_bundle(alloc, keys, &lines)?;
    Ok(taps)
}

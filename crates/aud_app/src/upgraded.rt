//! The bundle in version 2.
ghost use Rattle.std.specs.Prelude.{◌≡◌, IfOk};
ghost use Rattle.aud_upgrade.specs.Upgraded.{upgraded};
ghost use Rattle.aud_writer.specs.WrittenBundle.{written_bundle};
ghost use Rattle.aud_app.specs.Output.{IsUpgrade};
ghost use Rattle.aud_app.specs.Upgrades.{upgrade_output};

use crate::written::Written;
use aud_node::Logs;
use aud_reader::ReadFault;
use aud_tap::Taps;
use aud_upgrade::{Joins, upgrade};
use aud_verdict::{Status, refusal};
use aud_writer::write_bundle;
use std::alloc::{AllocError, Global};
use std::hash::RandomState;
use std::mem::ManuallyDrop;

/// The bundle of the taps in version 2, or the first of its lines that would be too long.
pub fn upgraded(alloc: Global, keys: RandomState, taps: &Taps) -> Result<Written, AllocError>
    ensures { IfOk result (IsUpgrade taps.now) }
{
    let upgraded = upgraded_taps(alloc, keys, taps)?;
    written(alloc, &ManuallyDrop::new(upgraded))
}

/// The taps in version 2.
fn upgraded_taps(alloc: Global, keys: RandomState, taps: &Taps) -> Result<Taps, AllocError>
    ensures { IfOk result (λ upgrade. upgrade ≡ upgraded taps.now) }
{
    let logs = Logs::build(alloc, keys, taps)?;
    upgrade(alloc, &ManuallyDrop::new(logs), Joins::TakeAlone)
}

/// The lines of the taps, or the first of them that would be too long.
fn written(alloc: Global, taps: &Taps) -> Result<Written, AllocError>
    ensures { IfOk result (λ output. output ≡ upgrade_output (written_bundle taps.now)) }
{
    match write_bundle(alloc, taps) {
        Ok(bytes) => Ok(Written {
            status: Status::AllYes,
            bytes,
        }),
        Err(ReadFault::Input(line, code)) => Ok(Written::of(refusal(alloc, line, code.name())?)),
        Err(ReadFault::Memory) => Err(AllocError),
    }
}

//! The positions of what was received.
ghost use Rattle.std.specs.Prelude.{◌≡◌, ◌++◌, IfOk, OnOk, map};
ghost use Rattle.aud_client.specs.StaySeen.{FrameSeen};
ghost use Rattle.aud_check.specs.Window.{positions_received};

use aud_client::Stay;
use std::alloc::{AllocError, Global};

/// The positions of the frames in stays, stay after stay.
pub fn positions_received(alloc: Global, stays: &[&Stay<'_>]) -> Result<Vec<u64>, AllocError>
    ensures { IfOk result (λ positions. positions.items
        ≡ positions_received (map (λ stay. stay.now) stays.now)) }
{
    let mut positions = Vec::new(alloc);
    for stay in stays {
        push_positions(&mut positions, *stay)?;
    }
    Ok(positions)
}

/// Adds those of one stay.
fn push_positions(positions: &mut Vec<u64>, stay: &Stay<'_>) -> Result<(), AllocError>
    ensures { OnOk result (positions.new.items
        ≡ positions.old.items ++ map (λ (frame : FrameSeen). frame.position) stay.now.frames) }
{
    for frame in &stay.frames {
        positions.push(frame.position)?;
    }
    Ok(())
}

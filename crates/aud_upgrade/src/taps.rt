//! Taps in version 2.
ghost use Rattle.std.specs.Prelude.{◌≡◌, IfOk, Some, map, slice_get};
ghost use Rattle.aud_upgrade.specs.Upgraded.{upgraded_records, upgraded_tap};

use crate::copies::{copied_client, copied_entries};
use crate::joins::Joins;
use crate::log::upgraded_log;
use aud_node::Logs;
use aud_tap::{Records, Tap, Taps, Version};
use std::alloc::{AllocError, Global};

/// The records of the tap at this place.
fn upgraded_records(
    alloc: Global,
    logs: &Logs<'_>,
    joins: Joins,
    place: usize,
    tap: &Tap,
) -> Result<Records, AllocError>
    requires { slice_get logs.now.taps place ≡ Some tap.now }
    ensures { IfOk result (λ records. records
        ≡ upgraded_records joins logs.now.stream tap.now.records) }
{
    if let Some(log) = logs.node(place) {
        return Ok(Records::Node(upgraded_log(alloc, log, joins)?));
    }
    match &tap.records {
        Records::Stream(entries) => Ok(Records::Stream(copied_entries(alloc, entries)?)),
        Records::Node(_) => unreachable!(),
        Records::Client(records) => Ok(Records::Client(copied_client(alloc, records)?)),
    }
}

/// The tap at this place in version 2.
fn upgraded_tap(
    alloc: Global,
    logs: &Logs<'_>,
    joins: Joins,
    place: usize,
    tap: &Tap,
) -> Result<Tap, AllocError>
    requires { slice_get logs.now.taps place ≡ Some tap.now }
    ensures { IfOk result (λ new. new ≡ upgraded_tap joins logs.now.stream tap.now) }
{
    let name = tap.name.share()?;
    let records = upgraded_records(alloc, logs, joins, place, tap)?;
    Ok(Tap {
        name,
        version: Version::Two,
        records,
    })
}

/// The taps in version 2. In a node's log each run of two or more neighbouring records that are joined, each of which
/// takes entries past the cursor, is one `takes` of the last one's offset; all other records stay, and so do those of the
/// stream and of the clients. Texts are shared with the taps of the logs, records are copied.
pub fn upgrade(alloc: Global, logs: &Logs<'_>, joins: Joins) -> Result<Taps, AllocError>
    ensures { IfOk result (λ taps. taps
        ≡ map (upgraded_tap joins logs.now.stream) logs.now.taps) }
{
    let mut taps = Vec::new(alloc);
    for (place, tap) in logs.taps().iter().enumerate() {
        taps.push(upgraded_tap(alloc, logs, joins, place, tap)?)?;
    }
    Ok(Taps::new(taps))
}

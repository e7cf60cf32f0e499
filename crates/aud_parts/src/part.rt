//! The taps of a part.
pub mod audience;
pub mod entries;
pub mod lines;
pub mod own_records;
pub mod server_text;
pub mod text;

ghost use Rattle.std.specs.Prelude.{◌≡◌, IfOk};
ghost use Rattle.std.specs.List.{filter_map};
ghost use Rattle.aud_parts.specs.PartTaps.{part_taps, IsPartOfEach};
ghost use Rattle.aud_parts.specs.Private.Kept.{entries_for, records_kept, tap_kept};
ghost use Rattle.aud_parts.specs.Private.OwnRecords.{has};

use crate::part::audience::Audience;
use crate::part::entries::part_entries;
use crate::part::own_records::{TextSet, own_records, set_of, tell_of_own};
use aud_node::{Logs, Stream};
use aud_tap::{Records, Tap, Taps, Text};
use aud_upgrade::{Joins, upgrade};
use std::alloc::{AllocError, Global};

/// The stream's and the nodes' taps of the part for these sessions, in the order of their headers: what is left of those
/// of the logs.
///
/// A node's tap is left if it tells of one of the sessions, without the records of other ones. Of the stream's entries
/// those stay events that are recoverable, and are for a namespace and a room of these sessions or came to a client of
/// the part, which is at one of the positions `came`: these count from 1, in any order. All other entries are `other`,
/// each at its place and with its offset. Taps are in version 2, with the takes of the nodes as runs. Clients' taps, if the
/// logs have any, are left out.
///
/// Texts are shared with the taps of the logs; records, and attachments of entries that stay events, are copied. It fails
/// only where memory runs out.
pub fn part_taps(
    alloc: Global,
    logs: &Logs<'_>,
    pids: &[Text],
    came: &[u64],
) -> Result<Taps, AllocError>
    ensures taps { IfOk result (λ part. part ≡ part_taps pids.now came.now logs.now) }
    ensures part { IfOk result (IsPartOfEach pids.now came.now logs.now) }
{
    let keys = logs.keys();
    let taps = logs.taps();
    let own = set_of(alloc, keys, pids)?;
    let audience = Audience::build(alloc, keys, &own, taps)?;
    let left = kept_taps(alloc, logs.stream(), &own, &audience, came, taps)?;
    let whole = Logs::build(alloc, keys, &left)?;
    upgrade(alloc, &whole, Joins::TakeAndTakes)
}

/// What is left of each of the taps that are kept for these sessions and this audience.
fn kept_taps(
    alloc: Global,
    stream: &Stream<'_>,
    own: &TextSet,
    audience: &Audience,
    came: &[u64],
    taps: &[Tap],
) -> Result<Taps, AllocError>
    ensures { IfOk result (λ left. left ≡ filter_map (tap_kept (has own.now) (entries_for
        (has audience.now.namespaces) (has audience.now.rooms) came.now stream.now)) taps.now) }
{
    let mut left = Vec::new(alloc);
    for tap in taps {
        let Some(records) = kept_records(alloc, stream, own, audience, came, &tap.records)? else {
            continue;
        };
        let name = tap.name.share()?;
        let version = tap.version;
        left.push(Tap {
            name,
            version,
            records,
        })?;
    }
    Ok(Taps::new(left))
}

/// What is left of a tap's records; none, where the tap isn't kept.
fn kept_records(
    alloc: Global,
    stream: &Stream<'_>,
    own: &TextSet,
    audience: &Audience,
    came: &[u64],
    records: &Records,
) -> Result<Option<Records>, AllocError>
    ensures { IfOk result (λ left. left ≡ records_kept (has own.now) (entries_for
        (has audience.now.namespaces) (has audience.now.rooms) came.now stream.now) records.now) }
{
    match records {
        Records::Stream(_) => {
            let entries = part_entries(alloc, stream, audience, came)?;
            Ok(Some(Records::Stream(entries)))
        }
        Records::Node(recs) => {
            if !tell_of_own(own, recs) {
                return Ok(None);
            }
            let left = own_records(alloc, own, recs)?;
            Ok(Some(Records::Node(left)))
        }
        Records::Client(_) => Ok(None),
    }
}

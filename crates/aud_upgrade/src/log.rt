//! A node's log in version 2.
ghost use Rattle.std.specs.Prelude.{◌≡◌, ◌<◌, ◌++◌, IfOk, OnOk, Some, length};
ghost use Rattle.aud_node.specs.Cursors.{cursor_at};
ghost use Rattle.aud_upgrade.specs.Upgraded.{is_joined, joined, takes_next, upgraded_log};

use crate::copies::copied_record;
use crate::joins::Joins;
use aud_node::NodeLog;
use aud_tap::{NodeRec, NodeRecs};
use std::alloc::{AllocError, Global};

/// The cursor before the record with this number.
fn cursor_before(log: &NodeLog<'_>, number: usize) -> u64
    requires { number < length log.now.recs }
    ensures { result ≡ cursor_at log.now.stream log.now.recs number }
{
    if number == 0 {
        return 0;
    }
    log.cursor_after(number - 1).unwrap_or(0)
}

/// Whether the record is one of those that are joined.
fn is_joined(joins: Joins, rec: &NodeRec) -> bool
    ensures { result ≡ is_joined joins rec.now }
{
    match rec {
        NodeRec::Take { .. } => true,
        NodeRec::Takes { .. } => matches!(joins, Joins::TakeAndTakes),
        _ => false,
    }
}

/// Whether the record with this number is, and moves the cursor.
fn takes_next(log: &NodeLog<'_>, joins: Joins, number: usize) -> bool
    ensures { result ≡ takes_next joins log.now.stream log.now.recs number }
{
    let Some(rec) = log.recs().get(number) else {
        return false;
    };
    if !is_joined(joins, rec) {
        return false;
    }
    match log.cursor_after(number) {
        Some(after) => cursor_before(log, number) < after,
        None => false,
    }
}

/// Adds what stands for a record, by whether the one before it, it, and the one after it are such.
fn keep(
    kept: &mut NodeRecs,
    before: bool,
    here: bool,
    after: bool,
    rec: &NodeRec,
) -> Result<(), AllocError>
    ensures { OnOk result (kept.new ≡ kept.old ++ joined before here after (Some rec.now)) }
{
    if here && after {
        return Ok(());
    }
    if before && here {
        if let NodeRec::Take { off } = rec {
            return kept.push(NodeRec::Takes { off: off.share()? });
        }
    }
    kept.push(copied_record(rec)?)
}

/// The records of the log, where each maximal run of two or more such records is one record.
pub fn upgraded_log(alloc: Global, log: &NodeLog<'_>, joins: Joins) -> Result<NodeRecs, AllocError>
    ensures { IfOk result (λ recs. recs ≡ upgraded_log joins log.now.stream log.now.recs) }
{
    let recs = log.recs();
    let mut kept = NodeRecs::new(alloc);
    let mut before = false;
    let mut here = takes_next(log, joins, 0);
    for number in 0..recs.len() {
        let after = takes_next(log, joins, number + 1);
        if let Some(rec) = recs.get(number) {
            keep(&mut kept, before, here, after, rec)?;
        }
        before = here;
        here = after;
    }
    Ok(kept)
}

//! The records of a node tap, while they are read.
ghost use Rattle.std.specs.Prelude.{◌≡◌, ◌++◌, List, ℕ, OnOk, option_to_list};
ghost use Rattle.std.specs.List.{filter_map};
ghost use Rattle.aud_json.specs.View.{view};
ghost use Rattle.aud_reader.specs.Private.Changes.{Becomes};
ghost use Rattle.aud_tap.specs.RecordFields.{pid_of};
ghost use Rattle.aud_reader.specs.Bundle.{node_room, with_node_record};
ghost use Rattle.aud_reader.specs.Steps.{Gives};
ghost use Rattle.aud_reader.specs.Private.NewRecord.{has_record, with_new_node_record, with_room_for};
ghost use Rattle.aud_reader.specs.Private.Texts.{HasPids};

use super::pids::add_pid_of;
use crate::fault::{LIMIT, LineFault, UNKNOWN_KIND};
use crate::limits::MAX_RECORDS;
use crate::read::node::{is_in_version, node_record};
use aud_base::TextPool;
use aud_json::Fields;
use aud_tap::{NodeRec, NodeRecs, Text, Version};
use std::collections::HashSet;
use std::hash::RandomState;

/// Adds the pid that a record speaks of to those of all node records, where there is room after so many records.
fn admit(
    count: usize,
    pids: &mut HashSet<Text, RandomState>,
    rec: &NodeRec,
) -> Result<(), LineFault>
    ensures room { (all : List (List ℕ)) → HasPids pids.old all
        → Gives result (node_room count (all ++ option_to_list (pid_of rec.now))) }
    ensures pids { (all : List (List ℕ)) → HasPids pids.old all
        → OnOk result (HasPids pids.new (all ++ option_to_list (pid_of rec.now))) }
{
    if count >= MAX_RECORDS {
        return Err(LIMIT);
    }
    add_pid_of(pids, rec)
}

/// Adds a record, and its pid to those of all node records, if there is room for both.
fn append(
    records: &mut NodeRecs,
    pids: &mut HashSet<Text, RandomState>,
    rec: NodeRec,
) -> Result<(), LineFault>
    ensures records { (all : List (List ℕ)) → HasPids pids.old all
        → Becomes result records.new (with_room_for all records.old rec) }
    ensures pids { (before after : List (List ℕ))
        → HasPids pids.old (before ++ filter_map pid_of records.old ++ after)
        → OnOk result (HasPids pids.new (before ++ filter_map pid_of records.new ++ after)) }
{
    admit(records.len(), pids, &rec)?;
    records.push(rec)?;
    Ok(())
}

/// A tap of this version may have this record.
fn has_record(version: Version, rec: &NodeRec) -> bool
    ensures { result ≡ has_record version rec.now }
{
    match version {
        Version::One => !matches!(rec, NodeRec::Takes { .. }),
        Version::Two => true,
    }
}

/// Adds a record to those of a tap of this version, and its pid to those of all node records.
pub fn push_node_record(
    version: Version,
    records: &mut NodeRecs,
    pids: &mut HashSet<Text, RandomState>,
    rec: NodeRec,
) -> Result<(), LineFault>
    ensures records { (all : List (List ℕ)) → HasPids pids.old all
        → Becomes result records.new (with_new_node_record version all records.old rec) }
    ensures pids { (before after : List (List ℕ))
        → HasPids pids.old (before ++ filter_map pid_of records.old ++ after)
        → OnOk result (HasPids pids.new (before ++ filter_map pid_of records.new ++ after)) }
{
    if !has_record(version, &rec) {
        return Err(UNKNOWN_KIND);
    }
    append(records, pids, rec)
}

/// Adds the record of a line in a tap of this version, of which the texts are shared with the pool, and its pid to
/// those of all node records.
#[tactic(auto, unfolding(crate::specs::Bundle::with_node_record))]
pub fn add_node_record(
    version: Version,
    pool: &mut TextPool,
    records: &mut NodeRecs,
    pids: &mut HashSet<Text, RandomState>,
    kind: &str,
    d: &Fields<'_>,
) -> Result<(), LineFault>
    ensures records { (all : List (List ℕ)) → HasPids pids.old all
        → Becomes result records.new (with_node_record version all records.old kind.now
        (view d.now)) }
    ensures pids { (before after : List (List ℕ))
        → HasPids pids.old (before ++ filter_map pid_of records.old ++ after)
        → OnOk result (HasPids pids.new (before ++ filter_map pid_of records.new ++ after)) }
{
    if !is_in_version(version, kind) {
        return Err(UNKNOWN_KIND);
    }
    let rec = node_record(pool, kind, d)?;
    append(records, pids, rec)
}

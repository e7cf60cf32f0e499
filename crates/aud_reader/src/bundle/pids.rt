//! The pids of the node records of a bundle.
ghost use Rattle.std.specs.Prelude.{◌∷◌, ◌++◌, [], List, ℕ, OnOk, option_to_list};
ghost use Rattle.aud_reader.specs.Steps.{Gives};
ghost use Rattle.aud_tap.specs.RecordFields.{pid_of};
ghost use Rattle.aud_reader.specs.Bundle.{pids_fit};
ghost use Rattle.aud_reader.specs.Private.Texts.{HasPids};

use crate::fault::{LIMIT, LineFault};
use crate::limits::MAX_PIDS;
use aud_tap::{NodeRec, Text};
use std::collections::HashSet;
use std::hash::RandomState;

/// Adds a pid, unless there are too many.
fn add_pid(pids: &mut HashSet<Text, RandomState>, pid: &Text) -> Result<(), LineFault>
    ensures fit { (all : List (List ℕ)) → HasPids pids.old all
        → Gives result (pids_fit (all ++ pid.now ∷ [])) }
    ensures pids { (all : List (List ℕ)) → HasPids pids.old all
        → OnOk result (HasPids pids.new (all ++ pid.now ∷ [])) }
{
    let count = pids.len();
    if pids.contains(pid) {
        return Ok(());
    }
    if count >= MAX_PIDS {
        return Err(LIMIT);
    }
    pids.insert(pid.share()?)?;
    Ok(())
}

/// Adds the pid that a record speaks of, unless there are too many.
pub fn add_pid_of(pids: &mut HashSet<Text, RandomState>, rec: &NodeRec) -> Result<(), LineFault>
    ensures fit { (all : List (List ℕ)) → HasPids pids.old all
        → Gives result (pids_fit (all ++ option_to_list (pid_of rec.now))) }
    ensures pids { (all : List (List ℕ)) → HasPids pids.old all
        → OnOk result (HasPids pids.new (all ++ option_to_list (pid_of rec.now))) }
{
    match rec.pid() {
        Some(pid) => add_pid(pids, pid),
        None => Ok(()),
    }
}

//! The members of the other entries with the same fault, and of the other sessions with it.
ghost use Rattle.std.specs.Prelude.{◌≡◌, OnOk};
ghost use Rattle.serde_json.specs.View.{members_view};
ghost use Rattle.aud_explanation.specs.JsonAlso.{with_also};

use crate::also::Also;
use crate::json_line::value::{Told, numbers, texts, values};
use aud_input::InputFile;
use serde_json::{Map, Value, json, put};
use std::alloc::{AllocError, Global};

/// `{"lines":..,"position":..,"to":..}`.
impl<'r> Told for Also<'r> {
    ghost use Rattle.aud_explanation.specs.JsonAlso.{also_data};

    ghost data_of = { λ files pid also. also_data also };

    fn value(&self, alloc: Global, _files: &[InputFile], _pid: &str) -> Result<Value, AllocError> {
        let lines = Value::Array(numbers(alloc, self.lines)?);
        json!(in alloc; {"lines": lines, "position": self.position, "to": self.to})
    }
}

/// Puts the other entries with the same fault, how many more there are, and the pids of the other sessions with the same
/// fault at the same record.
#[tactic(auto, unfolding(crate::specs::JsonAlso::with_also))]
pub(crate) fn put_also(
    alloc: Global,
    members: &mut Map<String, Value>,
    others: &[Also<'_>],
    left: u64,
    pids: &[&str],
) -> Result<(), AllocError>
    ensures { OnOk result (members_view members.new.entries
        ≡ with_also others.now left pids.now (members_view members.old.entries)) }
{
    let values = values(alloc, &[], "", others)?;
    let pids = texts(alloc, pids)?;
    put(members, alloc, "also", Value::Array(values))?;
    put(members, alloc, "also_left", Value::from(left))?;
    put(members, alloc, "alike", Value::Array(pids))
}

//! A row as an object, and the members of the evidence.
ghost use Rattle.std.specs.Prelude.{◌≡◌, OnOk};
ghost use Rattle.serde_json.specs.View.{members_view};
ghost use Rattle.aud_explanation.specs.JsonRow.{role_word, with_evidence};

use crate::json_line::place::put_place;
use crate::json_line::value::{Told, put_texts, values};
use crate::long::{first_shown, last_shown};
use crate::long_rows::{kept_rows, rows_left};
use crate::name::Names;
use crate::text::{other_session, push_record};
use aud_input::{InputFile, place_told};
use aud_rows::{Role, Row};
use serde_json::{Map, Value, put};
use std::alloc::{AllocError, Global};

fn role_word(role: Role) -> &'static str
    ensures { result.now ≡ role_word role }
{
    match role {
        Role::Fault => "fault",
        Role::Earlier => "earlier",
        Role::Later => "later",
        Role::Entry => "entry",
        Role::Reached => "reached",
        Role::Room => "room",
        Role::Left => "left",
        Role::Break => "break",
        Role::Back => "back",
        Role::Ask => "ask",
        Role::Reply => "reply",
    }
}

/// `{"file":..,"file_line":..,"line":..,"of":..,"role":..,"says":..,"tap":..}`.
impl<'r> Told for Row<'r> {
    ghost use Rattle.aud_explanation.specs.JsonRow.{row_data};

    ghost data_of = { row_data };

    #[tactic(auto, unfolding(crate::specs::JsonRow::row_data))]
    fn value(&self, alloc: Global, files: &[InputFile], pid: &str) -> Result<Value, AllocError> {
        let mut says = String::new(alloc);
        push_record(alloc, &mut says, Names::Whole, self.says)?;
        let texts = [
            ("of", other_session(self.session, pid)),
            ("role", Some(role_word(self.role))),
            ("tap", Some(self.tap)),
        ];
        let mut members = Map::new(alloc);
        put_place(alloc, &mut members, place_told(files, self.line))?;
        put(&mut members, alloc, "line", Value::from(self.line))?;
        put(&mut members, alloc, "says", Value::String(says))?;
        put_texts(alloc, &mut members, &texts)?;
        Ok(Value::Object(members))
    }
}

/// Puts the rows of the evidence of the session with this pid, as far as they are shown, and how many are left out.
#[tactic(auto, unfolding(crate::specs::JsonRow::with_evidence, crate::specs::LongRows::rows_shown))]
pub(crate) fn put_evidence(
    alloc: Global,
    members: &mut Map<String, Value>,
    files: &[InputFile],
    pid: &str,
    rows: &[Row<'_>],
) -> Result<(), AllocError>
    ensures { OnOk result (members_view members.new.entries
        ≡ with_evidence files.now pid.now rows.now (members_view members.old.entries)) }
{
    let kept = kept_rows(alloc, rows)?;
    let mut shown = Vec::new(alloc);
    shown.extend_from_slice(first_shown(rows))?;
    shown.extend_from_slice(kept.as_slice())?;
    shown.extend_from_slice(last_shown(rows))?;
    let values = values(alloc, files, pid, shown.as_slice())?;
    put(members, alloc, "evidence", Value::Array(values))?;
    let left = rows_left(rows, kept.as_slice()) as u64;
    put(members, alloc, "evidence_left", Value::from(left))
}

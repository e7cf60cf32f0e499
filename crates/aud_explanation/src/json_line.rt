//! The JSON of an explanation.
ghost use Rattle.std.specs.Prelude.{◌≡◌, IfOk, OnOk, string_bytes};
ghost use Rattle.serde_json.specs.View.{view, members_view};
ghost use Rattle.aud_explanation.specs.Json.{explanation_data, explanation_json, with_causes, with_events, with_refuted};

mod account;
mod also;
mod cause;
mod event;
pub(crate) mod place;
mod refused;
mod row;
mod turn;
pub(crate) mod value;
mod verdict;

use crate::cause::Cause;
use crate::escape::push_json_printed;
use crate::event::ClientEvent;
use crate::explanation::{Explanation, class_of_explained};
use crate::json_line::account::{put_account, put_client};
use crate::json_line::also::put_also;
use crate::json_line::row::put_evidence;
use crate::json_line::value::{put_shown, texts};
use crate::json_line::verdict::put_verdict;
use aud_input::InputFile;
use serde_json::{Map, Value, put};
use std::alloc::{AllocError, Global};

/// Puts what happened to the client.
#[tactic(auto, unfolding(crate::specs::Json::with_events))]
fn put_events(
    alloc: Global,
    members: &mut Map<String, Value>,
    events: &[ClientEvent],
) -> Result<(), AllocError>
    ensures { OnOk result (members_view members.new.entries
        ≡ with_events events.now (members_view members.old.entries)) }
{
    let names = ("events", "events_left");
    put_shown(alloc, members, &[], "", names, events)
}

/// Puts the causes.
#[tactic(auto, unfolding(crate::specs::Json::with_causes))]
fn put_causes(
    alloc: Global,
    members: &mut Map<String, Value>,
    causes: &[Cause<'_>],
) -> Result<(), AllocError>
    ensures { OnOk result (members_view members.new.entries
        ≡ with_causes causes.now (members_view members.old.entries)) }
{
    let names = ("causes", "causes_left");
    put_shown(alloc, members, &[], "", names, causes)
}

/// Puts the names of the causes that were refuted.
#[tactic(auto, unfolding(crate::specs::Json::with_refuted))]
fn put_refuted(
    alloc: Global,
    members: &mut Map<String, Value>,
    refuted: &[&'static str],
) -> Result<(), AllocError>
    ensures { OnOk result (members_view members.new.entries
        ≡ with_refuted refuted.now (members_view members.old.entries)) }
{
    let values = texts(alloc, refuted)?;
    put(members, alloc, "refuted", Value::Array(values))
}

fn explanation_value(
    alloc: Global,
    files: &[InputFile],
    explanation: &Explanation<'_, '_, '_>,
) -> Result<Value, AllocError>
    ensures { IfOk result (λ v. view v ≡ explanation_data files.now explanation.now) }
{
    let (pid, verdict) = (explanation.pid, explanation.verdict);
    let class = class_of_explained(explanation);
    let mut members = Map::new(alloc);
    put_verdict(alloc, &mut members, pid, verdict, class)?;
    put_client(alloc, &mut members, explanation.client)?;
    put_account(alloc, &mut members, verdict, explanation.account)?;
    let names = ("turns", "turns_left");
    put_shown(alloc, &mut members, files, pid, names, explanation.turns)?;
    put_evidence(alloc, &mut members, files, pid, explanation.evidence)?;
    let (also, left) = (explanation.also, explanation.also_left);
    put_also(alloc, &mut members, also, left, explanation.alike)?;
    let names = ("refused", "refused_left");
    put_shown(alloc, &mut members, files, pid, names, explanation.refused)?;
    put_events(alloc, &mut members, explanation.events)?;
    put_causes(alloc, &mut members, explanation.causes)?;
    put_refuted(alloc, &mut members, explanation.refuted)?;
    Ok(Value::Object(members))
}

/// The explanation as one line of JSON, without blanks and without a newline, its keys in byte order. Each member is
/// always there: what is not known is `null`. `v` is the version of these members, 1.
///
/// Of more than 200 turns, rows of evidence, events of the client, refused recoveries, causes, or entries that the client
/// missed after a refused recovery, the first 100 and the last 100 stand there; `turns_left`, `evidence_left` and so on
/// are how many are left out between them, and 0 where all stand there. Of the rows between, those at which the fault
/// shows stand there too. Names are whole.
///
/// A control character and one that isn't seen itself, or turns the direction of others, stands there by its code, as
/// `\u202e`, which says the same to a reader of JSON.
///
/// `files` are those of the input, in which the lines of rows are counted: the `file` of a row is the name of the one in
/// which its line stands, and `file_line` the line's number there. Both are `null` where there are fewer than two files.
/// The `of` of a row is the session that its record speaks of, `null` where that is the one that is explained, or none.
pub fn explanation_json(
    alloc: Global,
    files: &[InputFile],
    explanation: &Explanation<'_, '_, '_>,
) -> Result<String, AllocError>
    ensures { IfOk result (λ text. string_bytes text ≡ explanation_json files.now explanation.now) }
{
    let value = explanation_value(alloc, files, explanation)?;
    let json = value.to_string(alloc)?;
    let mut text = String::new(alloc);
    push_json_printed(&mut text, json.as_str())?;
    Ok(text)
}

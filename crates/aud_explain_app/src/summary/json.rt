//! A summary as JSON.
ghost use Rattle.std.specs.Prelude.{◌≡◌, IfOk, OnOk, codes, string_bytes};
ghost use Rattle.serde_json.specs.Data.{no_members, object, put};
ghost use Rattle.serde_json.specs.View.{members_view, view};
ghost use Rattle.aud_explain_app.specs.Summary.Json.{causes_data, figures_data, summary_data, summary_json, with_figures};

use crate::summary::Summary;
use crate::summary::causes::{CausesTold, cause_names, count_with};
use serde_json::{Map, Value, json, put};
use std::alloc::{AllocError, Global};

/// The summary as one line of JSON without blanks and without a newline: `{"summary":{..},"v":1}`, where `v` is the
/// version of the schema. It has every figure, and all classes, faults and causes, with 0 for those that no session has;
/// the members of each object stand in the byte order of their names.
pub fn summary_json(
    alloc: Global,
    summary: &Summary,
    told: &[CausesTold],
) -> Result<String, AllocError>
    ensures { IfOk result (λ text. string_bytes text ≡ summary_json summary.now told.now) }
{
    let value = summary_value(alloc, summary, told)?;
    value.to_string(alloc)
}

fn summary_value(alloc: Global, summary: &Summary, told: &[CausesTold]) -> Result<Value, AllocError>
    ensures { IfOk result (λ value. view value ≡ summary_data summary.now told.now) }
{
    json!(in alloc; {"summary": figures_value(alloc, summary, told)?, "v": 1u64})
}

fn figures_value(alloc: Global, summary: &Summary, told: &[CausesTold]) -> Result<Value, AllocError>
    ensures { IfOk result (λ value. view value ≡ figures_data summary.now told.now) }
{
    let numbers = [
        ("bytes", summary.input.bytes),
        ("lines", summary.input.lines),
        ("no", summary.no as u64),
        ("no_known_cause", count_with(told, None)),
        ("seconds", summary.input.seconds),
        ("sessions", summary.sessions as u64),
        ("unobserved", summary.unobserved as u64),
        ("yes", summary.yes as u64),
    ];
    let classes = [
        ("delivery", summary.classes.delivery as u64),
        ("packets", summary.classes.packets as u64),
        ("recording", summary.classes.recording as u64),
    ];
    let entries = [
        ("all", summary.entries.all as u64),
        ("recoverable", summary.entries.recoverable as u64),
    ];
    let recoveries = [
        ("asked", summary.recoveries.asked as u64),
        ("granted", summary.recoveries.granted as u64),
        ("refused", summary.recoveries.refused as u64),
    ];
    let tails = [
        ("events", summary.tails.events),
        ("sessions", summary.tails.sessions as u64),
    ];
    let mut map = Map::new(alloc);
    put_figures(&mut map, alloc, &numbers)?;
    put_causes(&mut map, alloc, told)?;
    put_object(&mut map, alloc, "class", &classes)?;
    put_object(&mut map, alloc, "entries", &entries)?;
    put_object(&mut map, alloc, "fault", &summary.faults)?;
    put_object(&mut map, alloc, "recoveries", &recoveries)?;
    put_object(&mut map, alloc, "tail", &tails)?;
    Ok(Value::Object(map))
}

/// Puts an object with all causes into the object.
fn put_causes(
    map: &mut Map<String, Value>,
    alloc: Global,
    told: &[CausesTold],
) -> Result<(), AllocError>
    ensures { OnOk result (members_view map.new.entries
        ≡ put (codes "causes") (causes_data told.now) (members_view map.old.entries)) }
{
    let mut causes = Map::new(alloc);
    for name in cause_names() {
        put(
            &mut causes,
            alloc,
            name,
            Value::from(count_with(told, Some(*name))),
        )?;
    }
    put(map, alloc, "causes", Value::Object(causes))
}

/// Puts an object with these figures into the object, under this name.
fn put_object(
    map: &mut Map<String, Value>,
    alloc: Global,
    name: &str,
    figures: &[(&str, u64)],
) -> Result<(), AllocError>
    ensures { OnOk result (members_view map.new.entries
        ≡ put name.now (object (with_figures figures.now no_members))
        (members_view map.old.entries)) }
{
    let mut object = Map::new(alloc);
    put_figures(&mut object, alloc, figures)?;
    put(map, alloc, name, Value::Object(object))
}

/// Puts these figures into the object, each under its name.
fn put_figures(
    map: &mut Map<String, Value>,
    alloc: Global,
    figures: &[(&str, u64)],
) -> Result<(), AllocError>
    ensures { OnOk result (members_view map.new.entries
        ≡ with_figures figures.now (members_view map.old.entries)) }
{
    for (name, figure) in figures {
        put(map, alloc, name, Value::from(*figure))?;
    }
    Ok(())
}

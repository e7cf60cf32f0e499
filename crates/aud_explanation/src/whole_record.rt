//! A record as a line of the bundle has it, where it is asked for by its number.
ghost use Rattle.std.specs.Prelude.{◌≡◌, ◌++◌, false, IfOk, OnOk, string_bytes};
ghost use Rattle.serde_json.specs.View.{view};
ghost use Rattle.serde_json.specs.Written.{has_float};
ghost use Rattle.aud_explanation.specs.WholeRecord.{head_words, whole_record_data, whole_record_json, whole_record_text};

use crate::escape::{push_json_printed, push_printed};
use crate::json_line::place::put_place;
use crate::json_line::value::number_or_null;
use crate::text::push_place;
use aud_input::{InputFile, place_told};
use serde_json::{Map, Value, put};
use std::alloc::{AllocError, Global};

/// Puts the tap, the record's number, and its line, where it is known, at the end.
fn push_head(
    alloc: Global,
    out: &mut String,
    files: &[InputFile],
    tap: &str,
    number: u64,
    line: Option<u64>,
) -> Result<(), AllocError>
    ensures { OnOk result (string_bytes out.new
        ≡ string_bytes out.old ++ head_words files.now tap.now number line) }
{
    write!(out, "{tap} {number}")?;
    match line {
        Some(line) => {
            write!(out, "  line {line}")?;
            push_place(alloc, out, files, line)
        }
        None => Ok(()),
    }
}

/// The record with this number of the tap of this name, its line where that is known, and its JSON, as a line of text
/// of any number of columns: `a 3  line 12  {"k":"take","off":"1-0"}`. Names stand there as
/// [`push_printed`](crate::push_printed) puts them. Characters of the JSON that are not seen, or change how others are,
/// stand there by their codes, as in `\u202e`, which is JSON of the same value. Where there are several files, the line
/// says in which of them it stands too.
pub fn whole_record_text(
    alloc: Global,
    files: &[InputFile],
    tap: &str,
    number: u64,
    line: Option<u64>,
    json: &Value,
) -> Result<String, AllocError>
    ensures { has_float (view json.now) ≡ false → IfOk result (λ text. string_bytes text
        ≡ whole_record_text files.now tap.now number line (view json.now)) }
{
    let mut head = String::new(alloc);
    push_head(alloc, &mut head, files, tap, number, line)?;
    let json = json.to_string(alloc)?;
    let mut out = String::new(alloc);
    push_printed(&mut out, head.as_str())?;
    out.push_str("  ")?;
    push_json_printed(&mut out, json.as_str())?;
    out.push_str("\n")?;
    Ok(out)
}

#[tactic(auto, unfolding(crate::specs::WholeRecord::whole_record_data))]
fn whole_record_value(
    alloc: Global,
    files: &[InputFile],
    tap: &str,
    number: u64,
    line: Option<u64>,
    json: Value,
) -> Result<Value, AllocError>
    ensures { IfOk result (λ value. view value
        ≡ whole_record_data files.now tap.now number line (view json)) }
{
    let place = match line {
        Some(line) => place_told(files, line),
        None => None,
    };
    let mut members = Map::new(alloc);
    put_place(alloc, &mut members, place)?;
    put(&mut members, alloc, "line", number_or_null(line))?;
    put(&mut members, alloc, "number", Value::from(number))?;
    put(&mut members, alloc, "record", json)?;
    put(&mut members, alloc, "tap", Value::try_from_str(alloc, tap)?)?;
    put(&mut members, alloc, "v", Value::from(1u64))?;
    Ok(Value::Object(members))
}

/// The same as a line of JSON: `{"file":..,"file_line":..,"line":..,"number":..,"record":..,"tap":..,"v":1}`. What isn't
/// known is `null`, and so are `file` and `file_line` where there are fewer than two files. `v` is the version of these
/// members.
pub fn whole_record_json(
    alloc: Global,
    files: &[InputFile],
    tap: &str,
    number: u64,
    line: Option<u64>,
    json: Value,
) -> Result<String, AllocError>
    ensures { has_float (view json) ≡ false → IfOk result (λ text. string_bytes text
        ≡ whole_record_json files.now tap.now number line (view json)) }
{
    let value = whole_record_value(alloc, files, tap, number, line, json)?;
    let json = value.to_string(alloc)?;
    let mut text = String::new(alloc);
    push_json_printed(&mut text, json.as_str())?;
    text.push_str("\n")?;
    Ok(text)
}

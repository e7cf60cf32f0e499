//! Records that are asked for by their numbers.
ghost use Rattle.std.specs.Prelude.{◌≡◌, ◌⊎◌, false, ℕ, IfErr, IfOk, Some, option_map, string_bytes};
ghost use Rattle.serde_json.specs.View.{view};
ghost use Rattle.serde_json.specs.Written.{has_float};
ghost use Rattle.aud_explain_app.specs.Records.{first_lacking, named_text, place_named, records_output, shown_in};
ghost use Rattle.aud_explain_app.specs.declared.fault.ExplainFault.TheVariants.{NoRecord, Unexplained};
ghost use Rattle.aud_explain_app.specs.declared.fault.Unexplained.TheVariants.{Memory};

use crate::fault::ExplainFault;
use crate::written::{Form, Layout};
use aud_cli::NamedRecord;
use aud_explanation::{whole_record_json, whole_record_text};
use aud_input::RecordLines;
use aud_tap::Tap;
use aud_verdict::{Output, Status};
use aud_writer::value_at;
use serde_json::Value;
use std::alloc::{AllocError, Global};

/// The place of the tap of this name, which counts from 0.
fn place_named(taps: &[Tap], name: &str) -> Option<usize>
    ensures { result ≡ place_named taps.now name.now }
{
    taps.iter().position(|tap| tap.name.as_str() == name)
}

/// A record with its line, as text or as JSON.
fn shown_in(
    alloc: Global,
    layout: Layout<'_>,
    named: &NamedRecord,
    line: Option<u64>,
    json: Value,
) -> Result<String, AllocError>
    ensures { has_float (view json) ≡ false → IfOk result (λ text. string_bytes text
        ≡ shown_in layout.entry.form layout.entry.files.now named.now line (view json)) }
{
    let (files, tap, number) = (layout.files, named.tap.as_str(), named.number);
    match layout.form {
        Form::Text => whole_record_text(alloc, files, tap, number, line, &json),
        Form::Json => whole_record_json(alloc, files, tap, number, line, json),
    }
}

/// The record that is named, with its line; none where there is no such record.
fn named_text(
    taps: &[Tap],
    alloc: Global,
    layout: Layout<'_>,
    lines: &RecordLines,
    named: &NamedRecord,
) -> Result<Option<String>, AllocError>
    ensures { IfOk result (λ text. option_map (λ t. string_bytes t) text
        ≡ named_text layout.entry.form layout.entry.files.now taps.now lines.now named.now) }
{
    let Some(place) = place_named(taps, named.tap.as_str()) else {
        return Ok(None);
    };
    let number = named.number as usize;
    match value_at(alloc, &taps[place].records, number)? {
        Some(json) => {
            let line = lines.line_of(place, number);
            Ok(Some(shown_in(alloc, layout, named, line, json)?))
        }
        None => Ok(None),
    }
}

/// The records that are named, each with its line, in the order of the words. The first that isn't there is the fault.
pub(crate) fn records_output(
    taps: &[Tap],
    alloc: Global,
    layout: Layout<'_>,
    lines: &RecordLines,
    records: &[NamedRecord],
) -> Result<Output, ExplainFault>
    ensures output { IfOk result (λ output. records_output layout.entry.form
        layout.entry.files.now taps.now lines.now records.now ≡ Some output) }
    ensures fault { IfErr result (λ e. (e ≡ Unexplained Memory)
        ⊎ ((number : ℕ) × (e ≡ NoRecord number)
        × (first_lacking taps.now records.now ≡ Some number))) }
{
    let mut out = String::new(alloc);
    for (number, named) in records.iter().enumerate() {
        match named_text(taps, alloc, layout, lines, named)? {
            Some(text) => out.push_str(text.as_str())?,
            None => return Err(ExplainFault::NoRecord { number }),
        }
    }
    Ok(Output {
        status: Status::AllYes,
        text: out,
    })
}

//! A line: a tap's name, a blank, and a record in JSON.
ghost use Rattle.std.specs.Prelude.{◌≡◌, Ok, IfOk, IfErr, IsTrue, string_bytes};
ghost use Rattle.serde_json.specs.View.{view};
ghost use Rattle.serde_json.specs.Written.{compact_text};
ghost use Rattle.aud_reader.specs.Steps.{IsRefusal};
ghost use Rattle.aud_tap.specs.declared.records.Rec.{Rec};
ghost use Rattle.aud_tap.specs.TapName.{is_tap_name};
ghost use Rattle.aud_reader.specs.Record.{json_of, line_record};
ghost use Rattle.aud_tap.specs.WellFormed.{is_well_formed};
ghost use Rattle.aud_writer.specs.Written.{tap_word, version_number, header_data, record_data, line_text, written_line};
ghost use Rattle.aud_writer.specs.BytesBack.{DecodeBack, blobs_of};

use super::client::client_value;
use super::node::node_value;
use super::stream::stream_value;
use aud_reader::{InputCode, ReadFault};
use aud_tap::limits::MAX_LINE;
use aud_tap::{Rec, TapKind, Version};
use serde_json::{Value, json};
use std::alloc::{AllocError, Global};

fn tap_word(of: TapKind) -> &'static str
    ensures { result.now ≡ tap_word of }
{
    match of {
        TapKind::Stream => "stream",
        TapKind::Node => "node",
        TapKind::Client => "client",
    }
}

/// The number of a version, as a header has it.
fn version_number(v: Version) -> u64
    ensures { result ≡ version_number v }
{
    match v {
        Version::One => 1,
        Version::Two => 2,
    }
}

/// The JSON of a header.
pub fn header_value(alloc: Global, of: TapKind, v: Version) -> Result<Value, AllocError>
    ensures { IfOk result (λ value. view value ≡ header_data of v) }
{
    json!(in alloc; {"k": "tap", "of": tap_word(of), "v": version_number(v)})
}

fn record_value(alloc: Global, rec: &Rec) -> Result<Value, AllocError>
    ensures data { IfOk result (λ v. view v ≡ record_data rec.now) }
    ensures back { IfOk result (λ v. DecodeBack (blobs_of rec.now)) }
{
    match rec {
        Rec::Header { of, v } => header_value(alloc, *of, *v),
        Rec::Stream(rec) => stream_value(alloc, rec),
        Rec::Node(rec) => node_value(alloc, rec),
        Rec::Client(rec) => client_value(alloc, rec),
    }
}

fn value_json(alloc: Global, value: &Value) -> Result<String, AllocError>
    ensures text { (rec : Rec) → view value.now ≡ record_data rec
        → IfOk result (λ json. string_bytes json ≡ compact_text (record_data rec)) }
    ensures reads { (rec : Rec) → view value.now ≡ record_data rec
        → IfOk result (λ json. json_of (string_bytes json) ≡ Ok (record_data rec)) }
{
    value.to_string(alloc)
}

/// The line of a value: the tap's name, a blank, and the value's JSON.
pub fn value_line(alloc: Global, name: &str, value: &Value) -> Result<Vec<u8>, AllocError>
    ensures bytes { (rec : Rec) → view value.now ≡ record_data rec
        → IfOk result (λ line. line.items ≡ line_text name.now rec) }
    ensures reads { (rec : Rec) → view value.now ≡ record_data rec
        → IfOk result (λ line. json_of (compact_text (record_data rec)) ≡ Ok (record_data rec)) }
{
    let json = value_json(alloc, value)?;
    let mut line = Vec::new(alloc);
    line.extend_from_slice(name.as_bytes())?;
    line.push(b' ')?;
    line.extend_from_slice(json.as_bytes())?;
    Ok(line)
}

fn line_bytes(alloc: Global, name: &str, rec: &Rec) -> Result<Vec<u8>, AllocError>
    ensures bytes { IfOk result (λ line. line.items ≡ line_text name.now rec.now) }
    ensures reads { IfOk result
        (λ line. json_of (compact_text (record_data rec.now)) ≡ Ok (record_data rec.now)) }
    ensures back { IfOk result (λ line. DecodeBack (blobs_of rec.now)) }
{
    let value = record_value(alloc, rec)?;
    value_line(alloc, name, &value)
}

/// The line of a record, without a newline: the tap's name, a blank, and JSON without blanks whose
/// keys are in byte order, with empty lists left out. The name and the fields are of a bundle's forms and limits. A
/// line that would be longer than 4,194,304 bytes is refused as `LineTooLong` with the number 1; the other error is
/// `Memory`.
pub fn write_line(alloc: Global, name: &str, rec: &Rec) -> Result<Vec<u8>, ReadFault>
    requires name { IsTrue (is_tap_name name.now) }
    requires record { IsTrue (is_well_formed rec.now) }

    ensures written { IfOk result (λ line. written_line name.now rec.now ≡ Ok line.items) }
    ensures refused { IfErr result (λ e. IsRefusal 1 e (written_line name.now rec.now)) }
    ensures reads_back { IfOk result (λ line. line_record line.items ≡ Ok (name.now, rec.now)) }
{
    let line = line_bytes(alloc, name, rec)?;
    if line.len() > MAX_LINE {
        return Err(ReadFault::Input(1, InputCode::LineTooLong));
    }
    Ok(line)
}

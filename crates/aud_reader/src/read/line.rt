//! A line: a tap's name, a blank, and a record in JSON.
ghost use Rattle.std.specs.Prelude.{◌≡◌, Ok, IfOk, IfErr, IsTrue, MatchResult, string_bytes};
ghost use Rattle.serde_json.specs.Data.{Data};
ghost use Rattle.aud_json.specs.Shown.{shown};
ghost use Rattle.aud_json.specs.View.{view};
ghost use Rattle.aud_reader.specs.Steps.{Fails, IsRefusal};
ghost use Rattle.aud_tap.specs.WellFormed.{is_well_formed};
ghost use Rattle.aud_tap.specs.TapName.{is_tap_name};
ghost use Rattle.aud_reader.specs.Record.{json_of, opened_line, line_record, value_record};

use super::name::{cut_at_blank, tap_name};
use super::record::value_record;
use crate::fault::{InputCode, LineFault, ReadFault};
use crate::line::Line;
use aud_base::TextPool;
use aud_json::{Fields, FieldsFault, Scratch};
use aud_tap::Rec;
use aud_tap::limits::MAX_LINE;
use std::alloc::Global;
use std::hash::RandomState;

const LINE_TOO_LONG: LineFault = LineFault::Code(InputCode::LineTooLong);

const NO_TAP_NAME: LineFault = LineFault::Code(InputCode::NoTapName);

const NOT_JSON: LineFault = LineFault::Code(InputCode::NotJson);

/// The fields of JSON text, borrowed from it and from the scratch.
pub fn json<'a>(
    alloc: Global,
    scratch: &'a mut Scratch,
    bytes: &'a [u8],
) -> Result<Fields<'a>, LineFault>
    ensures { MatchResult result
        (λ fields. (d : Data) × (json_of bytes.now ≡ Ok d) × (shown d ≡ view fields))
        (λ e. Fails e (json_of bytes.now)) }
{
    let Ok(text) = simdutf8::compat::from_utf8(bytes) else {
        return Err(NOT_JSON);
    };
    match Fields::read(alloc, text, scratch) {
        Ok(fields) => Ok(fields),
        Err(FieldsFault::Memory) => Err(LineFault::Memory),
        Err(FieldsFault::NotJson) => Err(NOT_JSON),
    }
}

/// The tap's name and the fields of the JSON value after it, borrowed from the line and from the scratch.
#[tactic(auto, unfolding(crate::specs::Record::opened_line))]
pub fn opened_line<'a>(
    alloc: Global,
    scratch: &'a mut Scratch,
    line: &'a [u8],
) -> Result<(&'a str, Fields<'a>), LineFault>
    ensures reads { MatchResult result
        (λ p. (d : Data) × (opened_line line.now ≡ Ok (p.0.now, d)) × (shown d ≡ view p.1))
        (λ e. Fails e (opened_line line.now)) }
    ensures name { IfOk result (λ p. IsTrue (is_tap_name p.0.now)) }
{
    if line.len() > MAX_LINE {
        return Err(LINE_TOO_LONG);
    }
    let (name, text) = cut_at_blank(line).ok_or(NO_TAP_NAME)?;
    let name = tap_name(name).ok_or(NO_TAP_NAME)?;
    let d = json(alloc, scratch, text)?;
    Ok((name, d))
}

/// The name, copied, and the record of the fields after it.
fn named_record(
    alloc: Global,
    pool: &mut TextPool,
    name: &str,
    d: &Fields<'_>,
) -> Result<(String, Rec), LineFault>
    ensures reads { MatchResult result
        (λ p. (string_bytes p.0 ≡ name.now) × (value_record (view d.now) ≡ Ok p.1))
        (λ e. Fails e (value_record (view d.now))) }
    ensures record { IfOk result (λ p. IsTrue (is_well_formed p.1)) }
{
    let name = String::from_str(alloc, name)?;
    Ok((name, value_record(alloc, pool, d)?))
}

#[tactic(auto, unfolding(crate::specs::Record::line_record))]
fn parse(
    alloc: Global,
    pool: &mut TextPool,
    scratch: &mut Scratch,
    line: &[u8],
) -> Result<(String, Rec), LineFault>
    ensures reads { MatchResult result
        (λ p. line_record line.now ≡ Ok (string_bytes p.0, p.1))
        (λ e. Fails e (line_record line.now)) }
    ensures name { IfOk result (λ p. IsTrue (is_tap_name (string_bytes p.0))) }
    ensures record { IfOk result (λ p. IsTrue (is_well_formed p.1)) }
{
    let (name, d) = opened_line(alloc, scratch, line)?;
    named_record(alloc, pool, name, &d)
}

/// The tap's name and the record of a line, with the form and the fields of this line alone looked
/// at: in the order of docs/FORMAT.md, and with the kinds of any tap.
///
/// Unknown keys are passed over, and of a key that stands twice the last value counts. The refusal has the line's own
/// number. What is returned is copied; a text that stands in the line twice is copied once, and found again by its hash
/// under these keys.
pub fn parse_line(alloc: Global, keys: RandomState, line: &Line) -> Result<(String, Rec), ReadFault>
    ensures read { IfOk result (λ p. line_record line.now.bytes ≡ Ok (string_bytes p.0, p.1)) }
    ensures refused { IfErr result
        (λ e. IsRefusal line.now.number e (line_record line.now.bytes)) }

    // what `write_line` asks for
    ensures name { IfOk result (λ p. IsTrue (is_tap_name (string_bytes p.0))) }
    ensures record { IfOk result (λ p. IsTrue (is_well_formed p.1)) }
{
    let mut pool = TextPool::new(alloc, keys);
    let mut scratch = Scratch::new(alloc);
    match parse(alloc, &mut pool, &mut scratch, line.bytes.as_slice()) {
        Ok(read) => Ok(read),
        Err(LineFault::Code(code)) => Err(ReadFault::Input(line.number, code)),
        Err(LineFault::Memory) => Err(ReadFault::Memory),
    }
}

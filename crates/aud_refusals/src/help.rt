//! Help on a refused line.
ghost use Rattle.std.specs.Prelude.{◌≡◌, ◌++◌, Some, IfOk, OnOk, string_bytes};
ghost use Rattle.aud_json.specs.View.{view};
ghost use Rattle.aud_refusals.specs.Opened.{opened};
ghost use Rattle.aud_refusals.specs.Help.{help_text, value_help};

use crate::field_help::push_field_help;
use crate::json_help::push_json_help;
use crate::kind_help::{
    push_header, push_kind_help, push_offset_help, push_second_help, push_version_help,
};
use crate::limit_help::{push_at_most, push_limit_help};
use crate::opened::opened;
use crate::tap_name::push_name_help;
use aud_json::{Fields, Scratch};
use aud_reader::InputCode;
use aud_tap::limits::MAX_LINE;
use std::alloc::{AllocError, Global};

/// Puts help on the value of a line at the end.
fn push_fields_help(
    alloc: Global,
    out: &mut String,
    code: InputCode,
    header: Option<u64>,
    d: &Fields<'_>,
) -> Result<(), AllocError>
    ensures { OnOk result (string_bytes out.new
        ≡ string_bytes out.old ++ value_help code header (Some (view d.now))) }
{
    match code {
        InputCode::NoHeader => out.push_str(
            "The first line of a tap is its header: k is tap, v is 1 or 2, and of is stream, node or client.\n",
        ),
        InputCode::UnknownKind => push_kind_help(out, d, header),
        InputCode::Field => push_field_help(alloc, out, d),
        InputCode::Limit => push_limit_help(out, d),
        InputCode::SecondStream => push_second_help(out, header),
        InputCode::OffsetTwice => push_offset_help(out, d),
        InputCode::HeaderTwice => push_header(out, header),
        InputCode::Version => push_version_help(out, d),
        InputCode::LineTooLong | InputCode::NoTapName | InputCode::NotJson => Ok(()),
    }
}

/// The same of a line, where it has a tap's name and JSON.
fn push_value_help(
    alloc: Global,
    out: &mut String,
    code: InputCode,
    header: Option<u64>,
    line: &[u8],
) -> Result<(), AllocError>
    ensures { OnOk result (string_bytes out.new
        ≡ string_bytes out.old ++ value_help code header (opened line.now)) }
{
    let mut scratch = Scratch::new(alloc);
    match opened(alloc, &mut scratch, line)? {
        Some(fields) => push_fields_help(alloc, out, code, header, &fields),
        None => Ok(()),
    }
}

/// What is said of a line, beside its refusal: a sentence or two, each with its newline; or nothing, where the line is
/// not one that is refused so.
///
/// - Of a field the first that is missing, or not of its type or form, in the order in which a reader looks
///   at them; of a client's record whose fields are all good, why it may not follow those before it.
/// - Of a limit the first field that is outside its own, what it has, and the limit; or where all are within,
///   how many taps, records, entries or pids there may be.
/// - Of JSON up to which byte it is UTF-8, with what it does not begin or end, or what is wrong in between
///   ([`NoJson`](crate::NoJson)).
/// - Of a name the first byte that cannot stand in one, or how many there are.
/// - `first_header` is the line of the header that stands already: that of the line's tap, and for
///   [`SecondStream`](InputCode::SecondStream) that of the stream.
///
/// No text of the line is repeated but an offset. Bytes count from 1.
pub fn refusal_help(
    alloc: Global,
    line: &[u8],
    code: InputCode,
    first_header: Option<u64>,
) -> Result<String, AllocError>
    ensures { IfOk result (λ help. string_bytes help ≡ help_text line.now code first_header) }
{
    let mut out = String::new(alloc);
    match code {
        InputCode::LineTooLong => push_at_most(&mut out, "A line", MAX_LINE, "bytes")?,
        InputCode::NoTapName => push_name_help(&mut out, line)?,
        InputCode::NotJson => push_json_help(alloc, &mut out, line)?,
        InputCode::NoHeader
        | InputCode::UnknownKind
        | InputCode::Field
        | InputCode::Limit
        | InputCode::SecondStream
        | InputCode::OffsetTwice
        | InputCode::HeaderTwice
        | InputCode::Version => push_value_help(alloc, &mut out, code, first_header, line)?,
    }
    Ok(out)
}

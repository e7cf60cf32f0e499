//! Help on a line whose kind, header or offset does not fit in its tap.
ghost use Rattle.std.specs.Prelude.{◌≡◌, ◌++◌, OnOk, string_bytes};
ghost use Rattle.aud_json.specs.View.{view};
ghost use Rattle.aud_reader.specs.Record.{tap_of_kind};
ghost use Rattle.aud_refusals.specs.KindHelp.{header_text, kind_help, offset_help, owner_text, second_help, version_help};

use crate::member::{number_at, text_at};
use aud_json::Fields;
use aud_reader::tap_of_kind;
use aud_tap::limits::{MAX_OFFSET, fits};
use aud_tap::{TapKind, is_id};
use std::alloc::AllocError;

/// Puts the line of the tap's first header at the end, where it is known.
pub fn push_header(out: &mut String, header: Option<u64>) -> Result<(), AllocError>
    ensures { OnOk result (string_bytes out.new ≡ string_bytes out.old ++ header_text header) }
{
    match header {
        Some(line) => writeln!(out, "The header of this tap stands on line {line}."),
        None => Ok(()),
    }
}

/// The taps that have records of this kind.
fn owner_text(kind: &str) -> &'static str
    ensures { result.now ≡ owner_text kind.now (tap_of_kind kind.now) }
{
    match tap_of_kind(kind) {
        None => "No tap has records of this kind.\n",
        Some(TapKind::Stream) => "Records of this kind stand in the tap of the stream.\n",
        Some(TapKind::Node) if kind == "takes" => {
            "Records of this kind stand in the taps of nodes that are written in version 2.\n"
        }
        Some(TapKind::Node) => "Records of this kind stand in the taps of nodes.\n",
        Some(TapKind::Client) => "Records of this kind stand in the taps of clients.\n",
    }
}

/// Puts help on the value of a line whose kind is unknown at the end.
pub fn push_kind_help(
    out: &mut String,
    d: &Fields<'_>,
    header: Option<u64>,
) -> Result<(), AllocError>
    ensures { OnOk result (string_bytes out.new
        ≡ string_bytes out.old ++ kind_help (view d.now) header) }
{
    let Some(kind) = text_at("k", d) else {
        return Ok(());
    };
    if kind == "tap" {
        return out.push_str("The field of has to be stream, node or client.\n");
    }
    out.push_str(owner_text(kind))?;
    push_header(out, header)
}

/// Puts help on a header of another version at the end.
pub fn push_version_help(out: &mut String, d: &Fields<'_>) -> Result<(), AllocError>
    ensures { OnOk result (string_bytes out.new
        ≡ string_bytes out.old ++ version_help (view d.now)) }
{
    match number_at("v", d) {
        Some(v) => writeln!(out, "The field v is {v}; the versions 1 and 2 are read."),
        None => Ok(()),
    }
}

/// Puts help on an entry whose offset an earlier one has at the end.
pub fn push_offset_help(out: &mut String, d: &Fields<'_>) -> Result<(), AllocError>
    ensures { OnOk result (string_bytes out.new
        ≡ string_bytes out.old ++ offset_help (view d.now)) }
{
    let Some(off) = text_at("off", d) else {
        return Ok(());
    };
    if is_id(off) && fits(MAX_OFFSET, off) {
        return writeln!(out, "An earlier entry of the stream has the offset {off}.");
    }
    Ok(())
}

/// Puts help on the header of a second stream at the end.
pub fn push_second_help(out: &mut String, header: Option<u64>) -> Result<(), AllocError>
    ensures { OnOk result (string_bytes out.new ≡ string_bytes out.old ++ second_help header) }
{
    match header {
        Some(line) => writeln!(
            out,
            "A bundle may have one stream: its header stands on line {line}."
        ),
        None => out.push_str("A bundle may have one stream.\n"),
    }
}

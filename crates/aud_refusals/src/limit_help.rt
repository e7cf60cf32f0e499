//! Help on a line of which a length, a number or a count is outside its limits.
ghost use Rattle.std.specs.Prelude.{◌≡◌, ◌++◌, OnOk, string_bytes};
ghost use Rattle.aud_json.specs.View.{view};
ghost use Rattle.aud_refusals.specs.LimitHelp.{at_most_text, count_text, excess_text, limit_help, node_text, records_text, taps_text};

use crate::excess::{Excess, first_excess};
use crate::member::text_at;
use crate::members::members_of;
use aud_json::Fields;
use aud_reader::{
    MAX_CLIENT_TAPS, MAX_ENTRIES, MAX_NODE_TAPS, MAX_PIDS, MAX_RECORDS, tap_kind, tap_of_kind,
};
use aud_tap::TapKind;
use std::alloc::AllocError;

fn push_excess(out: &mut String, excess: Excess) -> Result<(), AllocError>
    ensures { OnOk result (string_bytes out.new ≡ string_bytes out.old ++ excess_text excess) }
{
    match excess {
        Excess::Length {
            member,
            length,
            most,
        } => {
            let key = member.key();
            writeln!(
                out,
                "The field {key} has {length} bytes; it may have 1 to {most}."
            )
        }
        Excess::Count {
            member,
            count,
            most,
        } => {
            let key = member.key();
            writeln!(
                out,
                "The field {key} has {count} items; it may have at most {most}."
            )
        }
        Excess::Item {
            member,
            place,
            length,
            most,
        } => {
            let key = member.key();
            writeln!(
                out,
                "Item {place} of the field {key} has {length} bytes; it may have 1 to {most}."
            )
        }
        Excess::Number {
            member,
            number,
            most,
        } => {
            let key = member.key();
            writeln!(
                out,
                "The field {key} is {number}; it may be at most {most}."
            )
        }
    }
}

/// Puts how many parts a whole may have at the end.
pub fn push_at_most(
    out: &mut String,
    whole: &str,
    most: usize,
    parts: &str,
) -> Result<(), AllocError>
    ensures { OnOk result (string_bytes out.new
        ≡ string_bytes out.old ++ at_most_text whole.now most parts.now) }
{
    writeln!(out, "{whole} may have at most {most} {parts}.")
}

fn push_taps(out: &mut String, of: Option<TapKind>) -> Result<(), AllocError>
    ensures { OnOk result (string_bytes out.new ≡ string_bytes out.old ++ taps_text of) }
{
    match of {
        Some(TapKind::Node) => push_at_most(out, "A bundle", MAX_NODE_TAPS, "taps of nodes"),
        Some(TapKind::Client) => push_at_most(out, "A bundle", MAX_CLIENT_TAPS, "taps of clients"),
        Some(TapKind::Stream) | None => Ok(()),
    }
}

fn push_node(out: &mut String, records: usize, pids: usize) -> Result<(), AllocError>
    ensures { OnOk result (string_bytes out.new ≡ string_bytes out.old ++ node_text records pids) }
{
    push_at_most(out, "A tap", records, "records")?;
    push_at_most(out, "The taps of nodes", pids, "different pids")
}

fn push_records(out: &mut String, of: Option<TapKind>) -> Result<(), AllocError>
    ensures { OnOk result (string_bytes out.new ≡ string_bytes out.old ++ records_text of) }
{
    match of {
        Some(TapKind::Stream) => push_at_most(out, "A stream", MAX_ENTRIES, "entries"),
        Some(TapKind::Node) => push_node(out, MAX_RECORDS, MAX_PIDS),
        Some(TapKind::Client) => push_at_most(out, "A tap", MAX_RECORDS, "records"),
        None => Ok(()),
    }
}

fn push_count(out: &mut String, kind: &str, d: &Fields<'_>) -> Result<(), AllocError>
    ensures { OnOk result (string_bytes out.new
        ≡ string_bytes out.old ++ count_text kind.now (view d.now)) }
{
    if kind == "tap" {
        let of = match text_at("of", d) {
            Some(of) => tap_kind(of),
            None => None,
        };
        push_taps(out, of)
    } else {
        push_records(out, tap_of_kind(kind))
    }
}

/// Puts help on the value of a line of which a length, a number or a count is outside its limits at the end.
pub fn push_limit_help(out: &mut String, d: &Fields<'_>) -> Result<(), AllocError>
    ensures { OnOk result (string_bytes out.new ≡ string_bytes out.old ++ limit_help (view d.now)) }
{
    let Some(kind) = text_at("k", d) else {
        return Ok(());
    };
    match first_excess(members_of(kind), d) {
        Some(excess) => push_excess(out, excess),
        None => push_count(out, kind, d),
    }
}

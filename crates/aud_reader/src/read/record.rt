//! The record of a JSON value, by its kind.
ghost use Rattle.std.specs.Prelude.{◌≡◌, Ok, IfOk, IsTrue, MatchResult};
ghost use Rattle.aud_json.specs.View.{view};
ghost use Rattle.aud_reader.specs.Steps.{Gives, Fails};
ghost use Rattle.aud_tap.specs.WellFormed.{is_well_formed};
ghost use Rattle.aud_reader.specs.Record.{client_kinds, is_one_of, node_kinds, stream_kinds};
ghost use Rattle.aud_reader.specs.Record.{kind_named, tap_of_kind, record_in, record_of, value_record};

use super::client::client_record;
use super::fields::text_at;
use super::header::tap_header;
use super::node::node_record;
use super::stream::stream_record;
use crate::fault::{LineFault, UNKNOWN_KIND};
use aud_base::TextPool;
use aud_json::Fields;
use aud_tap::{Rec, TapKind};
use std::alloc::Global;

fn is_stream_kind(kind: &str) -> bool
    ensures { result ≡ is_one_of stream_kinds kind.now }
{
    matches!(kind, "ev" | "other")
}

fn is_node_kind(kind: &str) -> bool
    ensures { result ≡ is_one_of node_kinds kind.now }
{
    matches!(
        kind,
        "start" | "take" | "takes" | "open" | "join" | "leave" | "break" | "back" | "gone"
    )
}

/// Whether a client's tap may have records of this kind.
pub fn is_client_kind(kind: &str) -> bool
    ensures { result ≡ is_one_of client_kinds kind.now }
{
    matches!(kind, "conn" | "in" | "inb" | "poll" | "out" | "lost")
}

/// The kind of tap that has records of this kind.
pub fn tap_of_kind(kind: &str) -> Option<TapKind>
    ensures { result ≡ tap_of_kind kind.now }
{
    if is_stream_kind(kind) {
        return Some(TapKind::Stream);
    }
    if is_node_kind(kind) {
        return Some(TapKind::Node);
    }
    if is_client_kind(kind) {
        return Some(TapKind::Client);
    }
    None
}

/// The record of this kind in a tap that was put on `of`.
#[tactic(auto, unfolding(crate::specs::Record::record_in))]
fn record_in(
    alloc: Global,
    pool: &mut TextPool,
    of: TapKind,
    kind: &str,
    d: &Fields<'_>,
) -> Result<Rec, LineFault>
    ensures reads { Gives result (record_in of kind.now (view d.now)) }
    ensures formed { IfOk result (λ rec. IsTrue (is_well_formed rec)) }
{
    match of {
        TapKind::Stream => Ok(Rec::Stream(stream_record(alloc, pool, kind, d)?)),
        TapKind::Node => Ok(Rec::Node(node_record(pool, kind, d)?)),
        TapKind::Client => Ok(Rec::Client(client_record(alloc, pool, kind, d)?)),
    }
}

/// A header, or the record of this kind in whichever tap has it.
#[tactic(auto, unfolding(crate::specs::Record::record_of))]
fn record(alloc: Global, pool: &mut TextPool, kind: &str, d: &Fields<'_>) -> Result<Rec, LineFault>
    ensures reads { Gives result (record_of kind.now (view d.now)) }
    ensures formed { IfOk result (λ rec. IsTrue (is_well_formed rec)) }
{
    if kind == "tap" {
        let (of, v) = tap_header(d)?;
        return Ok(Rec::Header { of, v });
    }
    let of = tap_of_kind(kind).ok_or(UNKNOWN_KIND)?;
    record_in(alloc, pool, of, kind, d)
}

/// What an object says that it is.
pub fn kind_of<'a>(d: &Fields<'a>) -> Result<&'a str, LineFault>
    ensures { MatchResult result
        (λ k. kind_named (view d.now) ≡ Ok k.now)
        (λ e. Fails e (kind_named (view d.now))) }
{
    text_at("k", d)
}

/// The record of a value, by what it says that it is.
#[tactic(auto, unfolding(crate::specs::Record::value_record))]
pub fn value_record(alloc: Global, pool: &mut TextPool, d: &Fields<'_>) -> Result<Rec, LineFault>
    ensures reads { Gives result (value_record (view d.now)) }
    ensures formed { IfOk result (λ rec. IsTrue (is_well_formed rec)) }
{
    let kind = kind_of(d)?;
    record(alloc, pool, kind, d)
}

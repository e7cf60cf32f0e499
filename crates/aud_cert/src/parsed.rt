//! What the text of a certificate tells, before it is looked up in the logs.
ghost use Rattle.std.specs.Prelude.{◌≡◌, IfOk};
ghost use Rattle.serde_json.specs.View.{view, items_view};
ghost use Rattle.aud_tap.specs.Json.{text_at};
ghost use Rattle.aud_cert.specs.declared.text_fault.CertFault.TheVariants.{Syntax};
ghost use Rattle.std.specs.Cow.{cow_str_bytes};
ghost use Rattle.aud_cert.specs.Steps.{need, Gives};
ghost use Rattle.aud_cert.specs.Parsed.{text_in, number_in, nothing_in, parsed_span, parsed_turn, each_item, items_at, parsed_certificate};

use crate::text_fault::CertFault;
use aud_rooms::Span;
use serde_json::Value;
use std::alloc::{AllocError, Global};
use std::borrow::CowStr;
use std::marker::Model;

/// A turn without its records. The name is borrowed from the JSON.
#[derive(Drop)]
pub struct ParsedTurn<'v> {
    pub node: &'v str,
    pub from: u64,
    pub to: u64,
    pub low: u64,
    pub high: u64,
}

impl<'v> Model for ParsedTurn<'v> {
    ghost use Rattle.aud_cert.specs.Parsed.{ParsedTurn};

    ghost Value = { ParsedTurn };

    ghost view = { λ t. record { node = t.node.now; from = t.from; to = t.to; low = t.low; high = t.high } };
}

/// A certificate without the records of its turns. The names are borrowed from the JSON.
#[derive(Drop)]
pub struct ParsedCertificate<'v, 'a> {
    pub pid: &'v str,
    pub client: &'v str,
    pub turns: Vec<ParsedTurn<'v>>,
    pub spans: Vec<Span<'a>>,
}

impl<'v, 'a> Model for ParsedCertificate<'v, 'a> {
    ghost use Rattle.aud_cert.specs.Parsed.{ParsedCertificate};

    ghost Value = { ParsedCertificate };

    ghost view = { λ t. record { pid = t.pid.now; client = t.client.now; turns = t.turns.items; spans = t.spans.items } };
}

fn text_in(place: usize, d: &Value) -> Result<&str, CertFault>
    ensures { Gives (λ s. s.now) result (text_in place (view d.now)) }
{
    d.get(place)
        .and_then(Value::as_str)
        .ok_or(CertFault::Syntax)
}

fn number_in(place: usize, d: &Value) -> Result<u64, CertFault>
    ensures { Gives (λ n. n) result (number_in place (view d.now)) }
{
    d.get(place)
        .and_then(Value::as_u64)
        .ok_or(CertFault::Syntax)
}

fn nothing_in(place: usize, d: &Value) -> Result<(), CertFault>
    ensures { Gives (λ none. none) result (nothing_in place (view d.now)) }
{
    match d.get(place) {
        Some(_) => Err(CertFault::Syntax),
        None => Ok(()),
    }
}

/// A copy of a text.
fn copied<'a>(alloc: Global, text: &str) -> Result<CowStr<'a>, AllocError>
    ensures { IfOk result (λ copy. cow_str_bytes copy ≡ text.now) }
{
    Ok(CowStr::Owned(String::from_str(alloc, text)?))
}

/// The room is copied.
#[tactic(auto, unfolding(crate::specs::Parsed::parsed_span))]
fn span<'a>(alloc: Global, d: &Value) -> Result<Span<'a>, CertFault>
    ensures { Gives (λ span. span) result (parsed_span (view d.now)) }
{
    let room = text_in(0, d)?;
    let first = number_in(1, d)?;
    let last = number_in(2, d)?;
    nothing_in(3, d)?;
    let room = copied(alloc, room)?;
    Ok(Span { room, first, last })
}

#[tactic(auto, unfolding(crate::specs::Parsed::parsed_turn))]
fn turn<'v>(d: &'v Value) -> Result<ParsedTurn<'v>, CertFault>
    ensures { Gives (λ turn. turn) result (parsed_turn (view d.now)) }
{
    let node = text_in(0, d)?;
    let from = number_in(1, d)?;
    let to = number_in(2, d)?;
    let low = number_in(3, d)?;
    let high = number_in(4, d)?;
    nothing_in(5, d)?;
    Ok(ParsedTurn {
        node,
        from,
        to,
        low,
        high,
    })
}

fn items_at<'v>(key: &str, d: &'v Value) -> Result<&'v [Value], CertFault>
    ensures { Gives (λ vs. items_view vs.now) result (items_at key.now (view d.now)) }
{
    let Some(list) = d.get(key).and_then(Value::as_array) else {
        return Err(CertFault::Syntax);
    };
    Ok(list.as_slice())
}

fn text_at<'v>(key: &str, d: &'v Value) -> Result<&'v str, CertFault>
    ensures { Gives (λ s. s.now) result (need Syntax (text_at key.now (view d.now))) }
{
    d.get(key).and_then(Value::as_str).ok_or(CertFault::Syntax)
}

fn spans<'a>(alloc: Global, items: &[Value]) -> Result<Vec<Span<'a>>, CertFault>
    ensures { Gives (λ spans. spans.items) result (each_item parsed_span (items_view items.now)) }
{
    let mut spans = Vec::new(alloc);
    for d in items {
        let span = span(alloc, d)?;
        spans.push(span)?;
    }
    Ok(spans)
}

fn turns<'v>(alloc: Global, items: &'v [Value]) -> Result<Vec<ParsedTurn<'v>>, CertFault>
    ensures { Gives (λ turns. turns.items) result (each_item parsed_turn (items_view items.now)) }
{
    let mut turns = Vec::new(alloc);
    for d in items {
        let turn = turn(d)?;
        turns.push(turn)?;
    }
    Ok(turns)
}

/// What the JSON tells; unknown keys are passed over.
#[tactic(auto, unfolding(crate::specs::Parsed::parsed_certificate))]
pub fn parsed<'v, 'a>(alloc: Global, d: &'v Value) -> Result<ParsedCertificate<'v, 'a>, CertFault>
    ensures { Gives (λ parsed. parsed) result (parsed_certificate (view d.now)) }
{
    let client = text_at("client", d)?;
    let pid = text_at("pid", d)?;
    let items = items_at("spans", d)?;
    let spans = spans(alloc, items)?;
    let items = items_at("turns", d)?;
    let turns = turns(alloc, items)?;
    Ok(ParsedCertificate {
        pid,
        client,
        turns,
        spans,
    })
}

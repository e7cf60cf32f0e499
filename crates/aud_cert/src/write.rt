//! The text of a certificate.
ghost use Rattle.std.specs.Prelude.{◌≡◌, Ok, IfOk, string_bytes};
ghost use Rattle.serde_json.specs.View.{view, items_view};
ghost use Rattle.aud_node.specs.Cluster.{Cluster};
ghost use Rattle.aud_cert.specs.Reading.{certificate_of};
ghost use Rattle.aud_cert.specs.Sound.{IsSound};
ghost use Rattle.aud_cert.specs.Text.{items, row_data, span_data, turn_data, certificate_data, certificate_text};

use crate::certificate::{Certificate, Turn};
use aud_rooms::Span;
use serde_json::{Value, json};
use std::alloc::{AllocError, Global};

/// `[name,..]`: the name, and then the numbers.
fn row_value(alloc: Global, name: &str, numbers: &[u64]) -> Result<Value, AllocError>
    ensures { IfOk result (λ v. view v ≡ row_data name.now numbers.now) }
{
    let mut items = Vec::new(alloc);
    items.push(Value::try_from_str(alloc, name)?)?;
    for number in numbers {
        items.push(Value::from(*number))?;
    }
    Ok(Value::Array(items))
}

/// `[room,first,last]`.
fn span_value(alloc: Global, span: &Span<'_>) -> Result<Value, AllocError>
    ensures { IfOk result (λ v. view v ≡ span_data span.now) }
{
    row_value(alloc, span.room.as_str(), &[span.first, span.last])
}

/// `[node,from,to,low,high]`.
fn turn_value(alloc: Global, turn: &Turn<'_>) -> Result<Value, AllocError>
    ensures { IfOk result (λ v. view v ≡ turn_data turn.now) }
{
    row_value(alloc, turn.node, &[turn.from, turn.to, turn.low, turn.high])
}

fn span_values(alloc: Global, spans: &[Span<'_>]) -> Result<Vec<Value>, AllocError>
    ensures { IfOk result (λ vs. items_view vs.items ≡ items span_data spans.now) }
{
    let mut values = Vec::new(alloc);
    for span in spans {
        values.push(span_value(alloc, span)?)?;
    }
    Ok(values)
}

fn turn_values(alloc: Global, turns: &[Turn<'_>]) -> Result<Vec<Value>, AllocError>
    ensures { IfOk result (λ vs. items_view vs.items ≡ items turn_data turns.now) }
{
    let mut values = Vec::new(alloc);
    for turn in turns {
        values.push(turn_value(alloc, turn)?)?;
    }
    Ok(values)
}

fn certificate_value(alloc: Global, cert: &Certificate<'_>) -> Result<Value, AllocError>
    ensures { IfOk result (λ v. view v ≡ certificate_data cert.now) }
{
    let pid = cert.pid.as_str();
    let spans = cert.spans.as_slice();
    let turns = cert.turns.as_slice();
    json!(in alloc; {"client": cert.client, "pid": pid, "spans": span_values(alloc, spans)?, "turns": turn_values(alloc, turns)?})
}

/// The text of a certificate: one line of JSON without blanks and without a newline, its keys in byte order. Its
/// records are not written.
pub fn write_cert(alloc: Global, cert: &Certificate<'_>) -> Result<String, AllocError>
    ensures written { IfOk result (λ text. string_bytes text ≡ certificate_text cert.now) }
    ensures reads_back { IfOk result (λ text. (c : Cluster) → IsSound c cert.now
        → certificate_of c (string_bytes text) ≡ Ok cert.now) }
{
    let value = certificate_value(alloc, cert)?;
    value.to_string(alloc)
}

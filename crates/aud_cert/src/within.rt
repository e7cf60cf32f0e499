//! Whether the numbers of a certificate are within the logs.
ghost use Rattle.std.specs.Prelude.{◌≡◌, length};
ghost use Rattle.std.specs.List.{list_all};
ghost use Rattle.aud_cert.specs.Certificate.{log_named};
ghost use Rattle.aud_cert.specs.Reading.{is_turn_within, is_span_within, is_certificate_within};

use crate::certificate::{Certificate, Turn};
use crate::lend::node_named;
use aud_node::Logs;
use aud_rooms::Span;

/// How many entries the stream has.
fn stream_len(logs: &Logs<'_>) -> u64
    ensures { result ≡ length logs.now.stream }
{
    logs.stream().entries().len() as u64
}

/// How many records the log of the node with this name has.
fn log_len(logs: &Logs<'_>, name: &str) -> u64
    ensures { result ≡ length (log_named logs.now name.now) }
{
    match node_named(logs, name) {
        Some(node) => node.recs.len() as u64,
        None => 0,
    }
}

fn is_turn_within(logs: &Logs<'_>, turn: &Turn<'_>) -> bool
    ensures { result ≡ is_turn_within logs.now turn.now }
{
    if turn.from >= turn.to || turn.to > log_len(logs, turn.node) {
        return false;
    }
    turn.low <= turn.high && turn.high <= stream_len(logs)
}

fn is_span_within(logs: &Logs<'_>, span: &Span<'_>) -> bool
    ensures { result ≡ is_span_within logs.now span.now }
{
    if span.first == 0 || span.first > span.last {
        return false;
    }
    span.last <= stream_len(logs)
}

fn are_turns_within(logs: &Logs<'_>, turns: &[Turn<'_>]) -> bool
    ensures { result ≡ list_all (is_turn_within logs.now) turns.now }
{
    for turn in turns {
        if !is_turn_within(logs, turn) {
            return false;
        }
    }
    true
}

fn are_spans_within(logs: &Logs<'_>, spans: &[Span<'_>]) -> bool
    ensures { result ≡ list_all (is_span_within logs.now) spans.now }
{
    for span in spans {
        if !is_span_within(logs, span) {
            return false;
        }
    }
    true
}

/// No record is past its log's end, no position past the stream's, and each turn and each span has some.
pub fn is_within(logs: &Logs<'_>, cert: &Certificate<'_>) -> bool
    ensures { result ≡ is_certificate_within logs.now cert.now }
{
    if !are_turns_within(logs, cert.turns.as_slice()) {
        return false;
    }
    are_spans_within(logs, cert.spans.as_slice())
}

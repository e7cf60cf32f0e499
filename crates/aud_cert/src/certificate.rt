//! Certificates.
use aud_node::Recs;
use aud_rooms::Span;
use std::marker::Model;

/// A session's turn on a node: consecutive records of the node's log, borrowed, and the node's cursor after the first
/// and after the last of them.
#[derive(Drop)]
pub struct Turn<'a> {
    /// The name of the node's tap.
    pub node: &'a str,
    /// The number of the first record. Numbers count from 0.
    pub from: u64,
    /// The number after the last record's.
    pub to: u64,
    /// The last position that the node had taken after the first record, 0 before any.
    pub low: u64,
    /// The last position that the node had taken after the last record.
    pub high: u64,
    /// The records, borrowed for as long as the logs.
    pub recs: Recs<'a>,
}

impl<'a> Model for Turn<'a> {
    ghost use Rattle.aud_cert.specs.Certificate.{TurnSeen};

    ghost Value = { TurnSeen };

    ghost view = { λ t. record { node = t.node.now; from = t.from; to = t.to; low = t.low; high = t.high; recs = t.recs } };
}

/// What shows that a session received what was due to it: the client's tap, the turns in which the session was on a
/// node, from its `open` on, and which rooms it held at which positions. It borrows the logs.
#[derive(Drop)]
pub struct Certificate<'a> {
    /// The session.
    pub pid: String,
    /// The name of the client's tap.
    pub client: &'a str,
    /// The turns, from turn 0 on.
    pub turns: Vec<Turn<'a>>,
    /// The spans of the rooms, by the bytes of the room and then by the first position.
    pub spans: Vec<Span<'a>>,
}

impl<'a> Model for Certificate<'a> {
    ghost use Rattle.std.specs.Prelude.{string_bytes};
    ghost use Rattle.aud_cert.specs.Certificate.{CertificateSeen};

    ghost Value = { CertificateSeen };

    ghost view = { λ c. record { pid = string_bytes c.pid; client = c.client.now; turns = c.turns.items; spans = c.spans.items } };
}

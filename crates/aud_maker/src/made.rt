//! The certificate of a chain of turns.
ghost use Rattle.std.specs.Prelude.{◌≡◌, IfOk, map};
ghost use Rattle.std.specs.List.{All};
ghost use Rattle.aud_rooms.specs.TurnPlaces.{IsWithin, IsInOrder};
ghost use Rattle.aud_maker.specs.Made.{turn_seen, IsCertificateOf};

use crate::chain::Chain;
use crate::client::tap_name;
use aud_cert::{Certificate, Turn};
use aud_node::Logs;
use aud_rooms::{TurnPlace, spans_of_turns};
use std::alloc::{AllocError, Global};

/// The certificate of these turns.
pub(crate) fn certificate_of<'a>(
    alloc: Global,
    logs: &Logs<'a>,
    pid: &str,
    chain: &Chain<'a>,
    client: &'a str,
) -> Result<Certificate<'a>, AllocError>
    requires { All (IsInOrder logs.now) chain.now.turns.items }
    ensures { IfOk result (λ cert.
        IsCertificateOf logs.now pid.now chain.now.sid.now client.now chain.now.turns.items cert) }
{
    let turns = turns_seen(alloc, logs, &chain.turns)?;
    let spans = spans_of_turns(alloc, logs, pid, chain.sid, &chain.turns)?;
    Ok(Certificate {
        pid: String::from_str(alloc, pid)?,
        client,
        turns,
        spans,
    })
}

/// The turns with their nodes' names, their cursors and their records.
fn turns_seen<'a>(
    alloc: Global,
    logs: &Logs<'a>,
    turns: &[TurnPlace],
) -> Result<Vec<Turn<'a>>, AllocError>
    requires { All (IsInOrder logs.now) turns.now }
    ensures { IfOk result (λ seen. seen.items ≡ map (turn_seen logs.now) turns.now) }
{
    let mut seen = Vec::new(alloc);
    for turn in turns {
        seen.push(turn_seen(logs, turn))?;
    }
    Ok(seen)
}

/// The turn with its node's name, its cursors and its records.
fn turn_seen<'a>(logs: &Logs<'a>, turn: &TurnPlace) -> Turn<'a>
    requires { IsWithin logs.now turn.now }
    ensures { result ≡ turn_seen logs.now turn.now }
{
    let Some(log) = logs.node(turn.node) else {
        unreachable!()
    };
    Turn {
        node: tap_name(logs, turn.node),
        from: turn.from as u64,
        to: turn.to as u64,
        low: turn.low(logs),
        high: turn.high(logs),
        recs: log.recs().between(turn.from, turn.to),
    }
}

//! Names of taps, looked up in the logs, and what is borrowed from there.
ghost use Rattle.std.specs.Prelude.{◌≡◌, IfSome, is_some};
ghost use Rattle.aud_cert.specs.Steps.{Gives, each};
ghost use Rattle.aud_cert.specs.Certificate.{log_named};
ghost use Rattle.aud_cert.specs.Reading.{is_node, is_client, turn_over, certificate_over};

use crate::certificate::{Certificate, Turn};
use crate::parsed::{ParsedCertificate, ParsedTurn};
use crate::text_fault::CertFault;
use aud_node::{Logs, Recs};
use std::alloc::Global;

/// A node's tap: its name and its records.
#[derive(Drop)]
pub struct NodeNamed<'a> {
    pub name: &'a str,
    pub recs: Recs<'a>,
}

/// The node's tap with this name.
pub fn node_named<'a>(logs: &'a Logs<'_>, name: &str) -> Option<NodeNamed<'a>>
    ensures known { is_some result ≡ is_node logs.now name.now }
    ensures name { IfSome result (λ n. n.name.now ≡ name.now) }
    ensures recs { IfSome result (λ n. n.recs ≡ log_named logs.now name.now) }
{
    let place = logs.place_of(name)?;
    let log = logs.node(place)?;
    let tap = logs.taps().get(place)?;
    Some(NodeNamed {
        name: tap.name.as_str(),
        recs: log.recs(),
    })
}

/// The name, borrowed from the logs, if the tap with it is a client's.
fn client_named<'a>(logs: &'a Logs<'_>, name: &str) -> Option<&'a str>
    ensures known { is_some result ≡ is_client logs.now name.now }
    ensures name { IfSome result (λ s. s.now ≡ name.now) }
{
    let place = logs.place_of(name)?;
    logs.client(place)?;
    let tap = logs.taps().get(place)?;
    Some(tap.name.as_str())
}

/// The turn with its records.
#[tactic(auto, unfolding(crate::specs::Reading::turn_over))]
fn turn<'a>(logs: &'a Logs<'_>, parsed: &ParsedTurn<'_>) -> Result<Turn<'a>, CertFault>
    ensures { Gives (λ turn. turn) result (turn_over logs.now parsed.now) }
{
    let node = node_named(logs, parsed.node).ok_or(CertFault::UnknownTap)?;
    Ok(Turn {
        node: node.name,
        from: parsed.from,
        to: parsed.to,
        low: parsed.low,
        high: parsed.high,
        recs: node.recs.between(parsed.from as usize, parsed.to as usize),
    })
}

fn turns<'a>(
    alloc: Global,
    logs: &'a Logs<'_>,
    parsed: &[ParsedTurn<'_>],
) -> Result<Vec<Turn<'a>>, CertFault>
    ensures { Gives (λ turns. turns.items) result (each (turn_over logs.now) parsed.now) }
{
    let mut turns = Vec::new(alloc);
    for parsed in parsed {
        let turn = turn(logs, parsed)?;
        turns.push(turn)?;
    }
    Ok(turns)
}

/// The certificate with its records, borrowed from the logs.
#[tactic(auto, unfolding(crate::specs::Reading::certificate_over))]
pub fn certificate<'a>(
    alloc: Global,
    logs: &'a Logs<'_>,
    parsed: ParsedCertificate<'_, 'a>,
) -> Result<Certificate<'a>, CertFault>
    ensures { Gives (λ cert. cert) result (certificate_over logs.now parsed.entry) }
{
    let client = client_named(logs, parsed.client).ok_or(CertFault::UnknownTap)?;
    let turns = turns(alloc, logs, parsed.turns.as_slice())?;
    let pid = String::from_str(alloc, parsed.pid)?;
    Ok(Certificate {
        pid,
        client,
        turns,
        spans: parsed.spans,
    })
}

//! Where the turns of a certificate stand in the logs.
ghost use Rattle.std.specs.Prelude.{◌≡◌, IfOk, MatchOption, [], map};
ghost use Rattle.aud_node.specs.Cluster.{node_log};
ghost use Rattle.aud_cert.specs.Certificate.{turn_at};

use aud_cert::{Turn, turn_place};
use aud_node::{Logs, Recs};
use aud_rooms::TurnPlace;
use std::alloc::{AllocError, Global};

/// Where the turns stand, turn after turn.
pub(crate) fn places_of(
    alloc: Global,
    logs: &Logs<'_>,
    turns: &[Turn<'_>],
) -> Result<Vec<TurnPlace>, AllocError>
    ensures { IfOk result (λ places. places.items ≡ map (turn_at logs.now) turns.now) }
{
    let mut places = Vec::new(alloc);
    for turn in turns {
        places.push(turn_place(logs, turn))?;
    }
    Ok(places)
}

/// The records of the node whose tap is at this place, borrowed from the logs; none where that tap is no node's.
pub(crate) fn records_at<'a>(logs: &Logs<'a>, node: usize) -> Option<Recs<'a>>
    ensures { MatchOption result (node_log logs.now node ≡ []) (λ recs. recs
        ≡ node_log logs.now node) }
{
    match logs.node(node) {
        Some(log) => Some(log.recs()),
        None => None,
    }
}

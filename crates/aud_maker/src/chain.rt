//! The turns of a session.
ghost use Rattle.std.specs.Prelude.{◌≡◌, IfOk, MatchOption, None, Some};
ghost use Rattle.aud_rooms.specs.Turns.{IsChain};
ghost use Rattle.aud_node.specs.OwnPlaces.{own_places};
ghost use Rattle.aud_maker.specs.Chain.{HasNoChain};
ghost use Rattle.aud_maker.specs.Opening.{opening_of};

use crate::begun::begun_turns;
use crate::ended::are_turns_ended;
use crate::swept::are_swept;
use aud_node::Logs;
use aud_rooms::TurnPlace;
use aud_tap::NodeRec;
use std::alloc::{AllocError, Global};

/// All turns of a session, and the sid and the namespace of its `open`, borrowed from the logs.
#[derive(Drop)]
pub(crate) struct Chain<'a> {
    pub sid: &'a str,
    pub nsp: &'a str,
    pub turns: Vec<TurnPlace>,
}

/// The turns of the session; none where its records in all node logs aren't the turns 0 to m, each once in one log,
/// each but the last ended by its break, and nothing outside. The nodes are those where it was.
pub(crate) fn chain_of<'a>(
    alloc: Global,
    logs: &Logs<'a>,
    nodes: &[usize],
    pid: &str,
) -> Result<Option<Chain<'a>>, AllocError>
    requires { nodes.now ≡ own_places logs.now pid.now }
    ensures { IfOk result (λ found. MatchOption found (HasNoChain logs.now pid.now)
        (λ chain. IsChain logs.now
        (record { pid = pid.now; sid = chain.sid.now; nsp = chain.nsp.now }) chain.turns.items)) }
{
    let turns = begun_turns(alloc, logs, nodes, pid)?;
    let Some(opening) = first_opening(logs, &turns) else {
        return Ok(None);
    };
    if !are_turns_ended(logs, pid, &turns) {
        return Ok(None);
    }
    if !are_swept(logs, nodes, pid, &turns) {
        return Ok(None);
    }
    Ok(Some(Chain {
        sid: opening.sid,
        nsp: opening.nsp,
        turns,
    }))
}

/// What an `open` names.
#[derive(Clone, Copy)]
struct Opening<'a> {
    sid: &'a str,
    nsp: &'a str,
}

/// What the first turn's first record names.
fn first_opening<'a>(logs: &Logs<'a>, turns: &[TurnPlace]) -> Option<Opening<'a>>
    ensures { MatchOption result (opening_of logs.now turns.now ≡ None)
        (λ o. opening_of logs.now turns.now ≡ Some (o.sid.now, o.nsp.now)) }
{
    let Some(turn) = turns.first() else {
        return None;
    };
    let Some(log) = logs.node(turn.node) else {
        return None;
    };
    match log.recs().get(turn.from) {
        Some(NodeRec::Opened { sid, nsp, .. }) => Some(Opening {
            sid: sid.as_str(),
            nsp: nsp.as_str(),
        }),
        _ => None,
    }
}

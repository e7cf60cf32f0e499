//! The records of a node tap.
ghost use Rattle.std.specs.Prelude.{◌≡◌, ◌&&◌, nat_le, IfOk, IsTrue};
ghost use Rattle.aud_json.specs.View.{view};
ghost use Rattle.aud_tap.specs.Limits.{max_turn};
ghost use Rattle.aud_tap.specs.WellFormed.{is_session_id, is_room, node_is_well_formed};
ghost use Rattle.aud_reader.specs.Steps.{Gives};
ghost use Rattle.aud_reader.specs.NodeRecord.{start_of, open_of, member_of, pid_and_turn, is_in_version, node_record_of};

use super::fields::{
    bounded_id_at, id_at, id_or_null_at, namespace_at, number_at, shared, text_at,
};
use crate::fault::{FIELD, LIMIT, LineFault, UNKNOWN_KIND};
use aud_base::TextPool;
use aud_json::Fields;
use aud_tap::limits::{MAX_ID, MAX_NAMESPACE, MAX_OFFSET, MAX_ROOM, fits};
use aud_tap::{NodeRec, Text, Version};

#[tactic(auto, unfolding(crate::specs::NodeRecord::start_of))]
fn start(pool: &mut TextPool, d: &Fields<'_>) -> Result<NodeRec, LineFault>
    ensures reads { Gives result (start_of (view d.now)) }
    ensures formed { IfOk result (λ rec. IsTrue (node_is_well_formed rec)) }
{
    let off = id_or_null_at("off", d).ok_or(FIELD)?;
    let Some(off) = off else {
        return Ok(NodeRec::Start { off: None });
    };
    if !fits(MAX_OFFSET, off) {
        return Err(LIMIT);
    }
    Ok(NodeRec::Start {
        off: Some(pool.text(off)?),
    })
}

#[tactic(auto, unfolding(crate::specs::NodeRecord::open_of))]
fn open(pool: &mut TextPool, d: &Fields<'_>) -> Result<NodeRec, LineFault>
    ensures reads { Gives result (open_of (view d.now)) }
    ensures formed { IfOk result (λ rec. IsTrue (node_is_well_formed rec)) }
{
    let pid = id_at("pid", d)?;
    let sid = id_at("sid", d)?;
    let nsp = namespace_at("nsp", d)?;
    if !fits(MAX_ID, pid) || !fits(MAX_ID, sid) || !fits(MAX_NAMESPACE, nsp) {
        return Err(LIMIT);
    }
    let (pid, sid, nsp) = shared(pool, pid, sid, nsp)?;
    Ok(NodeRec::Opened { pid, sid, nsp })
}

/// A pid and a room.
#[tactic(auto, unfolding(crate::specs::NodeRecord::member_of))]
fn member(pool: &mut TextPool, d: &Fields<'_>) -> Result<(Text, Text), LineFault>
    ensures reads { Gives result (member_of (view d.now)) }
    ensures formed { IfOk result (λ m. IsTrue (is_session_id m.0 && is_room m.1)) }
{
    let pid = id_at("pid", d)?;
    let room = text_at("room", d)?;
    if !fits(MAX_ID, pid) || !fits(MAX_ROOM, room) {
        return Err(LIMIT);
    }
    Ok((pool.text(pid)?, pool.text(room)?))
}

/// A pid and the number of a turn.
#[tactic(auto, unfolding(crate::specs::NodeRecord::pid_and_turn))]
fn turn(pool: &mut TextPool, d: &Fields<'_>) -> Result<(Text, u16), LineFault>
    ensures reads { Gives result (pid_and_turn (view d.now)) }
    ensures formed { IfOk result (λ t. IsTrue (is_session_id t.0 && nat_le t.1 max_turn)) }
{
    let pid = id_at("pid", d)?;
    let turn = number_at("turn", d)?;
    if !fits(MAX_ID, pid) {
        return Err(LIMIT);
    }
    let Ok(turn) = u16::try_from(turn) else {
        return Err(LIMIT);
    };
    Ok((pool.text(pid)?, turn))
}

/// A tap of this version may have records of this kind, if any node's tap may.
pub fn is_in_version(version: Version, kind: &str) -> bool
    ensures { result ≡ is_in_version version kind.now }
{
    match version {
        Version::One => kind != "takes",
        Version::Two => true,
    }
}

/// The node's record of this kind, in either version.
#[tactic(auto, unfolding(crate::specs::NodeRecord::node_record_of))]
pub fn node_record(pool: &mut TextPool, kind: &str, d: &Fields<'_>) -> Result<NodeRec, LineFault>
    ensures reads { Gives result (node_record_of kind.now (view d.now)) }
    ensures formed { IfOk result (λ rec. IsTrue (node_is_well_formed rec)) }
{
    match kind {
        "start" => start(pool, d),
        "take" => Ok(NodeRec::Take {
            off: bounded_id_at(pool, MAX_OFFSET, "off", d)?,
        }),
        "takes" => Ok(NodeRec::Takes {
            off: bounded_id_at(pool, MAX_OFFSET, "off", d)?,
        }),
        "open" => open(pool, d),
        "join" => {
            let (pid, room) = member(pool, d)?;
            Ok(NodeRec::Join { pid, room })
        }
        "leave" => {
            let (pid, room) = member(pool, d)?;
            Ok(NodeRec::Leave { pid, room })
        }
        "break" => {
            let (pid, turn) = turn(pool, d)?;
            Ok(NodeRec::Broke { pid, turn })
        }
        "back" => {
            let (pid, turn) = turn(pool, d)?;
            Ok(NodeRec::Back { pid, turn })
        }
        "gone" => Ok(NodeRec::Gone {
            pid: bounded_id_at(pool, MAX_ID, "pid", d)?,
        }),
        _ => Err(UNKNOWN_KIND),
    }
}

//! The JSON of a node's record.
ghost use Rattle.std.specs.Prelude.{◌≡◌, IfOk};
ghost use Rattle.serde_json.specs.View.{view};
ghost use Rattle.aud_writer.specs.Written.{begin_data, open_data, member_data, pid_and_turn_data, gone_data, node_data};

use super::stream::offset_value;
use aud_tap::NodeRec;
use serde_json::{Value, json};
use std::alloc::{AllocError, Global};

fn begin_value(alloc: Global) -> Result<Value, AllocError>
    ensures { IfOk result (λ v. view v ≡ begin_data) }
{
    json!(in alloc; {"k": "start", "off": null})
}

fn open_value(alloc: Global, pid: &str, sid: &str, nsp: &str) -> Result<Value, AllocError>
    ensures { IfOk result (λ v. view v ≡ open_data pid.now sid.now nsp.now) }
{
    json!(in alloc; {"k": "open", "nsp": nsp, "pid": pid, "sid": sid})
}

fn member_value(alloc: Global, kind: &str, pid: &str, room: &str) -> Result<Value, AllocError>
    ensures { IfOk result (λ v. view v ≡ member_data kind.now pid.now room.now) }
{
    json!(in alloc; {"k": kind, "pid": pid, "room": room})
}

fn turn_value(alloc: Global, kind: &str, pid: &str, turn: u16) -> Result<Value, AllocError>
    ensures { IfOk result (λ v. view v ≡ pid_and_turn_data kind.now pid.now turn) }
{
    json!(in alloc; {"k": kind, "pid": pid, "turn": turn})
}

fn gone_value(alloc: Global, pid: &str) -> Result<Value, AllocError>
    ensures { IfOk result (λ v. view v ≡ gone_data pid.now) }
{
    json!(in alloc; {"k": "gone", "pid": pid})
}

pub fn node_value(alloc: Global, rec: &NodeRec) -> Result<Value, AllocError>
    ensures { IfOk result (λ v. view v ≡ node_data rec.now) }
{
    match rec {
        NodeRec::Start { off: None } => begin_value(alloc),
        NodeRec::Start { off: Some(off) } => offset_value(alloc, "start", off.as_str()),
        NodeRec::Take { off } => offset_value(alloc, "take", off.as_str()),
        NodeRec::Takes { off } => offset_value(alloc, "takes", off.as_str()),
        NodeRec::Opened { pid, sid, nsp } => {
            open_value(alloc, pid.as_str(), sid.as_str(), nsp.as_str())
        }
        NodeRec::Join { pid, room } => member_value(alloc, "join", pid.as_str(), room.as_str()),
        NodeRec::Leave { pid, room } => member_value(alloc, "leave", pid.as_str(), room.as_str()),
        NodeRec::Broke { pid, turn } => turn_value(alloc, "break", pid.as_str(), *turn),
        NodeRec::Back { pid, turn } => turn_value(alloc, "back", pid.as_str(), *turn),
        NodeRec::Gone { pid } => gone_value(alloc, pid.as_str()),
    }
}

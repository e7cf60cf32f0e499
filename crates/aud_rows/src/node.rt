//! What the records of nodes say.
ghost use Rattle.std.specs.Prelude.{◌≡◌};
ghost use Rattle.std.specs.Option.{option_copied, option_map};
ghost use Rattle.aud_node.specs.Cluster.{node_log};
ghost use Rattle.aud_rows.specs.Seen.{says_seen};
ghost use Rattle.aud_rows.specs.NodeSays.{node_says, node_says_at, position_of, session_at};

use crate::row::Says;
use aud_node::{Logs, Stream};
use aud_tap::{NodeRec, Records, Text};

/// What the record with this number of the node at this place says.
pub fn node_says_at<'a>(logs: &Logs<'a>, place: usize, number: usize) -> Option<Says<'a>>
    ensures { option_map says_seen result
        ≡ node_says_at logs.now.stream (node_log logs.now place) number }
{
    let log = logs.node(place)?;
    let rec = log.recs().get(number)?;
    let cursor = log.cursor_after(number)?;
    Some(node_says(logs.stream(), cursor, rec))
}

/// What the record says, where this is the node's cursor after it.
fn node_says<'a>(stream: &Stream<'_>, cursor: u64, rec: &'a NodeRec) -> Says<'a>
    ensures { says_seen result ≡ node_says stream.now cursor rec.now }
{
    match rec {
        NodeRec::Start { .. } => Says::Start { cursor },
        NodeRec::Take { off } => Says::Take {
            position: position_of(stream, off),
            off: off.as_str(),
        },
        NodeRec::Takes { off } => Says::Takes {
            position: position_of(stream, off),
            off: off.as_str(),
        },
        NodeRec::Opened { sid, nsp, .. } => Says::Open {
            sid: sid.as_str(),
            nsp: nsp.as_str(),
            cursor,
        },
        NodeRec::Join { room, .. } => Says::Join {
            room: room.as_str(),
        },
        NodeRec::Leave { room, .. } => Says::Leave {
            room: room.as_str(),
        },
        NodeRec::Broke { turn, .. } => Says::Break {
            turn: *turn,
            cursor,
        },
        NodeRec::Back { turn, .. } => Says::Back {
            turn: *turn,
            cursor,
        },
        NodeRec::Gone { .. } => Says::Gone,
    }
}

/// The session that the record with this number of a tap speaks of; only a node's does.
pub fn session_of(records: &Records, number: usize) -> Option<&str>
    ensures { option_copied result ≡ session_at records.now number }
{
    match records {
        Records::Node(recs) => Some(recs.get(number)?.pid()?.as_str()),
        Records::Stream(_) | Records::Client(_) => None,
    }
}

/// The position of the entry with this offset, 0 where the stream has none.
fn position_of(stream: &Stream<'_>, off: &Text) -> u64
    ensures { result ≡ position_of stream.now off.now }
{
    stream.position(off.as_str()).unwrap_or(0)
}

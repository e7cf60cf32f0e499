//! What the server's answer to a CONNECT tells.
ghost use Rattle.std.specs.Prelude.{◌≡◌, IfOk, option_map};
ghost use Rattle.aud_json.specs.View.{view};
ghost use Rattle.aud_sio.specs.Assembly.{whole_view};
ghost use Rattle.aud_client.specs.Replies.{is_connect_kind, pid_in, reply_in, sid_in, reply_in_value, value_of};

use crate::payload::{fields_of, text_at};
use aud_json::{Fields, Scratch};
use aud_sio::{PacketKind, Whole};
use aud_tap::{Text, is_session_id};
use std::alloc::{AllocError, Global};
use std::marker::Model;

/// What a CONNECT from the server tells.
#[derive(Drop)]
pub struct Reply {
    /// The session that it names: 1 to 128 bytes, each of 0x21 to 0x7e. None where the payload has no such `pid`, as
    /// where recovery is off.
    pub pid: Option<Text>,
    /// Empty where the payload has none.
    pub sid: Text,
}

impl Model for Reply {
    ghost use Rattle.aud_client.specs.Replies.{ReplySeen};

    ghost Value = { ReplySeen };

    ghost view = { λ r. record { pid = r.pid; sid = r.sid } };
}

/// The reply that a packet of the server is (Socket.IO protocol 5, "Connection to a namespace"); none where it is no
/// CONNECT.
pub fn reply_of(alloc: Global, whole: &Whole<'_>) -> Result<Option<Reply>, AllocError>
    ensures { IfOk result (λ reply. reply ≡ reply_in (whole_view whole.now)) }
{
    let mut scratch = Scratch::new(alloc);
    reply_with(alloc, &mut scratch, whole)
}

/// What [`reply_of`] gives, with memory that is kept for the next payload.
pub(crate) fn reply_with(
    alloc: Global,
    scratch: &mut Scratch,
    whole: &Whole<'_>,
) -> Result<Option<Reply>, AllocError>
    ensures { IfOk result (λ reply. reply ≡ reply_in (whole_view whole.now)) }
{
    if !is_connect_kind(whole.packet.kind) {
        return Ok(None);
    }
    let reply = reply_in_value(alloc, scratch, whole.packet.payload)?;
    Ok(Some(reply))
}

fn is_connect_kind(kind: PacketKind) -> bool
    ensures { result ≡ is_connect_kind kind }
{
    matches!(kind, PacketKind::Connect)
}

/// What the payload tells.
fn reply_in_value(
    alloc: Global,
    scratch: &mut Scratch,
    payload: Option<&str>,
) -> Result<Reply, AllocError>
    ensures { IfOk result (λ reply. reply
        ≡ reply_in_value (value_of (option_map (λ text. text.now) payload.entry))) }
{
    let Some(fields) = fields_of(alloc, payload, scratch)? else {
        return Ok(Reply {
            pid: None,
            sid: Text::new(alloc, "")?,
        });
    };
    let pid = pid_in(alloc, &fields)?;
    let sid = sid_in(alloc, &fields)?;
    Ok(Reply { pid, sid })
}

/// The session that the value names.
fn pid_in(alloc: Global, fields: &Fields<'_>) -> Result<Option<Text>, AllocError>
    ensures { IfOk result (λ pid. pid ≡ pid_in (view fields.now)) }
{
    match text_at(fields, "pid") {
        Some(pid) if is_session_id(pid) => Ok(Some(Text::new(alloc, pid)?)),
        _ => Ok(None),
    }
}

/// The `sid` of the value, empty where there is none.
fn sid_in(alloc: Global, fields: &Fields<'_>) -> Result<Text, AllocError>
    ensures { IfOk result (λ sid. sid ≡ sid_in (view fields.now)) }
{
    match text_at(fields, "sid") {
        Some(sid) => Text::new(alloc, sid),
        None => Text::new(alloc, ""),
    }
}

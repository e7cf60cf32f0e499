//! What a client asks to recover.
ghost use Rattle.std.specs.Prelude.{◌≡◌, IfOk};
ghost use Rattle.std.specs.Option.{option_copied, option_map, option_and_then};
ghost use Rattle.aud_json.specs.View.{view};
ghost use Rattle.aud_client.specs.Replies.{value_of};
ghost use Rattle.aud_sio.specs.Packet.{packet_view};
ghost use Rattle.aud_client.specs.StaySeen.{asked_in, asked_by};

use crate::payload::{fields_of, text_at};
use aud_json::{Fields, Scratch};
use aud_sio::{Packet, PacketKind};
use aud_tap::Text;
use std::alloc::{AllocError, Global};
use std::marker::Model;

/// The payload of a CONNECT by which a client asks for a session that it had (Socket.IO's documentation, "Connection
/// state recovery").
#[derive(Drop)]
pub struct Asked {
    /// Any text, also one that no session can have.
    pub pid: Text,
    /// The offset of the last event that the client has seen; none where the payload has none, or no text.
    pub offset: Option<Text>,
}

impl Model for Asked {
    ghost use Rattle.aud_client.specs.StaySeen.{AskedSeen};

    ghost Value = { AskedSeen };

    ghost view = { λ a. record { pid = a.pid; offset = a.offset } };
}

/// What a packet of the client asks for, if it is a CONNECT that does. The payload is read with this memory.
pub(crate) fn asked_in(
    alloc: Global,
    scratch: &mut Scratch,
    packet: &Packet<'_>,
) -> Result<Option<Asked>, AllocError>
    ensures { IfOk result (λ asked. asked ≡ asked_in (packet_view packet.now)) }
{
    match packet.kind {
        PacketKind::Connect => asked_by_payload(alloc, scratch, packet.payload),
        _ => Ok(None),
    }
}

/// What the payload asks for.
fn asked_by_payload(
    alloc: Global,
    scratch: &mut Scratch,
    payload: Option<&str>,
) -> Result<Option<Asked>, AllocError>
    ensures { IfOk result (λ asked. asked
        ≡ option_and_then asked_by (value_of (option_map (λ text. text.now) payload.entry))) }
{
    match fields_of(alloc, payload, scratch)? {
        Some(fields) => asked_by(alloc, &fields),
        None => Ok(None),
    }
}

/// What the value asks for: an object with a text `pid` does.
fn asked_by(alloc: Global, fields: &Fields<'_>) -> Result<Option<Asked>, AllocError>
    ensures { IfOk result (λ asked. asked ≡ asked_by (view fields.now)) }
{
    let Some(pid) = text_at(fields, "pid") else {
        return Ok(None);
    };
    Ok(Some(Asked {
        pid: Text::new(alloc, pid)?,
        offset: owned(alloc, text_at(fields, "offset"))?,
    }))
}

/// The text, in memory of its own.
fn owned(alloc: Global, text: Option<&str>) -> Result<Option<Text>, AllocError>
    ensures { IfOk result (λ own. own ≡ option_copied text.entry) }
{
    match text {
        Some(text) => Ok(Some(Text::new(alloc, text)?)),
        None => Ok(None),
    }
}

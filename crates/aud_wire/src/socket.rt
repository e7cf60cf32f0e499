//! One message of a socket, as the JSON of a record.
ghost use Rattle.std.specs.Prelude.{◌≡◌, Some, IfOk, string_bytes};
ghost use Rattle.serde_json.specs.View.{view};
ghost use Rattle.aud_tap.specs.declared.records.ClientRec.{ClientRec};
ghost use Rattle.aud_tap.specs.declared.records.ClientRec.TheVariants.{TextIn, BytesIn, Lost};
ghost use Rattle.aud_reader.specs.Fields.{decoded};
ghost use Rattle.aud_writer.specs.Written.{encoded, client_data};
ghost use Rattle.aud_wire.specs.Wire.{Spells, Told, TapsOne};

use crate::fault::WireFault;
use base64::engine::general_purpose::STANDARD;
use serde_json::{Value, json};
use std::alloc::{AllocError, Global};
use std::io::{Read, Write};
use tungstenite::{Error, MaskKeys, Message, WebSocket};

fn text_value(alloc: Global, text: &str) -> Result<Value, AllocError>
    ensures { IfOk result (λ v. view v ≡ client_data (TextIn text.now)) }
{
    json!(in alloc; {"k": "in", "t": text})
}

fn binary_value(alloc: Global, bytes: &[u8], text: &str) -> Result<Value, AllocError>
    ensures { text.now ≡ encoded bytes.now
        → IfOk result (λ v. view v ≡ client_data (BytesIn bytes.now)) }
{
    json!(in alloc; {"b": text, "k": "inb"})
}

fn lost_value(alloc: Global) -> Result<Value, AllocError>
    ensures { IfOk result (λ v. view v ≡ client_data Lost) }
{
    json!(in alloc; {"k": "lost"})
}

/// Bytes in base64 (RFC 4648, section 4), padded.
fn encoded(alloc: Global, bytes: &[u8]) -> Result<String, AllocError>
    ensures text { IfOk result (λ text. string_bytes text ≡ encoded bytes.now) }
    ensures back { IfOk result (λ text. decoded (encoded bytes.now) ≡ Some bytes.now) }
{
    STANDARD.encode(alloc, bytes)
}

/// The JSON of a text from the server.
fn text_json(alloc: Global, text: &str) -> Result<String, AllocError>
    ensures { IfOk result (λ json. Spells (TextIn text.now) (string_bytes json)) }
{
    let value = text_value(alloc, text)?;
    value.to_string(alloc)
}

/// The JSON of bytes from the server.
fn binary_json(alloc: Global, bytes: &[u8]) -> Result<String, AllocError>
    ensures { IfOk result (λ json. Spells (BytesIn bytes.now) (string_bytes json)) }
{
    let text = encoded(alloc, bytes)?;
    let value = binary_value(alloc, bytes, text.as_str())?;
    value.to_string(alloc)
}

/// The JSON of a lost connection.
fn lost_json(alloc: Global) -> Result<String, AllocError>
    ensures { IfOk result (λ json. Spells Lost (string_bytes json)) }
{
    let value = lost_value(alloc)?;
    value.to_string(alloc)
}

fn told(json: Result<String, AllocError>) -> Result<Option<Vec<u8>>, WireFault>
    ensures { (rec : ClientRec) → IfOk json (λ text. Spells rec (string_bytes text))
        → Told result (Some rec) }
{
    match json {
        Ok(text) => Ok(Some(text.into_bytes())),
        Err(_) => Err(WireFault::Memory),
    }
}

/// Reads one message of the socket, and gives it as the JSON of a record of a client's tap, without the tap's name and
/// without a newline: a text (`in`), bytes (`inb`), or a close (`lost`). Of a ping or a pong there is no record. After
/// the name of a tap and a blank the JSON reads as that record, unless the line is then longer than 4,194,304 bytes.
/// `Socket` comes only where the socket's read failed, for another reason than memory. The call waits where the stream
/// does.
pub fn tap_next<S: Read + Write + Drop, K: MaskKeys + Drop>(
    alloc: Global,
    socket: &mut WebSocket<S, K>,
) -> Result<Option<Vec<u8>>, WireFault>
    ensures { TapsOne S.remaining socket.old socket.new result }
{
    match socket.read() {
        Ok(Message::Text(text)) => told(text_json(alloc, text.as_str())),
        Ok(Message::Binary(bytes)) => told(binary_json(alloc, bytes.as_slice())),
        Ok(Message::Close(_)) => told(lost_json(alloc)),
        Ok(Message::Ping(_) | Message::Pong(_)) => Ok(None),
        Err(Error::OutOfMemory) => Err(WireFault::Memory),
        Err(_) => Err(WireFault::Socket),
    }
}

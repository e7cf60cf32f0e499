//! The JSON of a client's record.
ghost use Rattle.std.specs.Prelude.{◌≡◌, Some, IfOk};
ghost use Rattle.serde_json.specs.View.{view};
ghost use Rattle.aud_reader.specs.Fields.{decoded};
ghost use Rattle.aud_writer.specs.Written.{encoded, conn_data, binary_data, message_data, lost_data, client_data};
ghost use Rattle.aud_writer.specs.BytesBack.{DecodeBack, client_bytes};

use super::fields::encoded;
use aud_tap::ClientRec;
use serde_json::{Value, json};
use std::alloc::{AllocError, Global};

fn conn_value(alloc: Global, c: u64) -> Result<Value, AllocError>
    ensures { IfOk result (λ v. view v ≡ conn_data c) }
{
    json!(in alloc; {"c": c, "k": "conn"})
}

fn binary_value(alloc: Global, b: &[u8]) -> Result<Value, AllocError>
    ensures data { IfOk result (λ v. view v ≡ binary_data b.now) }
    ensures back { IfOk result (λ v. decoded (encoded b.now) ≡ Some b.now) }
{
    let text = encoded(alloc, b)?;
    json!(in alloc; {"b": text, "k": "inb"})
}

fn message_value(alloc: Global, kind: &str, t: &str) -> Result<Value, AllocError>
    ensures { IfOk result (λ v. view v ≡ message_data kind.now t.now) }
{
    json!(in alloc; {"k": kind, "t": t})
}

fn lost_value(alloc: Global) -> Result<Value, AllocError>
    ensures { IfOk result (λ v. view v ≡ lost_data) }
{
    json!(in alloc; {"k": "lost"})
}

pub fn client_value(alloc: Global, rec: &ClientRec) -> Result<Value, AllocError>
    ensures data { IfOk result (λ v. view v ≡ client_data rec.now) }
    ensures back { IfOk result (λ v. DecodeBack (client_bytes rec.now)) }
{
    match rec {
        ClientRec::Conn { c } => conn_value(alloc, *c),
        ClientRec::TextIn { t } => message_value(alloc, "in", t.as_str()),
        ClientRec::BytesIn { b } => binary_value(alloc, b.as_slice()),
        ClientRec::Poll { t } => message_value(alloc, "poll", t.as_str()),
        ClientRec::TextOut { t } => message_value(alloc, "out", t.as_str()),
        ClientRec::Lost => lost_value(alloc),
    }
}

//! The records of a client tap.
ghost use Rattle.aud_json.specs.View.{view};
ghost use Rattle.aud_reader.specs.Steps.{Gives};
ghost use Rattle.aud_reader.specs.ClientRecord.{message_of, client_record_of};

use super::fields::{bytes_at, number_at, text_at};
use crate::fault::{LineFault, UNKNOWN_KIND};
use aud_base::TextPool;
use aud_json::Fields;
use aud_tap::{ClientRec, Text};
use std::alloc::Global;

/// A text from the server, shared with the pool: several clients receive the same event.
fn message(pool: &mut TextPool, d: &Fields<'_>) -> Result<Text, LineFault>
    ensures { Gives result (message_of (view d.now)) }
{
    let t = text_at("t", d)?;
    Ok(pool.text(t)?)
}

/// A text of the client, which hardly comes again.
fn sent(alloc: Global, d: &Fields<'_>) -> Result<Text, LineFault>
    ensures { Gives result (message_of (view d.now)) }
{
    let t = text_at("t", d)?;
    Ok(Text::new(alloc, t)?)
}

/// The client's record of this kind.
#[tactic(auto, unfolding(crate::specs::ClientRecord::client_record_of))]
pub fn client_record(
    alloc: Global,
    pool: &mut TextPool,
    kind: &str,
    d: &Fields<'_>,
) -> Result<ClientRec, LineFault>
    ensures { Gives result (client_record_of kind.now (view d.now)) }
{
    match kind {
        "conn" => Ok(ClientRec::Conn {
            c: number_at("c", d)?,
        }),
        "in" => Ok(ClientRec::TextIn {
            t: message(pool, d)?,
        }),
        "inb" => Ok(ClientRec::BytesIn {
            b: bytes_at(alloc, "b", d)?,
        }),
        "poll" => Ok(ClientRec::Poll {
            t: message(pool, d)?,
        }),
        "out" => Ok(ClientRec::TextOut { t: sent(alloc, d)? }),
        "lost" => Ok(ClientRec::Lost),
        _ => Err(UNKNOWN_KIND),
    }
}

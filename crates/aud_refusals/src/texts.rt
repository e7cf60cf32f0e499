//! The texts of a record's packets.
ghost use Rattle.std.specs.Prelude.{◌≡◌, IfOk, map};
ghost use Rattle.aud_eio.specs.Body.{body_pieces};
ghost use Rattle.aud_refusals.specs.NoPacket.{engine_refusal, engine_refused, texts_of};

use crate::no_packet::{NoPacket, Refusal};
use aud_eio::{EioFault, decode_text};
use aud_tap::ClientRec;
use std::alloc::{AllocError, Global};

/// The texts of a record's packets, borrowed.
pub(crate) fn texts_of(alloc: Global, rec: &ClientRec) -> Result<Vec<&str>, AllocError>
    ensures { IfOk result (λ texts. map (λ text. text.now) texts.items ≡ texts_of rec.now) }
{
    match rec {
        ClientRec::TextIn { t } => {
            let mut texts = Vec::new(alloc);
            texts.push(t.as_str())?;
            Ok(texts)
        }
        ClientRec::Poll { t } => pieces_of(alloc, t.as_str()),
        ClientRec::Conn { .. }
        | ClientRec::BytesIn { .. }
        | ClientRec::TextOut { .. }
        | ClientRec::Lost => Ok(Vec::new(alloc)),
    }
}

/// The texts of a polling body, borrowed.
fn pieces_of(alloc: Global, body: &str) -> Result<Vec<&str>, AllocError>
    ensures { IfOk result (λ pieces. map (λ piece. piece.now) pieces.items ≡ body_pieces body.now) }
{
    let mut pieces = Vec::new(alloc);
    for piece in body.split('\u{1e}') {
        pieces.push(piece)?;
    }
    Ok(pieces)
}

/// The first of these texts that is no Engine.IO packet.
pub(crate) fn engine_refusal(alloc: Global, texts: &[&str]) -> Result<Option<NoPacket>, AllocError>
    ensures { IfOk result (λ found. found ≡ engine_refusal 1 (map (λ text. text.now) texts.now)) }
{
    for (i, text) in texts.iter().enumerate() {
        if let Some(found) = engine_refused(alloc, i + 1, text)? {
            return Ok(Some(found));
        }
    }
    Ok(None)
}

/// The refusal of this text, the packet with this number.
fn engine_refused(alloc: Global, number: usize, text: &str) -> Result<Option<NoPacket>, AllocError>
    ensures { IfOk result (λ found. found ≡ engine_refused number text.now) }
{
    match decode_text(alloc, text) {
        Ok(_) => Ok(None),
        Err(EioFault::Memory) => Err(AllocError),
        Err(fault) => Ok(Some(NoPacket {
            refusal: Refusal::Engine(fault),
            packet: Some(number),
        })),
    }
}

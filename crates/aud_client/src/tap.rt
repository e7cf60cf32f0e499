//! A client's tap, read to its stays.
ghost use Rattle.std.specs.Prelude.{◌≡◌, IfOk};
ghost use Rattle.std.specs.List.{list_any};
ghost use Rattle.std.specs.Option.{option_copied};
ghost use Rattle.aud_client.specs.Received.{transcript_of, is_orphan, names_somebody};

use crate::replies::Reply;
use crate::stay::Stay;
use crate::told::{Told, told_by};
use crate::transcript::Transcript;
use aud_node::Stream;
use aud_tap::ClientRec;
use std::alloc::{AllocError, Global};

/// The stays of a client's tap with these records, with the frames that are recoverable in this stream, and the records
/// at which their packets stand. Packets are dropped record after record: what the frames keep of them is moved out.
/// The texts of the stream's events aren't decoded.
pub fn read_transcript<'a>(
    alloc: Global,
    recs: &'a [ClientRec],
    stream: &Stream<'a>,
) -> Result<Transcript<'a>, AllocError>
    ensures { IfOk result (λ r. r ≡ transcript_of stream.now recs.now) }
{
    let Told { bad, stays } = told_by(alloc, recs, stream)?;
    let (stays, places) = stays.into_parts();
    let orphan = has_orphan(stays.as_slice());
    Ok(Transcript {
        bad,
        orphan,
        stays,
        places,
    })
}

/// Whether any of the stays is an orphan's.
fn has_orphan(stays: &[Stay<'_>]) -> bool
    ensures { result ≡ list_any is_orphan stays.now }
{
    stays.iter().any(|stay| is_orphan(stay))
}

/// Whether the stay has frames, and its reply names nobody.
fn is_orphan(stay: &Stay<'_>) -> bool
    ensures { result ≡ is_orphan stay.now }
{
    !names_somebody(stay.reply.as_ref()) && !stay.frames.is_empty()
}

/// Whether the reply names a session.
fn names_somebody(reply: Option<&Reply>) -> bool
    ensures { result ≡ names_somebody (option_copied reply.entry) }
{
    match reply {
        Some(reply) => reply.pid.is_some(),
        None => false,
    }
}

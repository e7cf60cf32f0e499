//! The stream's events that records carry, looked up for many records at once.
//!
//! A text and the event that it is stand far apart in memory. So all guesses are made before the first is used, and all
//! events are compared before the first becomes a frame: what one of them waits for is then fetched beside what the
//! next ones wait for.
ghost use Rattle.std.specs.Prelude.{◌≡◌, ◌∷◌, IfOk, IfSome};
ghost use Rattle.std.specs.List.{AllZip};
ghost use Rattle.aud_tap.specs.declared.records.ClientRec.TheVariants.{TextIn};
ghost use Rattle.aud_client.specs.Private.Ahead.{Carries};

use aud_node::{KnownEvent, Stream};
use aud_tap::ClientRec;
use std::alloc::{AllocError, Global};

/// Of each record the event of the stream that it carries as its text alone; none where it carries none that is known by
/// its text.
pub fn known_in<'a>(
    alloc: Global,
    stream: &Stream<'a>,
    recs: &[ClientRec],
) -> Result<Vec<Option<KnownEvent<'a>>>, AllocError>
    ensures { IfOk result (λ known. AllZip (Carries stream.now) recs.now known.items) }
{
    let guesses = guesses_at(alloc, stream, recs)?;
    let mut known = Vec::with_capacity(alloc, recs.len())?;
    for (i, rec) in recs.iter().enumerate() {
        let guess = guesses.get(i).copied().flatten();
        known.push(known_by(stream, rec, guess))?;
    }
    Ok(known)
}

/// A guess at the event of each record.
fn guesses_at(
    alloc: Global,
    stream: &Stream<'_>,
    recs: &[ClientRec],
) -> Result<Vec<Option<usize>>, AllocError> {
    let mut guesses = Vec::with_capacity(alloc, recs.len())?;
    for rec in recs {
        guesses.push(guess_at(stream, rec))?;
    }
    Ok(guesses)
}

fn guess_at(stream: &Stream<'_>, rec: &ClientRec) -> Option<usize> {
    stream.guess(message(rec)?)
}

/// The event that the record carries, which is looked for first where the guess says.
fn known_by<'a>(
    stream: &Stream<'a>,
    rec: &ClientRec,
    guess: Option<usize>,
) -> Option<KnownEvent<'a>>
    ensures { Carries stream.now rec.now result }
{
    stream.known(message(rec)?, guess)
}

/// The text of the Engine.IO message that the record is, if it is a text from the server that has one.
fn message(rec: &ClientRec) -> Option<&str>
    ensures { IfSome result (λ text. rec.now ≡ TextIn (52 ∷ text.now)) }
{
    match rec {
        ClientRec::TextIn { t } => t.as_str().strip_prefix('4'),
        _ => None,
    }
}

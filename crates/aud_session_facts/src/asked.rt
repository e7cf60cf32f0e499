//! The recoveries that clients asked for.
ghost use Rattle.std.specs.Prelude.{◌≡◌, ◌++◌, IfOk, OnOk, option_to_list, slice_get};
ghost use Rattle.std.specs.Option.{option_copied};
ghost use Rattle.aud_session_facts.specs.Recoveries.{is_got_back, is_there_or_later, recoveries_at, recoveries_in, recoveries_of, recovery_at, stays_at};

use aud_client::{Asked, IndexedTranscript, Recording, Stay};
use std::alloc::{AllocError, Global};

/// A recovery that a client asked for: by a CONNECT with the pid of a session.
#[derive(Clone, Copy, Debug, PartialEq, Eq, Drop)]
pub struct Recovery {
    /// The place of the client's tap; places count from 0, in the order of the headers.
    pub client: usize,
    /// The number of the stay that was asked for; the stays of a tap count from 0.
    pub stay: usize,
    /// Whether the client got the session back: the reply names it; or there is none, and the last reply of the tap that
    /// names it came on the same connection, as where the ask is recorded after its answer, or later, as where the
    /// connection was cut before the answer. Else the recovery was refused, or not answered.
    pub granted: bool,
}

/// All recoveries that clients asked for, client after client, in each in the order of its stays. Each stay is looked
/// at once.
pub fn recoveries(alloc: Global, recording: &Recording<'_>) -> Result<Vec<Recovery>, AllocError>
    ensures { IfOk result (λ found. found.items ≡ recoveries_of recording.now) }
{
    let mut found = Vec::new(alloc);
    for place in 0..recording.logs().taps().len() {
        push_client(recording, &mut found, place)?;
    }
    Ok(found)
}

/// The stay that the recovery is about, borrowed; none where the recording has no such stay.
pub fn stay_of<'r, 'a>(recording: &'r Recording<'a>, recovery: &Recovery) -> Option<&'r Stay<'a>>
    ensures { option_copied result
        ≡ slice_get (stays_at recording.now recovery.now.client) recovery.now.stay }
{
    match recording.client(recovery.client) {
        Some(client) => client.transcript().stays.get(recovery.stay),
        None => None,
    }
}

/// Adds the recoveries that the client at this place asked for, if the tap there is a client's.
fn push_client(
    recording: &Recording<'_>,
    found: &mut Vec<Recovery>,
    place: usize,
) -> Result<(), AllocError>
    ensures { OnOk result (found.new.items ≡ found.old.items ++ recoveries_at recording.now place) }
{
    match recording.client(place) {
        Some(client) => push_asked(found, place, client),
        None => Ok(()),
    }
}

/// Adds those among the stays of the client at this place.
fn push_asked(
    found: &mut Vec<Recovery>,
    place: usize,
    client: &IndexedTranscript<'_>,
) -> Result<(), AllocError>
    ensures { OnOk result (found.new.items
        ≡ found.old.items ++ recoveries_in place client.now.stays) }
{
    for number in 0..client.transcript().stays.len() {
        push_recovery(found, place, client, number)?;
    }
    Ok(())
}

/// Adds the stay with this number, if it was asked for.
fn push_recovery(
    found: &mut Vec<Recovery>,
    place: usize,
    client: &IndexedTranscript<'_>,
    number: usize,
) -> Result<(), AllocError>
    ensures { OnOk result (found.new.items
        ≡ found.old.items ++ option_to_list (recovery_at place client.now.stays number)) }
{
    if let Some(recovery) = recovery_at(place, client, number) {
        found.push(recovery)?;
    }
    Ok(())
}

/// The stay with this number as a recovery, if it was asked for.
fn recovery_at(place: usize, client: &IndexedTranscript<'_>, number: usize) -> Option<Recovery>
    ensures { result ≡ recovery_at place client.now.stays number }
{
    let stay = client.transcript().stays.get(number)?;
    let asked = stay.asked.as_ref()?;
    Some(Recovery {
        client: place,
        stay: number,
        granted: is_got_back(client, number, stay, asked),
    })
}

/// Whether the client got the session back for which it asked in the stay with this number.
fn is_got_back(
    client: &IndexedTranscript<'_>,
    number: usize,
    stay: &Stay<'_>,
    asked: &Asked,
) -> bool
    ensures { result ≡ is_got_back client.now.stays number stay.now asked.now }
{
    let pid = asked.pid.as_str();
    if stay.reply.is_some() {
        return stay.names(pid);
    }
    let naming = client.numbers_naming(pid);
    match naming.get(naming.len().saturating_sub(1)) {
        Some(last) => is_there_or_later(&client.transcript().stays, number, stay.c, *last),
        None => false,
    }
}

/// Whether the last one of two stays comes after the one with this number, or is of this connection.
fn is_there_or_later(stays: &[Stay<'_>], number: usize, c: u64, last: usize) -> bool
    ensures { result ≡ is_there_or_later stays.now number c last }
{
    if number < last {
        return true;
    }
    match stays.get(last) {
        Some(other) => other.c == c,
        None => false,
    }
}

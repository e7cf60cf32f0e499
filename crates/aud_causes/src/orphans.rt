//! What events may come from of which nobody knows the session.
ghost use Rattle.std.specs.Prelude.{◌≡◌, ◌++◌, IfOk, None, OnOk, slice_get};
ghost use Rattle.std.specs.Option.{option_copied};
ghost use Rattle.aud_eio.specs.Packet.{engine_view};
ghost use Rattle.aud_session_facts.specs.Recoveries.{stays_at};
ghost use Rattle.aud_causes.specs.Orphans.{began_late, carries_disconnect, causes_of_before, is_asked_first, is_disconnect, last_of_stay, next_of_stay, orphan_at, reply_lost, stay_before, unreplied_causes, without_reply};

use crate::bodies::{client_record, places_at};
use crate::cause::Cause;
use crate::list::{front_of, held, push_some};
use aud_client::{Recording, Stay};
use aud_eio::{Eio, EioFault, decode_text};
use aud_rows::packets_of;
use aud_sio::{PacketKind, SioFault, decode};
use aud_tap::ClientRec;
use std::alloc::{AllocError, Global};

/// The causes of events in the stay with this number, if there is one, of the client's tap at this place: its reply names
/// nobody, or there is none. It costs the stays before it, and reads the last record of one of them.
pub(crate) fn orphan_at(
    alloc: Global,
    recording: &Recording<'_>,
    client: usize,
    orphan: Option<usize>,
) -> Result<Vec<Cause>, AllocError>
    ensures { IfOk result (λ found. found.items ≡ orphan_at recording.now client orphan) }
{
    let Some(number) = orphan else {
        return Ok(Vec::new(alloc));
    };
    let Some(stay) = stay_in(recording, client, number) else {
        return Ok(Vec::new(alloc));
    };
    match &stay.reply {
        Some(reply) if reply.pid.is_some() => Ok(Vec::new(alloc)),
        Some(_) => held(alloc, &[Some(Cause::ReplyWithoutPid(number))]),
        None => unreplied_causes(alloc, recording, client, number, stay),
    }
}

/// The stay with this number of the client's tap at this place.
fn stay_in<'r, 'a>(
    recording: &'r Recording<'a>,
    client: usize,
    number: usize,
) -> Option<&'r Stay<'a>>
    ensures { option_copied result ≡ slice_get (stays_at recording.now client) number }
{
    match recording.client(client) {
        Some(client) => client.transcript().stays.get(number),
        None => None,
    }
}

/// The causes of events in this stay, which has no reply.
fn unreplied_causes(
    alloc: Global,
    recording: &Recording<'_>,
    client: usize,
    number: usize,
    stay: &Stay<'_>,
) -> Result<Vec<Cause>, AllocError>
    ensures { IfOk result (λ found. found.items
        ≡ unreplied_causes recording.now client number stay.now) }
{
    let asked_first = is_asked_first(recording, client, number);
    let next = next_of_stay(recording, client, number);
    let before = stay_before(recording, client, number, stay);
    let connected = asked_first && before.is_none();
    let mut found = held(
        alloc,
        &[
            without_reply(recording, client, number, stay, next, asked_first),
            reply_lost(client, stay, connected, next),
        ],
    )?;
    push_before(alloc, recording, &mut found, client, number, before)?;
    Ok(found)
}

/// Where the client asked for a session, and the connection doesn't go on, by the record that comes next; or where it did
/// not ask, and nothing says that the tap has the connection from its beginning: the stay is the tap's first one, in its
/// first connection, and doesn't begin with the client's CONNECT.
fn without_reply(
    recording: &Recording<'_>,
    client: usize,
    number: usize,
    stay: &Stay<'_>,
    next: Option<&ClientRec>,
    asked_first: bool,
) -> Option<Cause>
    ensures { result ≡ without_reply number stay.now.asked (option_copied next.entry)
        (began_late recording.now client number stay.now asked_first) }
{
    match &stay.asked {
        Some(_) => {
            let may_be_cut = matches!(next, None | Some(ClientRec::Lost | ClientRec::Conn { .. }));
            may_be_cut.then_some(Cause::CutBeforeReply(number))
        }
        None => match client_record(recording, client, 0) {
            Some(ClientRec::Conn { c }) if number == 0 && *c == stay.c => {
                (!asked_first).then_some(Cause::TapBeganLate(number))
            }
            _ => None,
        },
    }
}

/// Where the client asked for a session, and nothing says that the connection was cut before the reply; or where it asked
/// for none, and its CONNECT is the first of the namespace on the connection.
fn reply_lost(
    client: usize,
    stay: &Stay<'_>,
    connected: bool,
    next: Option<&ClientRec>,
) -> Option<Cause>
    ensures { result ≡ reply_lost client stay.now.asked connected (option_copied next.entry) }
{
    let lost = match &stay.asked {
        Some(_) => !matches!(next, Some(ClientRec::Lost | ClientRec::Conn { .. })),
        None => connected,
    };
    lost.then_some(Cause::ReplyMissing(client))
}

/// The record after the last one of the stay with this number of the client's tap at this place.
fn next_of_stay<'a>(
    recording: &Recording<'a>,
    client: usize,
    number: usize,
) -> Option<&'a ClientRec>
    ensures { option_copied result ≡ next_of_stay recording.now client number }
{
    let places = places_at(recording, client).get(number)?;
    client_record(recording, client, places.last as usize + 1)
}

/// Whether the stay with this number of the client's tap at this place begins with the client's CONNECT.
fn is_asked_first(recording: &Recording<'_>, client: usize, number: usize) -> bool
    ensures { result ≡ is_asked_first recording.now client number }
{
    let Some(places) = places_at(recording, client).get(number) else {
        return false;
    };
    let first = client_record(recording, client, places.first as usize);
    matches!(first, Some(ClientRec::TextOut { .. }))
}

/// The number of the last stay before it in its connection and namespace.
fn stay_before(
    recording: &Recording<'_>,
    client: usize,
    number: usize,
    stay: &Stay<'_>,
) -> Option<usize>
    ensures { result ≡ stay_before (stays_at recording.now client) number stay.now }
{
    let Some(client) = recording.client(client) else {
        return None;
    };
    let front = front_of(&client.transcript().stays, number);
    let mut last = None;
    for (place, other) in front.iter().enumerate() {
        if other.c == stay.c && other.nsp == stay.nsp {
            last = Some(place);
        }
    }
    last
}

/// Adds the causes of the stay before, if there is one: it ended by a DISCONNECT; or it was answered.
fn push_before(
    alloc: Global,
    recording: &Recording<'_>,
    found: &mut Vec<Cause>,
    client: usize,
    number: usize,
    before: Option<usize>,
) -> Result<(), AllocError>
    ensures { OnOk result (found.new.items
        ≡ found.old.items ++ causes_of_before recording.now client number before) }
{
    let Some(before) = before else {
        return Ok(());
    };
    let Some(stay) = stay_in(recording, client, before) else {
        return Ok(());
    };
    let last = last_of_stay(recording, client, before);
    if is_disconnect(alloc, stay.nsp, last)? {
        let cause = Cause::AfterDisconnect {
            before,
            stay: number,
        };
        return push_some(found, Some(cause));
    }
    if stay.reply.is_none() {
        return Ok(());
    }
    let asked_first = is_asked_first(recording, client, before);
    let late = stay.asked.is_none() && !asked_first;
    let out = Cause::OutAfterAnswer {
        before,
        stay: number,
    };
    push_some(found, late.then_some(out))?;
    let second = Cause::SecondConnect {
        before,
        stay: number,
    };
    push_some(found, Some(second))
}

/// The last record of the stay with this number of the client's tap at this place.
pub(crate) fn last_of_stay<'a>(
    recording: &Recording<'a>,
    client: usize,
    number: usize,
) -> Option<&'a ClientRec>
    ensures { option_copied result ≡ last_of_stay recording.now client number }
{
    let places = places_at(recording, client).get(number)?;
    client_record(recording, client, places.last as usize)
}

/// Whether some packet of the record, if there is one, is a DISCONNECT of this namespace: one of the server's packets in
/// it, or the client's packet.
pub(crate) fn is_disconnect(
    alloc: Global,
    nsp: &str,
    rec: Option<&ClientRec>,
) -> Result<bool, AllocError>
    ensures { IfOk result (λ is. is ≡ is_disconnect nsp.now (option_copied rec.entry)) }
{
    let Some(rec) = rec else {
        return Ok(false);
    };
    if let ClientRec::TextOut { t } = rec {
        return match decode_text(alloc, t.as_str()) {
            Ok(packet) => carries_disconnect(alloc, nsp, &packet),
            Err(EioFault::Memory) => Err(AllocError),
            Err(_) => Ok(false),
        };
    }
    let Some(packets) = packets_of(alloc, rec)? else {
        return Ok(false);
    };
    let packets = packets.as_slice();
    for packet in packets {
        if carries_disconnect(alloc, nsp, packet)? {
            return Ok(true);
        }
    }
    Ok(false)
}

/// Whether the packet is a DISCONNECT of this namespace.
fn carries_disconnect(alloc: Global, nsp: &str, packet: &Eio<'_>) -> Result<bool, AllocError>
    ensures { IfOk result (λ carries. carries
        ≡ carries_disconnect nsp.now (engine_view packet.now)) }
{
    let Eio::Message(text) = packet else {
        return Ok(false);
    };
    match decode(alloc, text) {
        Ok(packet) => Ok(matches!(packet.kind, PacketKind::Disconnect) && packet.nsp == nsp),
        Err(SioFault::Memory) => Err(AllocError),
        Err(_) => Ok(false),
    }
}

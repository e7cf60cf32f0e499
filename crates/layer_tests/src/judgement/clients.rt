//! What clients' taps tell: their packets, stays and frames.
use crate::told::Told;
use aud_check::part_of;
use aud_client::{
    ClientTap, Frame, Placed, Recording, Reply, Stay, StayPlaces, TapPacket, reply_of,
};
use aud_node::{Logs, Stream};
use std::alloc::Global;

/// A line for each stay, then whether there is an orphan, and the first bad record; and the connections of the stays
/// that name the session `P`.
pub fn tell_client(recording: &Recording<'_>, alloc: Global, name: &str, out: &mut Told) {
    let logs = recording.logs();
    let place = logs.place_of(name).unwrap_or(usize::MAX);
    let Some(client) = recording.client(place) else {
        return out.text("no client");
    };
    let transcript = client.transcript();
    for (stay, places) in transcript.stays.iter().zip(&transcript.places) {
        tell_stay(logs.stream(), stay, places, out);
    }
    if transcript.orphan {
        out.text("orphan, ");
    }
    if let Some(number) = transcript.bad {
        out.text("bad");
        out.debug(&number);
        out.text(", ");
    }
    out.text("naming");
    match client.naming(alloc, "P") {
        Ok(stays) => {
            for stay in &stays {
                out.debug(&stay.c);
                out.debug(&stay.names("P"));
            }
        }
        Err(_) => out.fail(),
    }
}

/// The connection, the namespace, the reply, the pid and the offset that were asked for, whether they were given, and
/// the positions of the frames; then the records at which its first and last packet stand, the ask, the reply and the
/// frames.
fn tell_stay(stream: &Stream<'_>, stay: &Stay<'_>, places: &StayPlaces, out: &mut Told) {
    out.show(&stay.c);
    out.text(" ");
    out.text(stay.nsp);
    tell_reply(stay.reply.as_ref(), out);
    if let Some(asked) = stay.asked.as_ref() {
        out.text(" asked ");
        out.text(asked.pid.as_str());
        out.text(" ");
        out.text(
            asked
                .offset
                .as_ref()
                .map_or("nowhere", |offset| offset.as_str()),
        );
    }
    if stay.is_recovered() {
        out.text(" recovered");
    }
    for frame in stay.frames.iter() {
        tell_frame(stream, frame, out);
    }
    out.text(";");
    out.debug(&(places.first, places.last));
    out.debug(&places.ask);
    out.debug(&places.reply);
    out.debug(&places.frames);
    out.text("\n");
}

/// The pid and the sid that the reply tells, if there is one.
fn tell_reply(reply: Option<&Reply>, out: &mut Told) {
    if let Some(reply) = reply {
        out.text(" reply ");
        out.text(reply.pid.as_ref().map_or("nobody", |pid| pid.as_str()));
        out.text(" ");
        out.text(reply.sid.as_str());
    }
}

/// The position of the frame. Where it isn't its entry: what of it isn't, its text, and its attachments.
fn tell_frame(stream: &Stream<'_>, frame: &Frame<'_>, out: &mut Told) {
    out.debug(&frame.position);
    if let Some(part) = part_of(stream, frame) {
        out.text(" not");
        out.debug(&part);
        out.text(" of ");
        out.text(frame.text());
        for blob in frame.bin() {
            out.debug(&blob.as_slice());
        }
    }
}

/// How many records the tap of this name has, its first bad record, and its packets, connection by connection.
pub fn tell_packets(logs: &Logs<'_>, alloc: Global, name: &str, out: &mut Told) {
    let place = logs.place_of(name).unwrap_or(usize::MAX);
    let Some(recs) = logs.client(place) else {
        return out.text("no client");
    };
    let Ok(tap) = ClientTap::build(alloc, recs) else {
        return out.fail();
    };
    out.show(&tap.recs().len());
    out.text(" records, bad");
    out.debug(&tap.bad());
    for connection in tap.connections() {
        out.text("\nconnection");
        out.debug(&connection.c);
        for placed in connection.packets.as_slice() {
            tell_placed(placed, alloc, out);
        }
    }
}

/// The record at which the packet stands, its kind and its namespace; of one from the server its text and
/// attachments, and what it tells, if it is a reply.
fn tell_placed(placed: &Placed<'_>, alloc: Global, out: &mut Told) {
    out.text("\n");
    out.show(&placed.number);
    match &placed.packet {
        TapPacket::FromServer(whole) => {
            out.text(" in");
            out.debug(&whole.packet.kind);
            out.text(" ");
            out.text(whole.packet.nsp);
            out.text(" ");
            out.text(whole.text);
            for blob in whole.bin.as_slice() {
                out.debug(&blob.as_slice());
            }
            match reply_of(alloc, whole) {
                Ok(reply) => tell_reply(reply.as_ref(), out),
                Err(_) => out.fail(),
            }
        }
        TapPacket::Known(_) => out.text(" known"),
        TapPacket::FromClient(packet) => {
            out.text(" out");
            out.debug(&packet.kind);
            out.text(" ");
            out.text(packet.nsp);
        }
    }
}

//! Where entries stand in the stream, whom they are addressed to, what nodes' logs have, and the runs of the logs.
use crate::judgement::asked::cut;
use crate::told::Told;
use aud_client::Recording;
use aud_merge::{Order, State, Step, allowed, apply, is_run, order, order_text};
use aud_node::{Logs, NodeLog, Stream};
use aud_tap::StreamRec;
use std::alloc::Global;

/// The offset of the entry, its position, of how many, whether it is sent again; and how many entries stand before
/// the event that is known by its text: by the guess, and by a wrong one.
pub fn tell_entry(stream: &Stream<'_>, off: &str, out: &mut Told) {
    let position = stream.position(off).unwrap_or(0);
    let Some(entry) = stream.entry(position) else {
        return out.text("nowhere");
    };
    out.text(entry.offset().as_str());
    out.text(" at");
    out.debug(&position);
    out.text(" of");
    out.debug(&stream.entries().len());
    out.text(", sent again");
    out.debug(&stream.recoverable(position));
    if let StreamRec::Ev(event) = entry {
        let text = event.text.as_str();
        for guess in [stream.guess(text), Some(0)] {
            match stream.known(text, guess) {
                Some(known) => out.debug(&known.before),
                None => out.text(" unknown"),
            }
        }
    }
}

/// The positions of the entries of the namespace that name the room, of those for the whole namespace, and of those
/// of any that except the room.
pub fn tell_addressees(stream: &Stream<'_>, of: &str, out: &mut Told) {
    let (nsp, room) = cut(of);
    out.debug(&stream.positions(nsp, room));
    out.text(", to all");
    out.debug(&stream.to_all(nsp));
    out.text(", excepting");
    out.debug(&stream.excepting(room));
}

/// The node's log with this name.
pub fn log_named<'l, 'a>(logs: &'l Logs<'a>, name: &str) -> Option<&'l NodeLog<'a>> {
    logs.node(logs.place_of(name)?)
}

/// The place of the tap of this name, and those of the nodes and of the clients that name the session of this pid. Of
/// a node the cursors after its records, whether these are in order, and the numbers of those of the session `P`.
pub fn tell_tap(recording: &Recording<'_>, name: &str, out: &mut Told) {
    let logs = recording.logs();
    out.text("place");
    out.debug(&logs.place_of(name));
    out.text(", nodes");
    out.debug(&logs.nodes_of(name));
    out.text(", clients");
    out.debug(&recording.naming(name));
    let Some(log) = log_named(logs, name) else {
        return;
    };
    out.text(", cursors");
    for number in 0..log.recs().len() {
        if let Some(cursor) = log.cursor_after(number) {
            out.debug(&cursor);
        }
    }
    out.text(", in order");
    out.debug(&log.ordered());
    out.text(", own");
    out.debug(&log.own("P"));
}

/// The run that is shown, and the session `P` after it; or the records that block.
pub fn tell_order(logs: &Logs<'_>, alloc: Global, out: &mut Told) {
    let Ok(shown) = order(alloc, logs) else {
        return out.fail();
    };
    match order_text(alloc, logs, &shown) {
        Ok(text) => out.text(&text),
        Err(_) => out.fail(),
    }
    if let Order::Run(steps) = &shown {
        tell_run(logs, alloc, steps, out);
    }
}

/// Whether the steps are a run, and without the last one; and where the session `P` is after them, its turn, and
/// whether it is in `s1` and in `r`.
fn tell_run(logs: &Logs<'_>, alloc: Global, steps: &[Step], out: &mut Told) {
    let shorter = &steps[..steps.len().saturating_sub(1)];
    out.debug(&is_run(alloc, logs, steps).is_ok_and(|is| is));
    out.debug(&is_run(alloc, logs, shorter).is_ok_and(|is| is));
    let Ok(mut state) = State::new(alloc, logs) else {
        return out.fail();
    };
    for step in steps {
        if !allowed(&state, logs, step) || apply(&mut state, logs, step).is_err() {
            return out.fail();
        }
    }
    if let Some(session) = state.session("P") {
        out.debug(&session.at);
        out.debug(&session.turn);
        out.debug(&session.rooms.contains("s1"));
        out.debug(&session.rooms.contains("r"));
    }
}

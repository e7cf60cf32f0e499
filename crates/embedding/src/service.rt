//! The taps post at a desk, each from a thread of its own; then what they posted is audited.
ghost use Rattle.std.specs.Prelude.{◌≡◌, length};

use crate::fault::ServiceFault;
use crate::lines::{NAMES, lines_of};
use aud_book::{Desk, PostFault, Posted, Posts, TapSeat, read_posted};
use aud_client::Recording;
use aud_desk::{OpenGate, audit_with};
use aud_verdict::report_on;
use std::alloc::Global;
use std::hash::RandomState;
use std::marker::Brand;
use std::sync::Wait;
use std::sync::ledger::Blank;
use std::thread::{Threads, map_vec};
use std::time::Clock;

/// What the thread of a tap does: it posts the tap's lines from its seat, and hands the seat back.
fn post_all<'a, L: Posts, R: Wait>(
    rt: &R,
    desk: &Desk<'a, L>,
    seat: TapSeat<'a, L>,
) -> Result<TapSeat<'a, L>, PostFault> {
    let mut seat = seat;
    for line in lines_of(seat.name()) {
        match desk.post(rt, seat, *line) {
            Ok(back) => seat = back,
            Err((_, fault)) => return Err(fault),
        }
    }
    Ok(seat)
}

/// What was posted, once each tap's thread has ended. The seats come back in the order of the names.
fn record<'a, L: Posts + Send + Sync, R: Threads + Wait + Sync>(
    rt: &R,
    alloc: Global,
    blank: Blank,
    names: &[&'a str],
) -> Result<Posted<'a>, ServiceFault>
    requires name { blank.name ≡ L.name }
    requires parts { (blank.parts ≡ L.parts) × (blank.parts ≡ length names.now)
        × (L.count ≡ length names.now) }
{
    let (desk, seats) = Desk::<L>::new(alloc, blank, names)?;
    let shared = &desk;
    let ended = map_vec(rt, seats, &|seat| post_all(rt, shared, seat))?;
    let mut seats = Vec::with_capacity(alloc, ended.len())?;
    for seat in ended {
        seats.push(seat?)?;
    }
    desk.close(seats).map_err(|_| ServiceFault::Seats)
}

/// The report on what the taps posted, whose texts are hashed with these keys. The one call of [`record`] picks the
/// desk's ledger, by [`Brand`].
pub fn report<R: Threads + Wait + Clock + Sync>(
    rt: &R,
    alloc: Global,
    keys: RandomState,
) -> Result<String, ServiceFault> {
    let posted = record::<Brand, R>(rt, alloc, Blank::new(NAMES.len() as u64), &NAMES)?;
    let taps = read_posted(alloc, keys, &posted)?;
    let recording = Recording::read(rt, alloc, keys, 4, &taps)?;
    let report = audit_with(rt, alloc, &recording, 4, false, &OpenGate)?;
    let output = report_on(alloc, report.verdicts.as_slice())?;
    Ok(output.text)
}

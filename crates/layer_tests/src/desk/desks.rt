//! A desk that is open for a test.
ghost use Rattle.std.specs.Prelude.{◌≡◌, length};

use crate::desk::bundle::line_at;
use aud_book::{Desk, DeskFault, PostFault, Posted, Posts, Strayed, TapSeat};
use std::alloc::Global;
use std::marker::Brand;
use std::sync::Wait;
use std::sync::ledger::Blank;
use std::thread::{Threads, map_vec};

/// How lines are posted.
#[derive(Drop)]
pub enum Way<'p, 'a> {
    /// Those of the bundle by one thread, each time the next of the seat at the next place.
    InOrder(&'p [usize]),
    /// Those of the bundle, up to so many of each tap, by a thread for each seat.
    ByThreads(usize),
    /// These from the last seat, each with why it is refused, where it is.
    Each(&'p [(&'a [u8], Option<PostFault>)]),
}

/// Posts the line of the bundle that comes after those that were posted from the seat, if there is one.
fn post_next<'a, L: Posts, R: Wait>(
    rt: &R,
    desk: &Desk<'a, L>,
    seat: TapSeat<'a, L>,
) -> TapSeat<'a, L> {
    let Some(line) = line_at(seat.name(), seat.lines().len()) else {
        return seat;
    };
    match desk.post(rt, seat, line) {
        Ok(seat) => seat,
        Err((seat, _)) => seat,
    }
}

/// Posts the next line of each seat that this order names.
fn post_in_order<'a, L: Posts, R: Wait>(
    rt: &R,
    desk: &Desk<'a, L>,
    mut seats: Vec<TapSeat<'a, L>>,
    order: &[usize],
) -> Result<Vec<TapSeat<'a, L>>, &'static str> {
    for place in order {
        if *place >= seats.len() {
            return Err("there is no such seat");
        }
        let seat = post_next(rt, desk, seats.remove(*place));
        let Ok(()) = seats.insert(*place, seat) else {
            return Err("a seat is put back");
        };
    }
    Ok(seats)
}

/// Posts the next lines of the seat, up to so many.
fn post_first<'a, L: Posts, R: Wait>(
    rt: &R,
    desk: &Desk<'a, L>,
    mut seat: TapSeat<'a, L>,
    most: usize,
) -> TapSeat<'a, L> {
    for _ in 0..most {
        seat = post_next(rt, desk, seat);
    }
    seat
}

/// Posts these lines from the last seat.
fn post_each<'a, L: Posts, R: Wait>(
    rt: &R,
    desk: &Desk<'a, L>,
    mut seats: Vec<TapSeat<'a, L>>,
    posts: &[(&'a [u8], Option<PostFault>)],
) -> Result<Vec<TapSeat<'a, L>>, &'static str> {
    let Some(mut seat) = seats.pop() else {
        return Err("there is no seat");
    };
    for (line, refused) in posts {
        let (back, fault) = match desk.post(rt, seat, *line) {
            Ok(back) => (back, None),
            Err((back, fault)) => (back, Some(fault)),
        };
        if fault != *refused {
            return Err("a post went otherwise");
        }
        seat = back;
    }
    match seats.push(seat) {
        Ok(()) => Ok(seats),
        Err(_) => Err("a seat is put back"),
    }
}

/// Closes the desk over its seats, two or more. It refuses them in another order, and hands them back.
fn closed<'a, L: Posts>(
    desk: Desk<'a, L>,
    mut seats: Vec<TapSeat<'a, L>>,
) -> Result<Posted<'a>, &'static str> {
    if seats.len() < 2 {
        return Err("there are two seats");
    }
    seats.swap(0, 1);
    match desk.close(seats) {
        Ok(_) => Err("seats out of order are refused"),
        Err(Strayed { desk, mut seats }) => {
            if seats.len() < 2 {
                return Err("the seats come back");
            }
            seats.swap(0, 1);
            match desk.close(seats) {
                Ok(posted) => Ok(posted),
                Err(_) => Err("seats in order are taken"),
            }
        }
    }
}

/// What is posted at the desk, where it reads back from each seat what was posted there.
fn posted<'a, L: Posts + Send + Sync, R: Threads + Wait + Sync>(
    rt: &R,
    alloc: Global,
    desk: Desk<'a, L>,
    seats: Vec<TapSeat<'a, L>>,
    way: &Way<'_, 'a>,
) -> Result<Posted<'a>, &'static str> {
    let shared = &desk;
    let seats = match way {
        Way::InOrder(order) => post_in_order(rt, shared, seats, order)?,
        Way::ByThreads(most) => match map_vec(
            rt,
            seats,
            &|seat| post_first(rt, shared, seat, *most),
        ) {
            Ok(seats) => seats,
            Err(_) => return Err("threads post"),
        },
        Way::Each(posts) => post_each(rt, shared, seats, posts)?,
    };
    for seat in &seats {
        match desk.read_back(rt, alloc, seat) {
            Ok(lines) if lines.as_slice() == seat.lines() => {}
            _ => return Err("the lines are read back"),
        }
    }
    closed(desk, seats)
}

/// Opens a desk, posts there, and closes it.
fn open<'a, L: Posts + Send + Sync, R: Threads + Wait + Sync>(
    rt: &R,
    alloc: Global,
    blank: Blank,
    names: &[&'a str],
    way: &Way<'_, 'a>,
) -> Result<Result<Posted<'a>, &'static str>, DeskFault>
    requires name { blank.name ≡ L.name }
    requires parts { (blank.parts ≡ L.parts) × (blank.parts ≡ length names.now)
        × (L.count ≡ length names.now) }
{
    let (desk, seats) = Desk::<L>::new(alloc, blank, names)?;
    Ok(posted(rt, alloc, desk, seats, way))
}

/// What is posted at a desk over taps of these names, where it is opened.
pub fn at_desk<'a, R: Threads + Wait + Sync>(
    rt: &R,
    alloc: Global,
    names: &[&'a str],
    way: &Way<'_, 'a>,
) -> Result<Result<Posted<'a>, &'static str>, DeskFault> {
    open::<Brand, R>(rt, alloc, Blank::new(names.len() as u64), names, way)
}

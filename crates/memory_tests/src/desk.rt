//! The calls at a desk.
ghost use Rattle.std.specs.Prelude.{◌≡◌, length};

use crate::counted::{begin, end};
use crate::given::{Given, memory_if};
use aud_book::{BackFault, Book, Desk, DeskFault, PostFault, Posts, TapSeat};
use std::alloc::{AllocError, Global};
use std::marker::Brand;
use std::sync::Wait;
use std::sync::ledger::Blank;

/// A call at a desk, or on a book.
pub enum AtDesk {
    Append,
    New,
    Post,
    ReadBack,
}

static NAMES: [&str; 3] = ["st", "a", "c1"];

static LINES: [&[u8]; 6] = [b"one", b"two", b"three", b"four", b"five", b"six"];

/// Makes the call.
pub fn given<R: Wait>(rt: &R, alloc: Global, call: &AtDesk) -> Given {
    match call {
        AtDesk::Append => append(alloc),
        _ => at_desk::<Brand, R>(rt, alloc, Blank::new(3), &NAMES, call),
    }
}

/// Whether the places that were given count from 0 on.
fn are_in_turn(places: &[Result<usize, AllocError>]) -> bool {
    let mut next = 0usize;
    for place in places {
        let Ok(place) = place else { continue };
        if *place != next {
            return false;
        }
        next = next.saturating_add(1);
    }
    true
}

/// Enters six lines. Where one is refused, the next has its place.
fn append(alloc: Global) -> Given {
    let Ok(mut book) = Book::new(alloc, &NAMES) else {
        return Given::Wrong("there is no book");
    };
    begin(alloc);
    let places = [
        book.append(0, b"one"),
        book.append(1, b"two"),
        book.append(2, b"three"),
        book.append(0, b"four"),
        book.append(0, b"five"),
        book.append(0, b"six"),
    ];
    end(alloc);
    match (are_in_turn(&places), book.len()) {
        (true, 6) => Given::Answer("lines", 6),
        (is_well, len) => memory_if(is_well && len == 5, "the next line has another place"),
    }
}

/// Opens a desk, and makes the call there.
fn at_desk<'a, L: Posts, R: Wait>(
    rt: &R,
    alloc: Global,
    blank: Blank,
    names: &[&'a str],
    call: &AtDesk,
) -> Given
    requires name { blank.name ≡ L.name }
    requires parts { (blank.parts ≡ L.parts) × (blank.parts ≡ length names.now)
        × (L.count ≡ length names.now) }
{
    if matches!(call, AtDesk::New) {
        begin(alloc);
    }
    let opened = Desk::<L>::new(alloc, blank, names);
    end(alloc);
    match opened {
        Ok((desk, seats)) => at_open_desk(rt, alloc, &desk, seats, call),
        Err(DeskFault::Memory) => Given::Memory,
        Err(DeskFault::Names) => Given::Wrong("the names are refused"),
    }
}

/// Makes the call from the last seat.
fn at_open_desk<'a, L: Posts, R: Wait>(
    rt: &R,
    alloc: Global,
    desk: &Desk<'a, L>,
    mut seats: Vec<TapSeat<'a, L>>,
    call: &AtDesk,
) -> Given {
    let count = seats.len();
    match (call, seats.pop()) {
        (AtDesk::New, _) => Given::Answer("seats", count),
        (AtDesk::Post, Some(seat)) => post(rt, alloc, desk, seat),
        (_, Some(seat)) => read_back(rt, alloc, desk, seat),
        (_, None) => Given::Wrong("there is no seat"),
    }
}

/// Posts the lines in turn, up to the first that is refused.
fn post_all<'a, L: Posts, R: Wait>(
    rt: &R,
    desk: &Desk<'a, L>,
    seat: TapSeat<'a, L>,
) -> (TapSeat<'a, L>, Option<PostFault>) {
    let mut seat = seat;
    for line in &LINES {
        match desk.post(rt, seat, *line) {
            Ok(back) => seat = back,
            Err((back, fault)) => return (back, Some(fault)),
        }
    }
    (seat, None)
}

/// Whether these are the first lines, so many.
fn are_first(lines: &[&[u8]], count: usize) -> bool {
    let mut first = LINES.iter();
    for line in lines {
        match first.next() {
            Some(it) if *it == *line => {}
            _ => return false,
        }
    }
    lines.len() == count
}

/// Whether the book has the first lines, as many as were posted from the seat.
fn has_posted<'a, L: Posts, R: Wait>(
    rt: &R,
    alloc: Global,
    desk: &Desk<'a, L>,
    seat: &TapSeat<'a, L>,
) -> bool {
    match desk.read_back(rt, alloc, seat) {
        Ok(back) => are_first(&back, seat.lines().len()),
        Err(_) => false,
    }
}

/// Whether seat and book are as they were, and the same post then succeeds.
fn posts_again<'a, L: Posts, R: Wait>(
    rt: &R,
    alloc: Global,
    desk: &Desk<'a, L>,
    seat: TapSeat<'a, L>,
    lines: &[&'a [u8]],
) -> bool {
    let posted = seat.lines().len();
    let is_well = has_posted(rt, alloc, desk, &seat);
    let Some(line) = lines.get(posted) else {
        return false;
    };
    match desk.post(rt, seat, *line) {
        Ok(seat) => {
            let is_posted = seat.lines().len() == posted + 1;
            is_well && is_posted && has_posted(rt, alloc, desk, &seat)
        }
        Err(_) => false,
    }
}

fn post<'a, L: Posts, R: Wait>(
    rt: &R,
    alloc: Global,
    desk: &Desk<'a, L>,
    seat: TapSeat<'a, L>,
) -> Given {
    begin(alloc);
    let (seat, fault) = post_all(rt, desk, seat);
    end(alloc);
    match fault {
        None => Given::Answer("lines", seat.lines().len()),
        Some(PostFault::Memory) => {
            let is_well = posts_again(rt, alloc, desk, seat, &LINES);
            memory_if(is_well, "the same post doesn't succeed")
        }
        Some(_) => Given::Wrong("a line is refused"),
    }
}

fn read_back<'a, L: Posts, R: Wait>(
    rt: &R,
    alloc: Global,
    desk: &Desk<'a, L>,
    seat: TapSeat<'a, L>,
) -> Given {
    let (seat, _) = post_all(rt, desk, seat);
    begin(alloc);
    let back = desk.read_back(rt, alloc, &seat);
    end(alloc);
    match back {
        Ok(lines) => Given::Answer("lines", lines.len()),
        Err(BackFault::Memory) => {
            let is_well = has_posted(rt, alloc, desk, &seat);
            memory_if(is_well, "the lines are others")
        }
        Err(BackFault::Strayed) => Given::Wrong("the lines are the seat's"),
    }
}

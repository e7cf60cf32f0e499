//! A desk at which threads post lines.
ghost use Rattle.std.specs.Prelude.{◌≡◌, ◌≢◌, ◌+◌, ◌<◌, false, [], ◌∷◌, ◌++◌, IfOk, IfErr, OnOk, IsTrue, length, map};
ghost use Rattle.aud_book.specs.History.{IsMergingOf, texts, pairs};
ghost use Rattle.aud_book.specs.Taps.{seen_taps, unposted};
ghost use Rattle.aud_book.specs.Names.{are_desk_names};
ghost use Rattle.aud_book.specs.Refusals.{refusal};

use crate::book::Book;
use crate::fault::{BackFault, DeskFault, PostFault};
use crate::limits::refusal;
use crate::names::are_desk_names;
use crate::posted::Posted;
use crate::posts::Posts;
use crate::seat::{TapSeat, empty_seat};
use crate::shelf::Shelf;
use std::alloc::{AllocError, Global};
use std::sync::ledger::Blank;
use std::sync::{Mutex, Wait};

/// A book that threads share. Each tap has a seat, from which alone its lines are posted.
#[derive(Drop)]
pub struct Desk<'a, L: Posts> {
    shelf: Mutex<Shelf<'a, L>>,
}

/// The seats weren't all those of the desk, in the order of its taps. Both are handed back as they were.
#[derive(Drop)]
pub struct Strayed<'a, L: Posts> {
    pub desk: Desk<'a, L>,
    pub seats: Vec<TapSeat<'a, L>>,
}

impl<'a, L: Posts> Desk<'a, L> {
    ghost use Rattle.aud_book.specs.Seats.{seen_seats, lines_of, counted_of, IsOfSameTap, IsUnchanged};

    /// A desk, and an empty seat for each name, in their order. The names are borrowed, and are those of taps: 1 to
    /// 4,161, each once. The blank ledger has as many parts as there are names; a refusal doesn't hand it back.
    pub fn new(
        alloc: Global,
        blank: Blank,
        names: &[&'a str],
    ) -> Result<(Desk<'a, L>, Vec<TapSeat<'a, L>>), DeskFault>
        requires name { blank.name ≡ L.name }
        requires parts { blank.parts ≡ L.parts }
        requires count { 0 < length names.now
            → (blank.parts ≡ length names.now) × (L.count ≡ length names.now) }
        ensures seats { IfOk result (λ r. seen_seats r.1.items ≡ map unposted names.now) }
        ensures ok { IfOk result (λ _. IsTrue (are_desk_names (texts names.now))) }
        ensures names { IfErr result (λ e. e ≢ DeskFault.Memory
            → are_desk_names (texts names.now) ≡ false) }
        ensures memory { IfErr result (λ e. e ≡ DeskFault.Memory
            → IsTrue (are_desk_names (texts names.now))) }
    {
        if !are_desk_names(names) {
            return Err(DeskFault::Names);
        }
        match Self::open(alloc, blank, names) {
            Ok(opened) => Ok(opened),
            Err(_) => Err(DeskFault::Memory),
        }
    }

    /// A desk and its seats.
    fn open(
        alloc: Global,
        blank: Blank,
        names: &[&'a str],
    ) -> Result<(Desk<'a, L>, Vec<TapSeat<'a, L>>), AllocError>
        requires name { blank.name ≡ L.name }
        requires parts { blank.parts ≡ L.parts }
        requires count { (blank.parts ≡ length names.now) × (L.count ≡ length names.now) }
        ensures seats { IfOk result (λ r. seen_seats r.1.items ≡ map unposted names.now) }
    {
        let count = names.len();
        let book = Book::new(alloc, names)?;
        let mut seats = Vec::with_capacity(alloc, count)?;
        let (tally, mut rest) = blank.open::<L>();
        for place in 0..count {
            let share = rest.split_off(1, 0);
            seats.push(empty_seat(alloc, place, names[place], share))?;
        }
        let shelf = Mutex::new(Shelf { book, tally });
        Ok((Desk { shelf }, seats))
    }

    /// Posts a line from a seat, which comes back with it. The bytes are the line without the tap's name and the blank
    /// after it, and are borrowed until the desk is closed.
    ///
    /// A line that is too long, has a newline in it, or is one too many is refused by the first of these reasons, and
    /// else only when out of memory; after a refusal the seat and the book are as they were. It waits while another
    /// thread posts or reads back.
    pub fn post<R: Wait>(
        &self,
        rt: &R,
        seat: TapSeat<'a, L>,
        line: &'a [u8],
    ) -> Result<TapSeat<'a, L>, (TapSeat<'a, L>, PostFault)>
        ensures line { IfOk result (λ s. lines_of s ≡ lines_of seat.entry ++ line.now ∷ []) }
        ensures counted { IfOk result (λ s. counted_of s ≡ counted_of seat.entry + 1) }
        ensures tap { IfOk result (λ s. IsOfSameTap seat.entry s) }
        ensures unchanged { IfErr result (λ e. IsUnchanged seat.entry e.0) }
        ensures taken { OnOk result (refusal seat.entry.name.now
            (length (lines_of seat.entry)) line.now ≡ None) }
        ensures refused { IfErr result (λ e. e.1 ≢ PostFault.Memory
            → refusal seat.entry.name.now (length (lines_of seat.entry)) line.now ≡ Some e.1) }
        ensures memory { IfErr result (λ e. e.1 ≡ PostFault.Memory
            → refusal seat.entry.name.now (length (lines_of seat.entry)) line.now ≡ None) }
    {
        match refusal(seat.name, seat.lines.len(), line) {
            Some(fault) => Err((seat, fault)),
            None => self
                .shelf
                .lock(rt)
                .enter(seat, line)
                .map_err(|seat| (seat, PostFault::Memory)),
        }
    }

    /// The lines that were posted from the seat, in their order, as the book has them, in a list of their own. It waits
    /// while another thread posts or reads back.
    pub fn read_back<R: Wait>(
        &self,
        rt: &R,
        alloc: Global,
        seat: &TapSeat<'a, L>,
    ) -> Result<Vec<&'a [u8]>, BackFault>
        ensures { IfOk result (λ v. texts v.items ≡ lines_of seat.now) }
    {
        self.shelf.lock(rt).read_back(alloc, seat)
    }

    /// Ends the posting: the taps are the names and lines of all seats, and the history is a merging of these lines. No
    /// memory is asked for, and nothing is copied.
    ///
    /// It is refused where the seats aren't all those of the desk, in the order of its taps; desk and seats come back.
    pub fn close(self, seats: Vec<TapSeat<'a, L>>) -> Result<Posted<'a>, Strayed<'a, L>>
        ensures taps { IfOk result (λ p. seen_taps p.taps.items ≡ seen_seats seats.entry.items) }
        ensures history { IfOk result (λ p. IsMergingOf (seen_seats seats.entry.items)
            (pairs p.history.items)) }
        ensures back { IfErr result (λ s. s.seats ≡ seats.entry) }
    {
        let Desk { shelf } = self;
        match shelf.into_inner().close(seats) {
            Ok(posted) => Ok(posted),
            Err((shelf, seats)) => {
                let shelf = Mutex::new(shelf);
                Err(Strayed {
                    desk: Desk { shelf },
                    seats,
                })
            }
        }
    }
}

//! What lies under a desk's lock.
ghost use Rattle.std.specs.Prelude.{◌≡◌, ◌≢◌, ◌+◌, ◌<◌, true, false, [], ◌∷◌, ◌++◌, IfOk, IfErr, OnOk, OnErr, vec_len};
ghost use Rattle.aud_book.specs.History.{IsMergingOf, pairs, lines_at, texts};
ghost use Rattle.aud_book.specs.Taps.{seen, seen_taps};
ghost use Rattle.aud_book.specs.declared.fault.BackFault.{BackFault};

use crate::book::{Book, TapLines, is_tap_of};
use crate::fault::BackFault;
use crate::lines::same_lines;
use crate::posted::Posted;
use crate::posts::Posts;
use crate::seat::TapSeat;
use std::alloc::{AllocError, Global};
use std::sync::ledger;
use std::sync::ledger::Share;

/// The book, and beside it the ledger's, whose total is the number of lines of the history.
#[derive(Drop)]
pub struct Shelf<'a, L: Posts> {
    pub(crate) book: Book<'a>,
    pub(crate) tally: ledger::Book<L>,
    ghost counted: { vec_len book.history ≡ tally.total },
    ghost all_taps: { vec_len book.taps ≡ L.count },
}

impl<'a, L: Posts> Shelf<'a, L> {
    ghost use Rattle.aud_book.specs.Seats.{seen_seat, seen_seats, AreInOrder, lines_of, counted_of, IsOfSameTap, IsUnchanged};

    /// Adds a line to a tap, and counts it in the poster's share.
    fn append(
        &mut self,
        place: usize,
        line: &'a [u8],
        mine: &mut Share<L>,
    ) -> Result<(), AllocError>
        requires place { place < L.count }
        requires part { 0 < mine.old.parts }
        ensures ok { OnOk result (mine.new.amount ≡ mine.old.amount + 1) }
        ensures err { OnErr result (mine.new.amount ≡ mine.old.amount) }
        ensures parts { mine.new.parts ≡ mine.old.parts }
        ensures history { OnOk result (pairs self.new.book.history.items
            ≡ pairs self.old.book.history.items ++ (place, line.now) ∷ []) }
        ensures same { OnErr result (pairs self.new.book.history.items
            ≡ pairs self.old.book.history.items) }
    {
        let Shelf { book, tally } = self;
        book.append(place, line)?;
        tally.add(mine, 1);
        Ok(())
    }

    /// Enters a line: it is the last of the seat's and the last of the history, under the seat's tap. Where memory runs
    /// out the seat is handed back.
    pub fn enter(
        &mut self,
        seat: TapSeat<'a, L>,
        line: &'a [u8],
    ) -> Result<TapSeat<'a, L>, TapSeat<'a, L>>
        ensures line { IfOk result (λ s. lines_of s ≡ lines_of seat.entry ++ line.now ∷ []) }
        ensures counted { IfOk result (λ s. counted_of s ≡ counted_of seat.entry + 1) }
        ensures tap { IfOk result (λ s. IsOfSameTap seat.entry s) }
        ensures unchanged { IfErr result (λ s. IsUnchanged seat.entry s) }
        ensures history { OnOk result (pairs self.new.book.history.items
            ≡ pairs self.old.book.history.items ++ (seat.entry.place, line.now) ∷ []) }
        ensures same { OnErr result (pairs self.new.book.history.items
            ≡ pairs self.old.book.history.items) }
    {
        let TapSeat {
            place,
            name,
            mut lines,
            mut share,
        } = seat;
        if lines.reserve(1).is_err() {
            return Err(TapSeat {
                place,
                name,
                lines,
                share,
            });
        }
        let added = self.append(place, line, &mut share);
        if added.is_err() {
            return Err(TapSeat {
                place,
                name,
                lines,
                share,
            });
        }
        lines.push_reserved(line);
        Ok(TapSeat {
            place,
            name,
            lines,
            share,
        })
    }

    /// The lines that the book has for a seat's tap, in a list of their own. It is refused where they aren't the
    /// seat's.
    pub fn read_back(
        &self,
        alloc: Global,
        seat: &TapSeat<'a, L>,
    ) -> Result<Vec<&'a [u8]>, BackFault>
        ensures lines { IfOk result (λ v. texts v.items ≡ lines_of seat.now) }
        ensures strayed { IfErr result (λ e. e ≢ BackFault.Memory
            → lines_at (seen_taps self.now.book.taps.items) seat.now.place ≢ lines_of seat.now) }
    {
        let lines = self
            .book
            .lines_of(alloc, seat.place)
            .map_err(|_| BackFault::Memory)?;
        if same_lines(&lines, &seat.lines) {
            Ok(lines)
        } else {
            Err(BackFault::Strayed)
        }
    }
    /// Whether the seat is that of the tap at this place, with the same name and lines.
    fn is_seat_of(place: usize, tap: &TapLines<'a>, seat: &TapSeat<'a, L>) -> bool
        ensures same { result ≡ true → seen tap.now ≡ seen_seat seat.now }
        ensures other { result ≡ false → seat.now.place ≡ place
            → seen tap.now ≢ seen_seat seat.now }
    {
        seat.place == place && is_tap_of(tap, seat.name, &seat.lines)
    }

    /// Whether the seats are those of the taps, in their order, with the same names and lines.
    fn are_seats_of(taps: &[TapLines<'a>], seats: &[TapSeat<'a, L>]) -> bool
        ensures same { result ≡ true → seen_taps taps.now ≡ seen_seats seats.now }
        ensures other { result ≡ false → AreInOrder seats.now
            → seen_taps taps.now ≢ seen_seats seats.now }
    {
        if seats.len() != taps.len() {
            return false;
        }
        for i in 0..seats.len() {
            if !Self::is_seat_of(i, &taps[i], &seats[i]) {
                return false;
            }
        }
        true
    }

    /// What the book has, as it is, where the seats are those of its taps, in their order. Else all is handed back.
    pub fn close(
        self,
        seats: Vec<TapSeat<'a, L>>,
    ) -> Result<Posted<'a>, (Shelf<'a, L>, Vec<TapSeat<'a, L>>)>
        ensures taps { IfOk result (λ p. seen_taps p.taps.items ≡ seen_seats seats.entry.items) }
        ensures merging { IfOk result (λ p. IsMergingOf (seen_seats seats.entry.items)
            (pairs p.history.items)) }
        ensures history { IfOk result (λ p. p.history.items ≡ self.entry.book.history.items) }
        ensures back { IfErr result (λ b. (b.0 ≡ self.entry) × (b.1 ≡ seats.entry)) }
        ensures strayed { OnErr result (AreInOrder seats.entry.items
            → seen_taps self.entry.book.taps.items ≢ seen_seats seats.entry.items) }
    {
        if !Self::are_seats_of(&self.book.taps, &seats) {
            return Err((self, seats));
        }
        let Shelf { book, tally: _ } = self;
        let Book { taps, history } = book;
        Ok(Posted { taps, history })
    }
}

//! Tickets that threads draw, each once and none left out.
ghost use Rattle.std.specs.Prelude.{◌≡◌, ℕ, ◌+◌, ◌^◌, ◌<◌, ◌≤◌, true, false, [], ◌∷◌, ◌++◌, IfOk, IfSome, IfNone, vec_len};
ghost use Rattle.aud_desk.specs.Draws.{late_count, below, past_all};

use crate::seat_view::{Bound, SeatView};
use atomic_table::{Join, Play, Seat, Split, Table, TableRule};
use std::alloc::{AllocError, Global};

/// The rule of the tickets: one word, the next number, and the lists of the seats.
pub struct TicketRule;

impl TableRule<(), SeatView, Bound> for TicketRule {
    ghost use Rattle.aud_desk.specs.Tickets.{TicketLists, made};

    ghost holds = { λ k s. TicketLists k s };

    ghost first = { made };
}

/// A seat makes another, and hands it one of its passes.
struct NewSeat;

impl Split<SeatView> for NewSeat {
    ghost use Rattle.aud_desk.specs.Tickets.{one_pass_fewer, starts};

    ghost left = { one_pass_fewer };

    ghost right = { starts };
}

/// A seat draws the next number.
struct Claim;

impl Play<(), SeatView> for Claim {
    ghost use Rattle.aud_desk.specs.Tickets.{Claims};

    ghost then = { Claims };
}

/// A seat takes over what another drew, and its passes.
struct TakesOver;

impl Join<SeatView> for TakesOver {
    ghost use Rattle.aud_desk.specs.Tickets.{joined, ended};

    ghost both = { joined };

    ghost spent = { ended };
}

/// The right to draw. It remembers what it drew, at no cost, and whether it was told that there is none left.
#[derive(Drop)]
pub struct TicketSeat {
    seat: Seat<(), SeatView>,
    over: bool,
    ghost no_slot: { seat.me.1 ≡ [] },
    ghost live: { seat.me.0.live ≡ true },
    ghost one_pass: { over ≡ false → seat.me.0.passes ≡ 1 },
    ghost past: { over ≡ true → 0 < late_count seat.me.0.n seat.me.0.drawn },
}

/// The numbers below `n`, for a number of seats. They are counted from 0.
#[derive(Drop)]
pub struct Tickets {
    table: Table<(), SeatView, Bound, TicketRule, Global>,
    n: usize,
    seats: usize,
    ghost one_word: { table.shared.table_id.words ≡ 1 },
    ghost no_slots: { table.shared.table_id.slots ≡ 0 },
    ghost key: { (table.shared.key.n ≡ n) × (table.shared.key.seats ≡ seats) },
    ghost some_seat: { 0 < seats },
}

/// Several seats, made one.
#[derive(Drop)]
pub struct Gathered {
    seat: Seat<(), SeatView>,
    ghost no_slot: { seat.me.1 ≡ [] },
    ghost live: { seat.me.0.live ≡ true },
}

/// A seat that was not told yet that there is none left.
fn seated(seat: Seat<(), SeatView>) -> TicketSeat
    requires { (seat.me.1 ≡ []) × (seat.me.0.live ≡ true) × (seat.me.0.passes ≡ 1) }
    ensures { (result.seat ≡ seat) × (result.over ≡ false) }
{
    TicketSeat { seat, over: false }
}

impl Tickets {
    ghost use Rattle.aud_desk.specs.Views.{drawn, IsSeatOf, all_drawn, IsAllOf};
    ghost use Rattle.aud_desk.specs.Draws.{times};
    ghost use Rattle.std.specs.Prelude.{All};

    /// Tickets for the numbers below `n`, with their seats, 1 to 64, which have drawn nothing.
    pub fn new(
        alloc: Global,
        n: usize,
        seats: usize,
    ) -> Result<(Tickets, Vec<TicketSeat>), AllocError>
        requires seats { (0 < seats) × (seats ≤ 64) }
        requires room { n + 64 < 2 ^ 64 }
        ensures counts { IfOk result (λ r. (r.0.n ≡ n) × (r.0.seats ≡ seats)
            × (vec_len r.1 ≡ seats)) }
        ensures fresh { IfOk result (λ r. All (λ s. IsSeatOf r.0 s × (drawn s ≡ [])) r.1.items) }
    {
        let about = Bound {
            n: n as u64,
            seats: seats as u64,
        };
        let (table, mut first) = Table::of_words(alloc, &[0], &about)?;
        let mut all = Vec::with_capacity(alloc, seats)?;
        for _ in 1..seats {
            let next = table.shared.split_seat::<NewSeat>(&mut first);
            all.push(seated(next))?;
        }
        all.push(seated(first))?;
        Ok((Tickets { table, n, seats }, all))
    }

    /// How many numbers there are.
    pub fn count(&self) -> usize
        ensures { result ≡ self.now.n }
    {
        self.n
    }

    /// The next number below `n`, which no seat has drawn; or none, where each of them was drawn. A seat that got none
    /// makes no further step and gets none again. It never waits.
    pub fn claim(&self, held: TicketSeat) -> (Option<usize>, TicketSeat)
        requires { IsSeatOf self.now held }
        ensures same { IsSeatOf self.now result.1 }
        ensures some { IfSome result.0 (λ x. (x < self.now.n)
            × (drawn result.1 ≡ drawn held ++ x ∷ []) × (past_all (drawn held) ≤ x)) }
        ensures none { IfNone result.0
            ((below self.now.n (drawn result.1) ≡ below self.now.n (drawn held))
            × (0 < late_count self.now.n (drawn result.1))) }
        ensures over { IfNone result.0 (result.1.over ≡ true) }
        ensures again { held.over ≡ true → (result.0 ≡ None) × (result.1 ≡ held) }
    {
        if held.over {
            return (None, held);
        }
        let TicketSeat { mut seat, over: _ } = held;
        let x = self.table.shared.fetch_add::<Claim>(&mut seat, 0, 1);
        if x < self.n as u64 {
            (Some(x as usize), TicketSeat { seat, over: false })
        } else {
            (None, TicketSeat { seat, over: true })
        }
    }

    /// The first seat to be gathered.
    pub(crate) fn gather_first(held: TicketSeat) -> Gathered
        ensures { result.seat ≡ held.seat }
    {
        let TicketSeat { seat, over: _ } = held;
        Gathered { seat }
    }

    /// Takes in one seat more.
    pub(crate) fn gather_next(&self, all: &mut Gathered, held: TicketSeat)
        requires all { IsAllOf self.now all.old }
        requires held { IsSeatOf self.now held }
        ensures all { IsAllOf self.now all.new }
        ensures drawn { all_drawn all.new ≡ all_drawn all.old ++ drawn held }
    {
        let TicketSeat { seat, over: _ } = held;
        self.table
            .shared
            .join_seat::<TakesOver>(&mut all.seat, seat);
    }

    /// Once as many numbers from `n` on were drawn as there are seats, each number below `n` was drawn once.
    pub(crate) fn close(self, all: Gathered)
        requires all { IsAllOf self all }
        requires enough { self.seats ≤ late_count self.n (all_drawn all) }
        ensures { (i : ℕ) → i < self.n → times i (all_drawn all) ≡ 1 }
    {
        let Tickets {
            table,
            n: _,
            seats: _,
        } = self;
        let Gathered { seat } = all;
        table.close_with(seat).free();
    }
}

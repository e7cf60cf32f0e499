//! What the rule of the tickets means, over the definitions alone. This function does nothing: its contract is the law.
ghost use Rattle.std.specs.Prelude.{◌≡◌, ℕ, ◌+◌, ◌<◌, ◌≤◌};
ghost use Rattle.std.specs.List.{Contains};
ghost use Rattle.atomic_table.specs.Table.{State};
ghost use Rattle.aud_desk.specs.declared.seat_view.Bound.{Bound};
ghost use Rattle.aud_desk.specs.declared.seat_view.SeatView.{SeatView};
ghost use Rattle.aud_desk.specs.Draws.{times};
ghost use Rattle.aud_desk.specs.Tickets.{TicketLists, IsSeatAt, next_number};

/// What holds at any time, as long as each step keeps the rule, whichever seats take the steps. The word is the next
/// number to be drawn.
pub fn drawn_once()
    // No number is drawn by two seats.
    ensures apart { (k : Bound) (s : State (Unit {0}) SeatView) (i j x : ℕ) (v w : SeatView)
        → TicketLists k s → IsSeatAt s i v → IsSeatAt s j w → Contains v.drawn x
        → Contains w.drawn x → i ≡ j }
    // None is drawn twice by one seat.
    ensures once { (k : Bound) (s : State (Unit {0}) SeatView) (i x : ℕ) (v : SeatView)
        → TicketLists k s → IsSeatAt s i v → times x v.drawn ≤ 1 }
    // The numbers that were drawn are those below the word.
    ensures below { (k : Bound) (s : State (Unit {0}) SeatView) (i x : ℕ) (v : SeatView)
        → TicketLists k s → IsSeatAt s i v → Contains v.drawn x → x < next_number s }
    ensures drawn { (k : Bound) (s : State (Unit {0}) SeatView) (x : ℕ) → TicketLists k s
        → x < next_number s → (i : ℕ) × (v : SeatView) × IsSeatAt s i v × Contains v.drawn x }
    // Once a seat has drawn a number from the end on, each number below the end is in some seat's list.
    ensures all { (k : Bound) (s : State (Unit {0}) SeatView) (i past x : ℕ) (v : SeatView)
        → TicketLists k s → IsSeatAt s i v → Contains v.drawn past → k.n ≤ past → x < k.n
        → (j : ℕ) × (w : SeatView) × IsSeatAt s j w × Contains w.drawn x }
    // No more numbers from the end on are drawn than there are seats.
    ensures bounded { (k : Bound) (s : State (Unit {0}) SeatView) → TicketLists k s
        → next_number s ≤ k.n + k.seats }
{}

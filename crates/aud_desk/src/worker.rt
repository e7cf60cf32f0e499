//! What a worker hands back.
ghost use Rattle.std.specs.Prelude.{◌≡◌, ◌<◌, map};
ghost use Rattle.aud_desk.specs.Draws.{late_count, below};

use crate::entry::Entry;
use crate::tickets::TicketSeat;

/// A seat that drew until there was none, with an entry for each index that it drew, in that order.
#[derive(Drop)]
pub struct Worker {
    pub(crate) seat: TicketSeat,
    pub(crate) entries: Vec<Entry>,
    ghost past: { 0 < late_count seat.seat.me.0.n seat.seat.me.0.drawn },
    ghost each: { map (λ e. e.index) entries.items ≡ below seat.seat.me.0.n seat.seat.me.0.drawn },
}

impl Worker {
    /// A worker that was told that there is none left.
    pub(crate) fn done(seat: TicketSeat, entries: Vec<Entry>) -> Worker
        requires past { 0 < late_count seat.seat.me.0.n seat.seat.me.0.drawn }
        requires each { map (λ e. e.index) entries.items
            ≡ below seat.seat.me.0.n seat.seat.me.0.drawn }
        ensures { (result.seat ≡ seat) × (result.entries ≡ entries) }
    {
        Worker { seat, entries }
    }

    /// The entries, by ascending index.
    pub fn entries(&self) -> &[Entry]
        ensures { result.now ≡ self.now.entries.items }
    {
        self.entries.as_slice()
    }
}

//! The sessions, shared out among workers: each draws the index of a session from the tickets, decides it, and keeps
//! the entry; at the end the entries of all are gathered.
#![tactic(auto)]

mod at_once;
mod at_work;
mod audit;
mod decide;
mod entry;
mod fault;
mod gate;
mod laws;
mod seat_view;
mod slots;
mod tickets;
mod worker;

pub use at_work::work;
pub use audit::{Report, audit_with};
pub use entry::Entry;
pub use fault::AuditFault;
pub use gate::{Gate, OpenGate};
pub use laws::drawn_once;
pub use slots::gather;
pub use tickets::{TicketSeat, Tickets};
pub use worker::Worker;

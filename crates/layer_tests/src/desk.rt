//! Tests of what stands around a verdict: the workers (tickets drawn in turn, one worker's entries, reports by 1, 2
//! and 64 workers, a gate that shows that two are at work at once), the desk that takes posts (what is posted and
//! refused, the history, seats out of order, a bundle that three threads post), and the tap of a socket, over memory
//! and over loopback.

mod bundle;
mod desks;
mod posted;
mod reports;
mod sockets;
mod workers;

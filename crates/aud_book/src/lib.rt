//! A desk at which the threads of a service post the lines of its taps while the cluster runs, and the book that it
//! keeps: each tap's lines, and the order in which all lines came.
//!
//! Begin at [`Desk`]. Each tap has one seat, which a thread gives to [`Desk::post`] with a line, and gets back with it.
//! At the end [`Desk::close`] takes all seats, and gives what was posted; [`read_posted`] reads its taps, which
//! `aud_client::Recording::read` and `aud_desk::audit_with` take as those of a file.
//!
//! Two threads that post the lines of a stream and of a node, of which a line or more may be refused:
//!
//! ```text
//! fn post_all<'a, L: Posts, R: Wait>(
//!     rt: &R,
//!     desk: &Desk<'a, L>,
//!     seat: TapSeat<'a, L>,
//!     lines: &[&'a [u8]],
//! ) -> Result<TapSeat<'a, L>, PostFault> {
//!     let mut seat = seat;
//!     for line in lines {
//!         match desk.post(rt, seat, *line) {
//!             Ok(back) => seat = back,
//!             Err((_, fault)) => return Err(fault),
//!         }
//!     }
//!     Ok(seat)
//! }
//!
//! let (desk, mut seats) = Desk::<L>::new(alloc, blank, &["st", "a"])?;
//! let (node, stream) = (seats.pop()?, seats.pop()?);
//! let shared = &desk;
//! let (stream, node) = join(
//!     rt,
//!     move || post_all(rt, shared, stream, stream_lines),
//!     move || post_all(rt, shared, node, node_lines),
//! );
//! seats.push(stream?)?;
//! seats.push(node?)?;
//! let taps = read_posted(alloc, keys, &desk.close(seats)?)?;
//! ```
//!
//! Code that opens a desk is generic over `L: Posts`: docs/EMBED.md says how it is called, and the rest that whoever
//! embeds the auditor needs.
#![tactic(auto)]

mod book;
mod desk;
mod fault;
mod limits;
mod lines;
mod names;
mod posted;
mod posts;
mod seat;
mod shelf;

pub use book::{Book, TapLines};
pub use desk::{Desk, Strayed};
pub use fault::{BackFault, DeskFault, PostFault};
pub use posted::{Posted, read_posted};
pub use posts::Posts;
pub use seat::TapSeat;

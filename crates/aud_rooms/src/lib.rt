//! Whom an entry is addressed to, which rooms a session holds between which positions, and what is due to it by that.
//!
//! A session that is in `r` at positions 2 and 3 and in `q` at 4, over a `stream` of four events for `r`:
//!
//! ```
//! use aud_rooms::{SpanBuilder, due_of};
//!
//! let mut builder = SpanBuilder::new(alloc, "s1", 0)?;
//! builder.upto(1)?;
//! builder.join("r")?;
//! builder.upto(3)?;
//! builder.leave("r")?;
//! builder.join("q")?;
//! builder.upto(4)?;
//! let spans = builder.finish()?; // q 4..4, r 2..3, s1 1..4
//! assert_eq!(rt; spans.len(), 3);
//! let due = due_of(alloc, &spans, stream, "/", 0, 4)?;
//! assert_eq!(rt; due.as_slice(), [2, 3].as_slice());
//! ```
#![tactic(auto)]

mod addressee;
mod builder;
mod building;
mod candidates;
mod cut;
mod due;
mod holding;
mod interval;
mod laws;
mod merge;
mod room_set;
mod room_spans;
mod span;
mod turn_place;
mod turn_spans;

pub use addressee::addressed;
pub use builder::SpanBuilder;
pub use due::due_of;
pub use laws::{due_by_spans_of_turns, spans_are_unique};
pub use room_set::RoomSet;
pub use span::Span;
pub use turn_place::TurnPlace;
pub use turn_spans::spans_of_turns;

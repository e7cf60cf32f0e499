//! What the recording says of a session: the account of it, the recoveries that its clients asked for, where it reached
//! a position, what does not fit in its chain of turns, and the rows that show its fault. Explanations go by these facts.
//!
//! [`account_of`] tells what a client received of a session, what was due to it, and what is wrong first. With the
//! `recording` of a session `P` to which two events were due, and whose client received the first of them twice:
//!
//! ```
//! use aud_check::{Difference, Finding};
//! use aud_session_facts::account_of;
//!
//! let account = account_of(alloc, recording, "P")?.ok_or("P has no certificate")?;
//! assert_eq!(rt; account.due.as_slice(), &[1, 2]);
//! let again = Difference::Doubled { first: 0, again: 1, position: 1 };
//! assert_eq!(rt; account.found, Some(Finding::Delivery(again)));
//! ```
//!
//! [`recoveries`] tells which were granted and which were refused, and [`missed`] what a client missed where one was
//! refused. With the `recording` of a client that had received entry 1 of session `P`, asked for it again, and was given
//! a new session `Q` on a node that had taken entry 2:
//!
//! ```
//! use aud_session_facts::{missed, recoveries};
//!
//! let asked = recoveries(alloc, recording)?;
//! assert!(rt; !asked[0].granted);
//! let missed = missed(alloc, recording, asked[0].client, "P", "Q")?;
//! assert_eq!(rt; missed.ok_or("nothing is known")?.as_slice(), [2].as_slice());
//! ```
//!
//! [`first_reach`] tells where a session first reached a position of the stream, [`rooms_held`] which rooms it held
//! there, and [`why_not_due`] why the entry was not due. With the `recording` of a session `P` that joined room `r` by
//! record 4 of node `a`, at place 1, after the node had taken entry 2 by record 3, which is for `r`, and before it took
//! entry 5 by record 9, which excepts `r`:
//!
//! ```
//! use aud_session_facts::{NotDue, Reach, RoomChange, first_reach, last_change_of, rooms_held, why_not_due};
//!
//! let logs = recording.logs();
//! let cert = make(alloc, recording, "P")?;
//! let turns = cert.turns.as_slice();
//! assert_eq!(rt; first_reach(logs, turns, 2), Some(Reach { turn: 0, node: 1, number: 3 }));
//! assert_eq!(rt; rooms_held(alloc, &cert, 2)?.as_slice(), ["s1"].as_slice());
//! assert_eq!(rt; why_not_due(logs, &cert, 2), Some(NotDue::NoCommonRoom));
//! assert_eq!(rt; why_not_due(logs, &cert, 5), Some(NotDue::Excepted { room: "r" }));
//! let reach = first_reach(logs, turns, 5).ok_or("reached in no turn")?;
//! let joined = Some(RoomChange { node: 1, number: 4, joined: true });
//! assert_eq!(rt; last_change_of(logs, "P", turns, reach, "r"), joined);
//! ```
//!
//! [`first_misfit`] tells what does not fit in the records that begin or end a session's turns, on any node. With the
//! `logs` of two nodes, where `a` has the session's `open` and no `break`, and `b` its `back` of turn 1:
//!
//! ```
//! use aud_session_facts::{Misfit, RecordPlace, first_misfit};
//!
//! let misfit = first_misfit(alloc, logs, "P")?;
//! let begin = RecordPlace { node: 1, number: 1 };
//! let back = RecordPlace { node: 2, number: 3 };
//! assert_eq!(rt; misfit, Some(Misfit::MissingBreak { turn: 0, begin, back }));
//! ```
//!
//! [`stays_match`] tells whether it is known of which turn each stay is, [`stay_of_frame`] in which stay a frame came, and
//! [`ahead_of`] which turn had been ahead of one that began behind it.
//!
//! [`ShownSession`] is a session whose fault is shown: [`difference_rows`], [`altered_rows`] and [`window_rows`] give the
//! records that show it, on which lines, and what each says.
#![tactic(auto)]

mod account;
mod ahead;
mod asked;
mod astray;
mod at_place;
mod came;
mod change;
mod counts;
mod due;
mod endings;
mod held;
mod last;
mod loss;
mod marks;
mod misfit;
mod misfit_laws;
mod not_due;
mod opened;
mod opening;
mod place;
mod positions;
mod reach;
mod rooms;
mod search;
mod shown;
mod stay_turns;
mod verdict_law;

pub use account::{Account, account_of};
pub use ahead::ahead_of;
pub use asked::{Recovery, recoveries, stay_of};
pub use change::{RoomChange, last_change_of};
pub use counts::{granted, refused};
pub use held::spans_held;
pub use loss::missed;
pub use marks::{Mark, TurnMark, turn_marks};
pub use misfit::{Misfit, first_misfit};
pub use misfit_laws::misfit_breaks_the_chain;
pub use not_due::{NotDue, why_not_due};
pub use opened::{Opened, greatest_high, opened_in};
pub use place::RecordPlace;
pub use positions::positions_received;
pub use reach::{Reach, first_reach};
pub use rooms::rooms_held;
pub use shown::content::altered_rows;
pub use shown::difference::difference_rows;
pub use shown::frame_place::{FramePlace, frame_at};
pub use shown::node_records::{NodeRecord, node_rows};
pub use shown::pushed::{push_row, push_rows};
pub use shown::session::ShownSession;
pub use shown::window::window_rows;
pub use stay_turns::{asked_after, stay_of_frame, stays_match};
pub use verdict_law::verdict_is_found;

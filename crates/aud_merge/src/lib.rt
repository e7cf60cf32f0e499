//! The cluster as a machine: which lists of steps are runs, and what is due to a session in each of them.
//!
//! Begin at [`machine`], which says what a step does. The laws of [`laws`] say what the turns of a session tell of
//! every run. [`order`] finds a run of the logs, or the records that block every run.
//!
//! With the `logs` of `examples/bundle_a.jsonl`, where log 0 is the stream's and log 1 is node `a`'s:
//!
//! ```
//! use aud_merge::{Step, is_run};
//!
//! let entry = Step { log: 0, index: 0 };
//! let start = Step { log: 1, index: 0 };
//! let open = Step { log: 1, index: 1 };
//! let join = Step { log: 1, index: 2 };
//! let take = Step { log: 1, index: 3 };
//! assert!(rt; is_run(alloc, logs, &[entry, start, open, join, take])?);
//! assert!(rt; is_run(alloc, logs, &[start, open, join, entry, take])?);
//! // No node takes an entry before it is in the stream.
//! assert!(rt; !is_run(alloc, logs, &[start, open, join, take, entry])?);
//! ```
//!
//! A run of the same logs, as text:
//!
//! ```
//! use aud_merge::{order, order_text};
//!
//! let shown = order(alloc, logs)?;
//! let text = order_text(alloc, logs, &shown)?;
//! assert_eq!(rt; text.as_str(), "st 0\na 0\na 1\na 2\na 3\nsteps=5\n");
//! ```
#![tactic(auto)]

mod answer;
mod cause;
mod choice;
mod fronts;
mod laws;
mod machine;
mod order_laws;
mod progress;
mod run;
mod session;
mod sessions;
mod state;
mod step;
mod text;
mod waiting;
mod walk;

pub use answer::Order;
pub use choice::order;
pub use laws::{
    allowed_stays, due_by_turns, no_run_where_blocked, reach_by_turns, rooms_by_turns,
    session_by_turns,
};
pub use machine::{allowed, apply};
pub use order_laws::{allowed_steps_begin_runs, shown_is_one};
pub use run::{is_run, step_count};
pub use session::{At, OpenedSession};
pub use state::State;
pub use step::Step;
pub use text::order_text;

//! Laws that follow from the definitions of the crates below, and that none of them needs: the program doesn't use
//! them.
//!
//! The functions of this crate do nothing: their contracts are the laws.
//!
//! - [`recovery`]: what is promised of every run and of every accepted certificate is so promised of something.
//!   `specs/Recovery.antt` writes `examples/bundle_b.jsonl` out, in which a session is recovered, and a run of it.
//! - [`order`]: the order of lines doesn't matter, as long as each tap's lines keep theirs (`specs/Order.antt` says
//! what
//!   "the same but for their order" means).
//! - [`left_out`]: what may be left out of a recording, so that the verdicts on the other sessions stay: the nodes'
//!   records of some sessions, taps that don't tell of the others, and of the stream the entries that those don't
//!   need, which become `other`.
//! - [`parts`]: what a part of a recording tells of its sessions, and that the reports on the parts make the report on
//!   the whole.
//! - [`places`]: in which of several files a line stands.
//! - [`certified`]: what is proved is accepted: the text of a certificate that was made is read as that certificate.
//! - [`fault_rows`]: the record at which a fault shows is among the rows that `explain` writes of it.
//! - [`summary`]: each cause has a name of the table by which a summary counts causes.
//! - [`rewritten`]: taps that were read keep to all that a bundle's taps keep to, and upgraded ones too (`AreOfABundle`
//! of
//!   `aud_writer`'s `specs/OfABundle.antt`).
//!
//! Two taps, where the second line of the one stands before, and then after, the header of the other:
//!
//! ```
//! use aud_reader::{Splitter, read_bundle};
//! use std::hash::RandomState;
//!
//! let keys = RandomState::new(&rt)?;
//! let mut splitter = Splitter::new(alloc);
//! splitter.feed(br#"a {"k":"tap","v":1,"of":"node"}
//! a {"k":"start","off":null}
//! b {"k":"tap","v":1,"of":"client"}
//! "#)?;
//! let apart = read_bundle(alloc, keys, &splitter.finish()?)?;
//!
//! let mut splitter = Splitter::new(alloc);
//! splitter.feed(br#"a {"k":"tap","v":1,"of":"node"}
//! b {"k":"tap","v":1,"of":"client"}
//! a {"k":"start","off":null}
//! "#)?;
//! let mixed = read_bundle(alloc, keys, &splitter.finish()?)?;
//!
//! for (tap, other) in apart.as_slice().iter().zip(mixed.as_slice().iter()) {
//!     assert_eq!(rt; tap.name.as_str(), other.name.as_str());
//! }
//! ```
//!
//! With the `recording` of `examples/bundle_a.jsonl`, a certificate read back and checked:
//!
//! ```
//! use aud_cert::{read_cert, write_cert};
//! use aud_check::{Accepted, check};
//! use aud_maker::make;
//!
//! let Ok(made) = make(alloc, recording, "P") else {
//!     return Err("P has no certificate".into());
//! };
//! let text = write_cert(alloc, &made)?;
//! let read = read_cert(alloc, text.as_bytes(), recording.logs())?;
//! let counts = check(alloc, recording, &read)?;
//! assert_eq!(rt; counts, Accepted { got: 1, tail: 0, turns: 1 });
//! ```
#![tactic(auto)]

mod certified;
mod fault_rows;
mod left_out;
mod order;
mod parts;
mod places;
mod recovery;
mod rewritten;
mod summary;

pub use certified::{made_is_read_back, made_is_sound, proved_is_accepted};
pub use fault_rows::{fault_has_its_row, records_have_kept_lines};
pub use left_out::{
    entries_made_other, recording_left, records_left_out, sessions_kept, sessions_left_out,
    taps_left_out,
};
pub use order::{
    audit_is_one, inputs_in_any_order, lines_in_any_order, neighbours_in_any_order,
    outputs_in_any_order,
};
pub use parts::{
    part_has_its_sessions, part_is_judged_alike, part_is_of_a_bundle, part_is_reported_alike,
    plan_is_listed, reports_are_merged,
};
pub use places::lines_stand_where_told;
pub use recovery::{recovery_is_accepted, run_with_recovery};
pub use rewritten::{read_taps_are_of_a_bundle, upgraded_taps_are_of_a_bundle};
pub use summary::causes_are_in_summary;

//! Tests of what the crates from `aud_node` to `aud_verdict` make of a bundle: positions, cursors and turns, rooms
//! and what is due, runs, packets and stays, certificates, and verdicts. The values are those that the rules of
//! docs/FORMAT.md and docs/MODEL.md give.
//!
//! Begin at [`asked`]: the other modules write the answers, and [`cases`] and [`taps`] have the bundles, what is
//! asked of them, and the texts of the answers.

mod asked;
mod cases;
mod clients;
mod logs;
mod rooms;
mod sessions;
mod taps;

//! What happened when, of a session: the turns in which nodes had it, what happened to its client, and the recoveries
//! of it that were refused.
pub mod chain;
pub mod events;
pub mod laws;
pub mod marks;
pub mod refused;
pub mod runs;
pub mod span;

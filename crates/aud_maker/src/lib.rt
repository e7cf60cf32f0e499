//! Which sessions the logs mention, and the certificate of a session: its turns, its client's tap and its spans of
//! rooms; or the first of the faults for which it has none.
//!
//! With the `recording` of `examples/bundle_a.jsonl`:
//!
//! ```
//! use aud_cert::{Fault, write_cert};
//! use aud_maker::{MakeFault, make};
//!
//! let Ok(cert) = make(alloc, recording, "P") else {
//!     return Err("P has no certificate".into());
//! };
//! let text = r#"{"client":"c1","pid":"P","spans":[["r",1,1],["s1",1,1]],"turns":[["a",1,4,0,1]]}"#;
//! assert_eq!(rt; write_cert(alloc, &cert)?.as_str(), text);
//! // No node opened a session Q.
//! let missing = make(alloc, recording, "Q");
//! assert!(rt; matches!(missing, Err(MakeFault::Fault(Fault::NoLog))));
//! ```
//!
//! [`make_all`] makes the certificates of many sessions in parallel; here `pids` are the texts "P" and "Q":
//!
//! ```
//! use aud_cert::Fault;
//! use aud_maker::make_all;
//!
//! let made = make_all(&rt, alloc, 4, recording, &pids)?;
//! assert!(rt; made[0].is_ok());
//! assert!(rt; matches!(made[1], Err(Fault::NoLog)));
//! ```
#![tactic(auto)]

mod begun;
mod chain;
mod client;
mod ended;
mod laws;
mod made;
mod maker;
mod many;
mod mentioned;
mod mentions;
mod order;
mod swept;

pub use begun::begun_turns;
pub use laws::made_is_over;
pub use maker::{MakeFault, make};
pub use many::make_all;
pub use mentions::sessions;
pub use swept::{stands_in, turn_after, turn_begun_by};

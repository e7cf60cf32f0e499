//! Schedules for a simulated cluster, each made from a seed, with at most one fault, and the bundles of them.
//!
//! Begin at [`schedule`]: the acts of a plan are the same on every machine, and each is possible where it stands.
//!
//! A schedule of 40 acts with a fault among them:
//!
//! ```
//! use aud_schedule::{Fault, Plan, schedule};
//!
//! let plan = Plan { nodes: 2, clients: 4, acts: 40, seed: 1, fault: Some(Fault::Drop) };
//! let acts = schedule(alloc, &plan)?;
//! assert_eq!(rt; acts.len(), 40);
//! ```
//!
//! The command `simulate`: [`plan_asked`] reads its arguments, and [`simulated`] is the bundle that it writes, the same
//! on every machine:
//!
//! ```
//! use aud_schedule::{plan_asked, simulated};
//!
//! let plan = plan_asked(alloc, &["simulate", "--acts", "10", "--seed", "7"])?;
//! assert_eq!(rt; plan.acts, 10);
//! let bundle = simulated(alloc, &plan)?;
//! assert!(rt; bundle.as_slice().starts_with(b"st "));
//! ```
#![tactic(auto)]

mod arguments;
mod audience;
mod course;
mod emits;
mod faults;
mod plan;
mod quiet;
mod scheduling;

pub use arguments::plan_asked;
pub use plan::{Fault, Plan};
pub use scheduling::{schedule, simulated};

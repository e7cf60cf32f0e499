//! Why there is no report.
use thiserror::Error;

/// Why an audit gives no report.
#[derive(Clone, Copy, Debug, PartialEq, Eq, Drop, Error)]
pub enum AuditFault {
    /// The number of workers is not from 1 to 64.
    #[error("workers must be 1 to 64")]
    Workers,
    /// A worker could not be started, or handed nothing back.
    #[error("a worker could not be started")]
    Spawn,
    /// Memory could not be had, after all workers had made so many entries.
    #[error("out of memory after {0} entries")]
    Memory(usize),
}

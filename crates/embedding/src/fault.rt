//! Why there is no report.
use aud_book::{DeskFault, PostFault};
use aud_desk::AuditFault;
use aud_reader::ReadFault;
use std::alloc::AllocError;
use thiserror::Error;

/// Why there is no report.
#[derive(Debug, Drop, Error)]
pub enum ServiceFault {
    #[error("no desk: {0}")]
    Desk(#[from] DeskFault),
    #[error("a line was not posted: {0}")]
    Post(#[from] PostFault),
    #[error("the seats are not those of the desk, in its order")]
    Seats,
    #[error("{0}")]
    Read(#[from] ReadFault),
    #[error("no audit: {0}")]
    Audit(#[from] AuditFault),
    #[error("out of memory")]
    Memory(#[from(alloc)] AllocError),
}

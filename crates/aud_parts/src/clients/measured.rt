//! A client's tap, as a plan sees it.
use crate::clients::facts::ClientFacts;

/// What a client's tap tells, and how long it is.
#[derive(Drop)]
pub struct MeasuredClient {
    pub facts: ClientFacts,
    /// How many bytes its lines have, each with its newline.
    pub bytes: u64,
}

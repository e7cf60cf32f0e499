//! The client of a session, and what it received.

/// The client that had a session.
#[derive(Clone, Copy, Drop)]
pub struct Client<'r> {
    /// The name of its tap.
    pub tap: &'r str,
    /// The namespace of the session.
    pub nsp: &'r str,
    /// The connection on which the fault shows; none where it shows on no connection.
    pub conn: Option<u64>,
}

/// What a client received of a session against what was due to it.
#[derive(Clone, Copy, Drop)]
pub struct Account {
    /// How many events it received.
    pub got: u64,
    /// How many were due.
    pub due: u64,
    /// How many due ones after the last one received did not come. It is shown only under a yes and where it is the
    /// fault: under another fault what came may be no front of what was due, and what is left of that no tail.
    pub tail: u64,
    /// The frame at which what was received parts from what was due; frames count from 1. None where it does not.
    pub at_frame: Option<u64>,
}

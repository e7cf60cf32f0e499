//! The limits of a bundle; those of lines and fields are [`aud_tap::limits`].

/// The most taps of nodes.
pub const MAX_NODE_TAPS: usize = 64;

/// The most taps of clients.
pub const MAX_CLIENT_TAPS: usize = 4_096;

/// The most entries of the stream.
pub const MAX_ENTRIES: usize = 1_000_000;

/// The most records of a node's tap, or of a client's.
pub const MAX_RECORDS: usize = 4_000_000;

/// The most different pids of the records of all nodes.
pub const MAX_PIDS: usize = 65_536;

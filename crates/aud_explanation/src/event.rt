//! What happens to a client.

/// Something that happens to a client, over one line of the input or several.
#[derive(Clone, Copy, Drop)]
pub struct ClientEvent {
    /// The first line, and the last; lines count from 1.
    pub first: u64,
    pub last: u64,
    pub happens: Happens,
}

/// What happens to a client.
#[derive(Clone, Copy, Debug, PartialEq, Drop)]
pub enum Happens {
    /// It asks for its session, to go on after the entry at this position; none where it says no known offset.
    Asks { after: Option<u64> },
    /// The server answers with the session.
    Reply,
    /// The server answers with another session, or with none.
    Refused,
    /// It receives the entries from one position to another, one after the other.
    Got { from: u64, to: u64 },
    /// It loses the connection.
    Lost,
}

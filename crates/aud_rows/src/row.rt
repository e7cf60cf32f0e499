//! A record of the bundle, as an explanation shows it.

/// A record of the bundle, as an explanation shows it: where it stands, what it says, and what it is shown for.
#[derive(Clone, Copy, Debug, Drop)]
pub struct Row<'r> {
    /// The line of the input that the record stands on; lines count from 1.
    pub line: u64,
    /// The name of its tap, borrowed.
    pub tap: &'r str,
    /// The pid, borrowed, of the session that the record speaks of, where it is a node's `open`, `join`, `leave`,
    /// `break`, `back` or `gone`; none of all others. What a client asks for and is answered names it in `says`.
    pub session: Option<&'r str>,
    /// What the record says.
    pub says: Says<'r>,
    /// What it is shown for.
    pub role: Role,
}

/// What a record says, in the words of the session that it speaks of. Positions count from 1, turns from 0; cursors are
/// those of the node after the record. Texts are borrowed.
#[derive(Clone, Copy, Debug, Drop)]
pub enum Says<'r> {
    /// An entry of the stream.
    Entry {
        position: u64,
        off: &'r str,
    },
    /// A node begins its log, at this cursor.
    Start {
        cursor: u64,
    },
    /// A node takes the entry at this position. It is 0 where the stream has no entry of the offset.
    Take {
        position: u64,
        off: &'r str,
    },
    /// A node takes each entry from its cursor on, up to the one at this position: the same.
    Takes {
        position: u64,
        off: &'r str,
    },
    /// The session is opened on the node.
    Open {
        sid: &'r str,
        nsp: &'r str,
        cursor: u64,
    },
    Join {
        room: &'r str,
    },
    Leave {
        room: &'r str,
    },
    /// The session's connection breaks on the node.
    Break {
        turn: u16,
        cursor: u64,
    },
    /// The node takes the session back.
    Back {
        turn: u16,
        cursor: u64,
    },
    Gone,
    /// The client asks for the session with this pid, to go on after the entry of this offset.
    Asks {
        conn: u64,
        pid: &'r str,
        off: Option<&'r str>,
    },
    /// The server answers the client.
    Reply {
        conn: u64,
        sid: &'r str,
        pid: Option<&'r str>,
    },
    /// The client receives the entry at this position.
    Got {
        conn: u64,
        position: u64,
        off: &'r str,
    },
    /// The client loses the connection.
    Lost {
        conn: u64,
    },
    /// The client receives a packet that still lacks so many attachments when a text comes.
    Lacks {
        conn: u64,
        missing: u8,
    },
    /// The client's record is no packet.
    NoPacket {
        conn: u64,
    },
}

/// What a row is shown for.
#[derive(Clone, Copy, Debug, Drop)]
pub enum Role {
    /// The record at which what was received parts from what was due, or the first that does not fit.
    Fault,
    /// The earlier frame of the same position, or the earlier record that the fault contradicts.
    Earlier,
    /// The later frame that has the entry, or that shows that the entry was passed over.
    Later,
    /// The entry in question.
    Entry,
    /// Where the session first reached the entry.
    Reached,
    /// The change of rooms that decides whether the entry was due.
    Room,
    /// The leave after which the session no longer held a room of the entry.
    Left,
    /// The end of a turn.
    Break,
    /// The beginning of a turn.
    Back,
    /// What the client asked for.
    Ask,
    /// What it was answered.
    Reply,
}

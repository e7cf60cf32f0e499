//! What a packet is to its stay.

/// What a packet is to its stay.
#[derive(Clone, Copy, Drop)]
pub enum Part {
    /// A CONNECT of the client that asks for a recovery.
    Ask,
    /// The server's answer to a CONNECT.
    Reply,
    /// An event of the stream.
    Frame,
    /// None of these.
    Other,
}

//! What happens in a simulated cluster, one act after another.
use aud_tap::{Blobs, Text, Texts};

/// An act. Nodes and clients are numbered from 1.
#[derive(Drop)]
pub enum Act {
    /// An event is put into the stream: for these rooms (none means everyone), without the members of the excepted
    /// ones.
    Emit {
        rooms: Texts,
        except: Texts,
        word: Text,
        bin: Blobs,
    },
    /// A connected client is sent an event of this word that is not in the stream.
    Volatile {
        client: usize,
        word: Text,
    },
    /// A node takes the next entry of the stream, and sends it to the sessions on it that it is addressed to.
    Take {
        node: usize,
    },
    /// A client that has no connection opens a session on a node.
    Connect {
        client: usize,
        node: usize,
    },
    /// The same, without a reply from the server.
    ConnectUnanswered {
        client: usize,
        node: usize,
    },
    /// The same, with another sid in the reply.
    ConnectMisnamed {
        client: usize,
        node: usize,
    },
    /// The session of a connected client joins a room.
    Join {
        client: usize,
        room: Text,
    },
    /// The session of a connected client leaves a room.
    Leave {
        client: usize,
        room: Text,
    },
    /// The connection of a client breaks; its session may be recovered.
    Cut {
        client: usize,
    },
    /// The session of a client whose connection broke is recovered on a node that is as far as the break was.
    Recover {
        client: usize,
        node: usize,
    },
    /// The same on a node that is not so far: nothing is replayed there.
    RecoverLagging {
        client: usize,
        node: usize,
    },
    /// As `Recover`, but the client asks with the offset `0-0`, which no entry has.
    RecoverUnknown {
        client: usize,
        node: usize,
    },
    /// As `Recover`, but without a reply from the server.
    RecoverUnanswered {
        client: usize,
        node: usize,
    },
    /// The session of a connected client ends.
    Finish {
        client: usize,
    },
    /// The next frame of the client that carries an offset is not written.
    DropNext {
        client: usize,
    },
    /// The next frame of the client that carries an offset is written twice.
    DoubleNext {
        client: usize,
    },
    /// The next frame of the client that carries an offset is written after the one that follows it.
    HoldNext {
        client: usize,
    },
    /// The next frame of the client that carries an offset is written with `x` at the end of its word.
    AlterNext {
        client: usize,
    },
    /// The next frame of the client that carries an offset is written with `x` in place of Engine.IO's digit.
    GarbleNext {
        client: usize,
    },
    /// The next frame of the client that carries an offset is written without the first of its attachments, if it has
    /// any.
    ShortenNext {
        client: usize,
    },
    /// The next line of a node's log is not written.
    LoseLine,
    /// The next line of a node's log is written twice.
    RepeatLine,
}

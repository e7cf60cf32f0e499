//! The records of each kind of tap. docs/FORMAT.md has the forms and the limits of their fields, which a reader has
//! looked at; a record that is built by hand may have others.
ghost use Rattle.std.specs.Prelude.{◌≡◌};
ghost use Rattle.std.specs.Option.{option_copied};
ghost use Rattle.aud_tap.specs.RecordFields.{offset_of, pid_of};

use aud_base::{Blobs, Bytes, Text, Texts};

/// What a tap was put on.
#[derive(Clone, Copy, Debug, PartialEq, Eq, Drop)]
pub enum TapKind {
    /// The event stream; a bundle has one such tap at most.
    Stream,
    /// A node of the cluster; a bundle has 64 at most.
    Node,
    /// A client; a bundle has 4,096 at most.
    Client,
}

/// The version of the format that a tap is written in, as its header says: docs/FORMAT.md has what differs.
#[derive(Clone, Copy, Debug, PartialEq, Eq, Drop)]
pub enum Version {
    One,
    /// A node's tap may have the kind `takes` too.
    Two,
}

/// An event of the stream.
#[derive(Drop)]
pub struct Event {
    /// Its offset, which no other entry of the stream has.
    pub off: Text,
    /// Its namespace, which begins with `/`.
    pub nsp: Text,
    /// The rooms that it is for; none means the whole namespace.
    pub rooms: Texts,
    /// The rooms whose members don't get it.
    pub except: Texts,
    /// The Socket.IO text as it is sent, its offset included, without Engine.IO's digit.
    pub text: Text,
    /// Its attachments, decoded from base64; at most 64.
    pub bin: Blobs,
}

/// A record of the stream's tap: an entry of the stream.
#[derive(Drop)]
pub enum StreamRec {
    /// An event, which nodes send to whom it is for.
    Ev(Event),
    /// An entry that is no event.
    Other { off: Text },
}

impl StreamRec {
    /// The offset of the entry.
    pub fn offset(&self) -> &Text
        ensures { result.now ≡ offset_of self.now }
    {
        match self {
            StreamRec::Ev(event) => &event.off,
            StreamRec::Other { off } => off,
        }
    }
}

/// A record of a node's tap.
#[derive(Drop)]
pub enum NodeRec {
    /// The node begins after the entry of this offset, or at the stream's start.
    Start { off: Option<Text> },
    /// The node takes an entry and sends it to whom it is addressed.
    Take { off: Text },
    /// The node takes every entry from the one after its last up to the one of this offset. In version 2 alone.
    Takes { off: Text },
    /// A session of the namespace begins, in the one room named by its sid.
    Opened { pid: Text, sid: Text, nsp: Text },
    /// The session joins the room.
    Join { pid: Text, room: Text },
    /// The session leaves the room.
    Leave { pid: Text, room: Text },
    /// The connection broke; the session may be recovered. Turns count from 0.
    Broke { pid: Text, turn: u16 },
    /// The session was recovered here, and begins this turn; the first recovery begins turn 1.
    Back { pid: Text, turn: u16 },
    /// The session is over.
    Gone { pid: Text },
}

impl NodeRec {
    /// The pid that the record names, if it names one.
    pub fn pid(&self) -> Option<&Text>
        ensures { option_copied result ≡ pid_of self.now }
    {
        match self {
            NodeRec::Start { .. } | NodeRec::Take { .. } | NodeRec::Takes { .. } => None,
            NodeRec::Opened { pid, .. }
            | NodeRec::Join { pid, .. }
            | NodeRec::Leave { pid, .. }
            | NodeRec::Broke { pid, .. }
            | NodeRec::Back { pid, .. }
            | NodeRec::Gone { pid } => Some(pid),
        }
    }
}

/// A record of a client's tap.
#[derive(Drop)]
pub enum ClientRec {
    /// A connection begins, with a number greater than that of the tap's one before.
    Conn { c: u64 },
    /// A text message from the server.
    TextIn { t: Text },
    /// A binary message from the server.
    BytesIn { b: Bytes },
    /// A body of HTTP long-polling from the server.
    Poll { t: Text },
    /// An Engine.IO packet of the client.
    TextOut { t: Text },
    /// The connection is lost.
    Lost,
}

/// A line's record.
#[derive(Drop)]
pub enum Rec {
    /// The first line of a tap: what it was put on, and the version of the format.
    Header { of: TapKind, v: Version },
    /// A record of the stream's tap.
    Stream(StreamRec),
    /// A record of a node's tap.
    Node(NodeRec),
    /// A record of a client's tap.
    Client(ClientRec),
}

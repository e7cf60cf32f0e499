//! A client of the cluster.
use crate::rooms::HeldRooms;
use aud_tap::Text;

/// Where a session is.
#[derive(Clone, Copy, Drop)]
pub enum At {
    /// On the node with this index.
    Node(usize),
    /// Between a break, at which its node had taken this many entries, and the recovery.
    Away(usize),
}

/// A fault that is put into what a client is sent.
#[derive(Clone, Copy, Drop)]
pub enum Injected {
    /// None: frames are written as they are.
    Nothing,
    /// The next frame is not written.
    DropNext,
    /// The next frame is written twice.
    DoubleNext,
    /// The next frame is written after the one that follows it.
    HoldNext,
    /// The next frame is written with another word.
    AlterNext,
    /// The next frame is written as no packet.
    GarbleNext,
    /// The next frame is written without the first of its attachments.
    ShortenNext,
    /// The frame of the entry at this position is written after the next one.
    Holds(usize),
}

/// What a client that opens a session, or has it back, is told of it.
#[derive(Clone, Copy, Drop)]
pub enum Reply {
    /// Its sid and its pid.
    Own,
    /// Another sid, and its pid.
    OtherSid,
    /// Nothing: there is no reply.
    Missing,
}

/// With which offset a client asks for its session.
#[derive(Clone, Copy, Drop)]
pub enum Asked {
    /// The last that it received in it.
    LastReceived,
    /// One that no entry has.
    Unknown,
}

/// A session that is not over.
#[derive(Drop)]
pub struct Session {
    /// Its number in the order of opening, from 1.
    pub number: usize,
    pub pid: Text,
    pub sid: Text,
    pub rooms: HeldRooms,
    /// The turn that it is in, or, while it is away, the one before; counted from 0.
    pub turn: u16,
    /// The position of the entry whose offset the client received last in this session.
    pub last: Option<usize>,
    pub at: At,
}

/// A client: its tap's name, the number of its last connection, the fault that is injected next, and the session that
/// it has, if it has one.
#[derive(Drop)]
pub struct Client {
    pub name: Text,
    pub connections: u64,
    pub injected: Injected,
    pub session: Option<Session>,
}

//! What a schedule is made from.

/// How many acts a schedule with a fault has at least.
pub const FAULT_ACTS: u32 = 32;

/// What goes wrong once in a schedule.
#[derive(Clone, Copy, Debug, PartialEq, Eq, Drop)]
pub enum Fault {
    /// An event is not sent.
    Drop,
    /// An event is sent twice.
    Double,
    /// An event is sent after the one that follows it.
    Hold,
    /// An event is sent with another word.
    Alter,
    /// An event is sent as no packet.
    Garble,
    /// An event is sent without one of its attachments.
    LoseAttachment,
    /// A session is taken back by a node that has not come as far as the one that it broke off from.
    Lag,
    /// A session is asked for with an offset that no entry has.
    UnknownOffset,
    /// A session is taken back, and the connection breaks after its events, before its client is told.
    CutBeforeReply,
    /// A session is opened, and its client is not told.
    NoReply,
    /// A session is opened, and its client is told another sid.
    OtherSid,
    /// A node does not record that it opened a session.
    NoOpen,
    /// A node does not record that a session joined a room, for which an event comes then.
    NoJoin,
    /// A node does not record that a connection broke, though the session is taken back.
    NoBreak,
    /// A node records twice that it took an entry.
    TakeTwice,
}

/// What a schedule is made from. A schedule with a fault has [`FAULT_ACTS`] acts or more, and one with `Fault::Lag` two
/// nodes or more.
#[derive(Clone, Copy, Debug, PartialEq, Eq, Drop)]
pub struct Plan {
    /// How many nodes the cluster has, at least 1.
    pub nodes: u8,
    /// How many clients there are, at least 1.
    pub clients: u16,
    /// How many acts the schedule has.
    pub acts: u32,
    /// The seed of the choices.
    pub seed: u64,
    /// What goes wrong, if anything does.
    pub fault: Option<Fault>,
}

impl Plan {
    ghost use Rattle.std.specs.Prelude.{◌↔◌, IsTrue};
    ghost use Rattle.aud_schedule.specs.Plans.{IsPossible};

    /// Whether a schedule can be made: the cluster has 1 to 64 nodes and 1 to 4,096 clients, there are at most
    /// 1,000,000 acts, and there is room for the fault.
    pub fn is_possible(&self) -> bool
        ensures { IsTrue result ↔ IsPossible self.now }
    {
        let (least_nodes, least_acts) = match self.fault {
            None => (1, 0),
            Some(Fault::Lag) => (2, FAULT_ACTS),
            Some(_) => (1, FAULT_ACTS),
        };
        (least_nodes..=64).contains(&self.nodes)
            && (1..=4096).contains(&self.clients)
            && (least_acts..=1_000_000).contains(&self.acts)
    }
}

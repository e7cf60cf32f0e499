//! The taps of a bundle.
use crate::records::{ClientRec, NodeRec, StreamRec, Version};
use aud_base::{Listed, Paged, Text};

/// The records of a stream tap, in the order in which it wrote them.
pub type StreamRecs = Paged<StreamRec>;

/// The records of a node tap, in the order in which it wrote them.
pub type NodeRecs = Paged<NodeRec>;

/// The records of a client tap, in the order in which it wrote them.
pub type ClientRecs = Listed<ClientRec>;

/// What a tap wrote, without its header: records are numbered from 0 after it.
#[derive(Drop)]
pub enum Records {
    Stream(StreamRecs),
    Node(NodeRecs),
    Client(ClientRecs),
}

/// A tap.
#[derive(Drop)]
pub struct Tap {
    /// Its name, which no other tap of a bundle has.
    pub name: Text,
    /// The version that its header names.
    pub version: Version,
    pub records: Records,
}

/// The taps of a bundle in the order of their headers. Nothing is asked of them here: a bundle's rules are the
/// reader's.
pub type Taps = Listed<Tap>;

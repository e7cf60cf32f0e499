//! Records on their way from the threads that parse lines to the one that adds them.
ghost use Rattle.std.specs.Prelude.{◌≡◌, IfOk};
ghost use Rattle.aud_tap.specs.declared.records.Rec.TheVariants.{Node};
ghost use Rattle.aud_reader.specs.Private.Packed.{rec_of};

use aud_tap::{ClientRec, NodeRec, Rec, StreamRec, TapKind, Text, Version};
use std::alloc::{AllocError, Global};
use std::mem::size_of;

/// A record in 40 bytes. An entry of the stream stands behind a pointer, since it takes more than twice what any other
/// does, and most lines are others; so do a node's start and a session's begin, which are rare. A node's other records
/// are cases of their own: in an enum within this one they would take 8 bytes more.
#[derive(Drop)]
pub enum PackedRec {
    Header { of: TapKind, v: Version },
    Stream(Box<StreamRec>),
    Node(Box<NodeRec>),
    Take { off: Text },
    Takes { off: Text },
    Join { pid: Text, room: Text },
    Leave { pid: Text, room: Text },
    Broke { pid: Text, turn: u16 },
    Back { pid: Text, turn: u16 },
    Gone { pid: Text },
    Client(ClientRec),
}

const _: () = prove!(size_of::<PackedRec>() == 40);

/// The same record, of a node.
fn packed_node(alloc: Global, rec: NodeRec) -> Result<PackedRec, AllocError>
    ensures { IfOk result (λ packed. rec_of packed ≡ Node rec) }
{
    match rec {
        NodeRec::Take { off } => Ok(PackedRec::Take { off }),
        NodeRec::Takes { off } => Ok(PackedRec::Takes { off }),
        NodeRec::Join { pid, room } => Ok(PackedRec::Join { pid, room }),
        NodeRec::Leave { pid, room } => Ok(PackedRec::Leave { pid, room }),
        NodeRec::Broke { pid, turn } => Ok(PackedRec::Broke { pid, turn }),
        NodeRec::Back { pid, turn } => Ok(PackedRec::Back { pid, turn }),
        NodeRec::Gone { pid } => Ok(PackedRec::Gone { pid }),
        rare => Ok(PackedRec::Node(Box::new(alloc, rare)?)),
    }
}

impl PackedRec {
    /// The same record.
    pub fn new(alloc: Global, rec: Rec) -> Result<PackedRec, AllocError>
        ensures { IfOk result (λ packed. rec_of packed ≡ rec) }
    {
        match rec {
            Rec::Header { of, v } => Ok(PackedRec::Header { of, v }),
            Rec::Stream(entry) => Ok(PackedRec::Stream(Box::new(alloc, entry)?)),
            Rec::Node(rec) => packed_node(alloc, rec),
            Rec::Client(rec) => Ok(PackedRec::Client(rec)),
        }
    }

    /// The record that this one is.
    #[inline(always)]
    pub fn unpacked(self) -> Rec
        ensures { result ≡ rec_of self }
    {
        match self {
            PackedRec::Header { of, v } => Rec::Header { of, v },
            PackedRec::Stream(entry) => Rec::Stream(Box::into_inner(entry)),
            PackedRec::Node(rec) => Rec::Node(Box::into_inner(rec)),
            PackedRec::Take { off } => Rec::Node(NodeRec::Take { off }),
            PackedRec::Takes { off } => Rec::Node(NodeRec::Takes { off }),
            PackedRec::Join { pid, room } => Rec::Node(NodeRec::Join { pid, room }),
            PackedRec::Leave { pid, room } => Rec::Node(NodeRec::Leave { pid, room }),
            PackedRec::Broke { pid, turn } => Rec::Node(NodeRec::Broke { pid, turn }),
            PackedRec::Back { pid, turn } => Rec::Node(NodeRec::Back { pid, turn }),
            PackedRec::Gone { pid } => Rec::Node(NodeRec::Gone { pid }),
            PackedRec::Client(rec) => Rec::Client(rec),
        }
    }
}

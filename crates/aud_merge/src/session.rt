//! A session, as the records of the nodes' logs change it.
ghost use Rattle.std.specs.Prelude.{◌≡◌, Some, IsSome, is_some, IfOk, OnOk, OnErr};
ghost use Rattle.std.specs.Option.{option_copied};
ghost use Rattle.aud_merge.specs.Sessions.{Absent, session_after};
ghost use Rattle.aud_merge.specs.SessionSeen.{session_seen, seen_or_absent};

use aud_rooms::RoomSet;
use aud_tap::NodeRec;
use std::alloc::{AllocError, Global};

/// Where a session is.
#[derive(Clone, Copy, Debug, PartialEq, Eq, Drop)]
pub enum At {
    /// On the node whose tap stands at this place.
    Node(usize),
    /// Between a break and the recovery.
    Away,
    /// It is over.
    Ended,
}

/// A session that was opened.
#[derive(Drop)]
pub struct OpenedSession<'a> {
    pub at: At,
    /// The turn that it is in, or, between turns, the one before; counted from 0.
    pub turn: u16,
    pub sid: &'a str,
    pub nsp: &'a str,
    pub rooms: RoomSet<'a>,
}

impl<'a> OpenedSession<'a> {
    /// The session that an allowed `open` of the node makes.
    pub(crate) fn open(
        alloc: Global,
        node: usize,
        rec: &'a NodeRec,
    ) -> Result<OpenedSession<'a>, AllocError>
        requires { IsSome (session_after node rec.now Absent) }
        ensures { IfOk result (λ session. session_after node rec.now Absent
            ≡ Some (session_seen session)) }
    {
        let NodeRec::Opened { sid, nsp, .. } = rec else {
            unreachable!()
        };
        let mut rooms = RoomSet::new(alloc);
        rooms.join(sid.as_str())?;
        Ok(OpenedSession {
            at: At::Node(node),
            turn: 0,
            sid: sid.as_str(),
            nsp: nsp.as_str(),
            rooms,
        })
    }

    /// What the node's record, which names this session and is allowed, does to it.
    pub(crate) fn change(&mut self, node: usize, rec: &'a NodeRec) -> Result<(), AllocError>
        requires { IsSome (session_after node rec.now (session_seen self.old)) }
        ensures changed { OnOk result (session_after node rec.now (session_seen self.old)
            ≡ Some (session_seen self.new)) }
        ensures unchanged { OnErr result (self.new ≡ self.old) }
    {
        match rec {
            NodeRec::Join { room, .. } => return self.rooms.join(room.as_str()),
            NodeRec::Leave { room, .. } => self.rooms.leave(room.as_str()),
            NodeRec::Broke { .. } => self.at = At::Away,
            NodeRec::Gone { .. } => self.at = At::Ended,
            NodeRec::Back { turn, .. } => {
                self.at = At::Node(node);
                self.turn = *turn;
            }
            _ => {}
        }
        Ok(())
    }
}

/// Whether the node's record, which names this session, is allowed; no session is one that wasn't opened.
pub(crate) fn allows(session: Option<&OpenedSession>, node: usize, rec: &NodeRec) -> bool
    ensures { result ≡ is_some (session_after node rec.now
        (seen_or_absent (option_copied session.entry))) }
{
    let Some(session) = session else {
        return matches!(rec, NodeRec::Opened { .. });
    };
    match (rec, session.at) {
        (NodeRec::Join { .. }, At::Node(at)) => at == node,
        (NodeRec::Leave { .. }, At::Node(at)) => at == node,
        (NodeRec::Broke { turn, .. }, At::Node(at)) => at == node && session.turn == *turn,
        (NodeRec::Gone { .. }, At::Node(at)) => at == node,
        (NodeRec::Back { turn, .. }, At::Away) => *turn > 0 && session.turn == *turn - 1,
        _ => false,
    }
}

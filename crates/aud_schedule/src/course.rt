//! The cluster as the acts so far leave it: enough to choose a next act that is possible.
ghost use Rattle.std.specs.Prelude.{◌≡◌, ◌<◌, true, IfOk, IfSome, vec_len};
ghost use Rattle.aud_schedule.specs.Size.{IsCluster, IsUpTo};

use crate::audience::{Audience, Place, Session};
use rand_core::{Rng, SeedableRng};
use rand_pcg::Pcg32;
use std::alloc::{AllocError, Global};

/// By how many entries a node may lag.
pub const MOST_LAG: usize = 8;

/// How many sessions may be opened, but for one, which is left for a fault.
pub const MOST_SESSIONS: u32 = 65_535;

/// How many nodes and clients a cluster has.
#[derive(Clone, Copy, Drop)]
pub struct Size {
    pub nodes: usize,
    pub clients: usize,
}

/// The audiences of the entries, the cursors of the nodes, the sessions of the clients, and the dice.
#[derive(Drop)]
pub struct Course {
    pub alloc: Global,
    pub size: Size,
    dice: Pcg32,
    entries: Vec<Audience>,
    cursors: Vec<usize>,
    sessions: Vec<Option<Session>>,
    /// How many sessions were opened.
    pub opened: u32,
    ghost cluster: { IsCluster size },
    ghost cursors_of_nodes: { vec_len cursors ≡ size.nodes },
}

impl Course {
    /// Nodes that took nothing, and clients without a session.
    pub fn new(alloc: Global, size: Size, seed: u64) -> Result<Course, AllocError>
        requires { IsCluster size }
        ensures { IfOk result (λ course. course.size ≡ size) }
    {
        let mut cursors = Vec::new(alloc);
        for _ in 0..size.nodes {
            cursors.push(0)?;
        }
        let mut sessions = Vec::new(alloc);
        for _ in 0..size.clients {
            sessions.push(None)?;
        }
        Ok(Course {
            alloc,
            size,
            dice: Pcg32::seed_from_u64(seed),
            entries: Vec::new(alloc),
            cursors,
            sessions,
            opened: 0,
        })
    }

    /// A number from the dice.
    pub fn word(&mut self) -> u32
        ensures { self.new.size ≡ self.old.size }
    {
        self.dice.next_u32()
    }

    /// A number below this one.
    pub fn below(&mut self, bound: u32) -> u32
        requires { 0 < bound }
        ensures size { self.new.size ≡ self.old.size }
        ensures number { result < bound }
    {
        self.word() % bound
    }

    /// One of the nodes.
    pub fn some_node(&mut self) -> usize
        ensures size { self.new.size ≡ self.old.size }
        ensures node { IsUpTo self.old.size.nodes result }
    {
        let nodes = self.size.nodes as u32;
        self.below(nodes) as usize + 1
    }

    /// One of the clients.
    pub fn some_client(&mut self) -> usize
        ensures size { self.new.size ≡ self.old.size }
        ensures client { IsUpTo self.old.size.clients result }
    {
        let clients = self.size.clients as u32;
        self.below(clients) as usize + 1
    }

    /// The number of a session that was opened, or 0 where none was.
    pub fn some_session(&mut self) -> u32
        ensures { self.new.size ≡ self.old.size }
    {
        if self.opened == 0 {
            return 0;
        }
        let opened = self.opened;
        self.below(opened) + 1
    }

    /// The cursor of a node.
    pub fn cursor(&self, node: usize) -> usize {
        match node.checked_sub(1) {
            Some(index) => self.cursors.get(index).copied().unwrap_or(0),
            None => 0,
        }
    }

    /// Whether a node has entries to take.
    pub fn lags(&self, node: usize) -> bool
        ensures { result ≡ true → IsUpTo self.now.size.nodes node }
    {
        1 <= node && node <= self.cursors.len() && self.cursor(node) < self.entries.len()
    }

    /// Whether an event may come: no node lags as far as nodes may.
    pub fn may_emit(&self) -> bool {
        let entries = self.entries.len();
        self.cursors
            .iter()
            .all(|cursor| entries < cursor.saturating_add(MOST_LAG))
    }

    /// The node that lags most, and of several the first.
    pub fn slowest(&self) -> usize
        ensures { IsUpTo self.now.size.nodes result }
    {
        let mut slowest = 1;
        let mut least = usize::MAX;
        for (index, cursor) in self.cursors.iter().enumerate() {
            if *cursor < least {
                slowest = index + 1;
                least = *cursor;
            }
        }
        slowest
    }

    /// A client's session.
    pub fn session(&self, client: usize) -> Option<Session> {
        let index = client.checked_sub(1)?;
        *self.sessions.get(index)?
    }

    /// The node that a client is connected to.
    pub fn node_of(&self, client: usize) -> Option<usize>
        ensures { IfSome result (IsUpTo self.now.size.nodes) }
    {
        match self.session(client)?.place {
            Place::On(node) if 1 <= node && node <= self.size.nodes => Some(node),
            _ => None,
        }
    }

    /// The client has this session from now on.
    pub fn set_session(&mut self, client: usize, session: Option<Session>)
        ensures { self.new.size ≡ self.old.size }
    {
        if let Some(index) = client.checked_sub(1)
            && let Some(slot) = self.sessions.get_mut(index)
        {
            *slot = session;
        }
    }

    /// The stream has one more entry.
    pub fn enter(&mut self, audience: Audience) -> Result<(), AllocError>
        ensures { self.new.size ≡ self.old.size }
    {
        self.entries.push(audience)?;
        Ok(())
    }

    /// A node takes its next entry, and of its sessions those that it is for receive it.
    pub fn take(&mut self, node: usize)
        ensures { self.new.size ≡ self.old.size }
    {
        let cursor = self.cursor(node);
        let Some(audience) = self.entries.get(cursor).copied() else {
            return;
        };
        if let Some(index) = node.checked_sub(1)
            && let Some(slot) = self.cursors.get_mut(index)
        {
            *slot = cursor.saturating_add(1);
        }
        for slot in &mut self.sessions {
            if let Some(session) = slot
                && let Place::On(own) = session.place
                && own == node
                && audience.has(session)
            {
                session.has_offset = true;
            }
        }
    }

    /// The client opens a session on a node.
    pub fn connect(&mut self, client: usize, node: usize)
        ensures { self.new.size ≡ self.old.size }
    {
        self.opened = self.opened.saturating_add(1);
        let session = Session {
            number: self.opened,
            rooms: 0,
            has_offset: false,
            place: Place::On(node),
        };
        self.set_session(client, Some(session));
    }

    /// The client's session holds these rooms too from now on.
    pub fn hold_more(&mut self, client: usize, rooms: u8)
        ensures { self.new.size ≡ self.old.size }
    {
        if let Some(session) = self.session(client) {
            let rooms = session.rooms | rooms;
            self.set_session(client, Some(Session { rooms, ..session }));
        }
    }

    /// The client's session is there from now on.
    pub fn move_to(&mut self, client: usize, place: Place)
        ensures { self.new.size ≡ self.old.size }
    {
        if let Some(session) = self.session(client) {
            self.set_session(client, Some(Session { place, ..session }));
        }
    }
}

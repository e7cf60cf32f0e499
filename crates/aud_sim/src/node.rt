//! A node of the cluster, and the sessions on it.
ghost use Rattle.std.specs.Prelude.{◌≡◌, OnOk, count_by};
ghost use Rattle.aud_sim.specs.Nodes.{opened_before, without_session, node_joined, node_left};

use aud_tap::Text;
use std::alloc::AllocError;
use std::marker::Model;

/// A session on a node.
#[derive(Clone, Copy, Drop)]
pub struct Guest {
    /// Its number in the order of opening, from 1.
    pub session: usize,
    /// The index of its client.
    pub client: usize,
}

/// A node: its tap's name, how many entries it has taken, and the sessions on it, in order of opening.
#[derive(Drop)]
pub struct Node {
    pub name: Text,
    pub cursor: usize,
    pub guests: Vec<Guest>,
}

impl Model for Node {
    ghost use Rattle.aud_sim.specs.Nodes.{NodeState};

    ghost Value = { NodeState };

    ghost view = { λ n. record { name = n.name; cursor = n.cursor; guests = n.guests.items } };
}

/// How many of the sessions were opened before that of a number.
fn earlier(guests: &[Guest], session: usize) -> usize
    ensures { result ≡ count_by (opened_before session) guests.now }
{
    guests
        .iter()
        .filter(|guest| guest.session < session)
        .count()
}

/// Takes a session from the others.
fn remove(guests: &mut Vec<Guest>, session: usize)
    ensures { guests.new.items ≡ without_session session guests.old.items }
{
    guests.retain(|guest| guest.session != session);
}

impl Node {
    /// The session is on the node from now on, among the others in order of opening.
    pub fn join(&mut self, guest: Guest) -> Result<(), AllocError>
        ensures { OnOk result (self.new ≡ node_joined guest self.old) }
    {
        let before = earlier(&self.guests, guest.session);
        self.guests.insert(before, guest)?;
        Ok(())
    }

    /// The session of this number is on the node no longer.
    pub fn leave(&mut self, session: usize)
        ensures { self.new ≡ node_left session self.old }
    {
        remove(&mut self.guests, session);
    }
}

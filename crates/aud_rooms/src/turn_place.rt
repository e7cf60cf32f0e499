//! Where a turn stands in a node's log.
ghost use Rattle.std.specs.Prelude.{◌≡◌, ◌<◌, length, suc};
ghost use Rattle.aud_node.specs.Cluster.{node_log};
ghost use Rattle.aud_node.specs.Cursors.{cursor_at};
ghost use Rattle.aud_rooms.specs.Turns.{slice_of};
ghost use Rattle.aud_rooms.specs.TurnPlaces.{IsWithin, own_between};

use crate::cut::between;
use aud_node::Logs;
use std::marker::Model;

/// Consecutive records of a node's log: those with the numbers from `from` on and before `to`. Numbers count from 0,
/// and `node` is the place of the node's tap.
#[derive(Clone, Copy)]
pub struct TurnPlace {
    pub node: usize,
    pub from: usize,
    pub to: usize,
}

impl Model for TurnPlace {
    ghost use Rattle.aud_rooms.specs.Turns.{Turn};

    ghost Value = { Turn };

    ghost view = { λ a. record { node = a.node; from = a.from; to = a.to } };

    ghost inverse = { λ t. record { node = t.node; from = t.from; to = t.to } };
}

impl TurnPlace {
    /// The node's cursor after the first record: the last position that it had taken, 0 before any.
    pub fn low(&self, logs: &Logs<'_>) -> u64
        requires { IsWithin logs.now self.now }
        ensures { result ≡ (slice_of logs.now self.now).low }
    {
        cursor_after(logs, self.node, self.from)
    }

    /// The node's cursor after the last record: the last position that it had taken, 0 before any.
    pub fn high(&self, logs: &Logs<'_>) -> u64
        requires { IsWithin logs.now self.now }
        ensures { result ≡ (slice_of logs.now self.now).high }
    {
        cursor_after(logs, self.node, self.to - 1)
    }

    /// The numbers in the node's log, ascending, of those of the records that name the pid; borrowed from the node's
    /// index, by which they are found without a look at the others.
    pub fn own<'l>(&self, logs: &'l Logs<'_>, pid: &str) -> &'l [usize]
        ensures { result.now ≡ own_between
            (node_log logs.now self.now.node) pid.now self.now.from self.now.to }
    {
        match logs.node(self.node) {
            Some(log) => between(log.own(pid), self.from, self.to),
            None => &[],
        }
    }
}

/// The cursor of the node at this place after its record with this number.
fn cursor_after(logs: &Logs<'_>, node: usize, number: usize) -> u64
    requires { number < length (node_log logs.now node) }
    ensures { result ≡ cursor_at logs.now.stream (node_log logs.now node) (suc number) }
{
    match logs.node(node) {
        Some(log) => log.cursor_after(number).unwrap_or(0),
        None => 0,
    }
}

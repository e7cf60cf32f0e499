//! What sessions bring to the part that has them.
use crate::plan::fault::Limit;
use aud_reader::{MAX_CLIENT_TAPS, MAX_NODE_TAPS, MAX_PIDS};
use std::alloc::{AllocError, Global};

/// How many places a word has.
const WORD: usize = 64;

/// What sessions bring to the part that has them.
#[derive(Drop)]
pub(crate) struct Load {
    /// How many sessions these are.
    pub(crate) sessions: usize,
    /// How many clients' taps name them.
    pub(crate) clients: usize,
    /// The bytes of those taps, and so many for each record of a node's tap that names one of them.
    pub(crate) weight: u64,
    /// The nodes' taps whose records name them, by their places among the taps of the stream and of the nodes: a bit
    /// for each place, none past the last word.
    nodes: Vec<u64>,
}

impl Load {
    /// That of no sessions.
    pub(crate) fn new(alloc: Global) -> Load {
        Load {
            sessions: 0,
            clients: 0,
            weight: 0,
            nodes: Vec::new(alloc),
        }
    }

    /// The first limit that a part would pass with both; none where it has room.
    pub(crate) fn passed_with(&self, other: &Load) -> Option<Limit> {
        if self.clients.saturating_add(other.clients) > MAX_CLIENT_TAPS {
            return Some(Limit::Clients);
        }
        if self.sessions.saturating_add(other.sessions) > MAX_PIDS {
            return Some(Limit::Sessions);
        }
        let mut nodes = 0u32;
        for number in 0..self.nodes.len().max(other.nodes.len()) {
            let own = self.nodes.get(number).copied().unwrap_or(0);
            let others = other.nodes.get(number).copied().unwrap_or(0);
            nodes = nodes.saturating_add((own | others).count_ones());
        }
        if u64::from(nodes) > MAX_NODE_TAPS as u64 {
            return Some(Limit::Nodes);
        }
        None
    }

    /// Adds another one.
    pub(crate) fn add(&mut self, other: &Load) -> Result<(), AllocError> {
        self.sessions = self.sessions.saturating_add(other.sessions);
        self.clients = self.clients.saturating_add(other.clients);
        self.weight = self.weight.saturating_add(other.weight);
        for number in 0..other.nodes.len() {
            add_bits(&mut self.nodes, number, other.nodes[number])?;
        }
        Ok(())
    }

    /// The tap at this place is one of those of the nodes.
    pub(crate) fn add_node(&mut self, place: usize) -> Result<(), AllocError> {
        add_bits(&mut self.nodes, place / WORD, 1u64 << (place % WORD))
    }
}

/// The word with this number has these bits too.
fn add_bits(words: &mut Vec<u64>, number: usize, bits: u64) -> Result<(), AllocError> {
    for _missing in words.len()..number.saturating_add(1) {
        words.push(0)?;
    }
    if number < words.len() {
        words[number] |= bits;
    }
    Ok(())
}

//! Which part each session and each client's tap is in.
pub mod closed;
pub mod fault;
pub mod groups;
pub mod load;
pub mod placing;
pub mod planning;
pub mod sessions;
pub mod sized;
pub mod units;

ghost use Rattle.std.specs.Prelude.{◌≡◌, IfOk, count_by, nat_eq};
ghost use Rattle.aud_parts.specs.Together.{PlansKeepTogether};
ghost use Rattle.aud_parts.specs.Plan.{came_in, has_client, is_in, is_part, part_of, pids_in};

use crate::clients::measured::MeasuredClient;
use crate::plan::sessions::Sessions;
use aud_tap::Text;
use std::alloc::{AllocError, Global};

/// Which part of a recording each session and each client's tap is in. Parts count from 0, as many as there are
/// weights.
#[derive(Drop)]
pub struct Plan {
    /// The sessions, in the order of the report on the whole recording.
    pub sessions: Sessions,
    /// Of each session, the part that it is in.
    pub parts: Vec<usize>,
    /// Of each client's tap, the part that it is in; none where it names nobody.
    pub clients: Vec<Option<usize>>,
    /// Of each part, how heavy it is: the bytes of its clients' taps, and 64 for each record of a node's tap that names
    /// one of its sessions.
    pub weights: Vec<u64>,
}

impl Plan {
    /// The part of the session; none where there is no such session.
    pub fn part_of(&self, pid: &str) -> Option<usize>
        ensures { result ≡ part_of self.now pid.now }
    {
        let number = self.sessions.number_of(pid)?;
        self.parts.get(number).copied()
    }

    /// Whether the session has the part.
    pub fn is_in(&self, part: usize, pid: &str) -> bool
        ensures { result ≡ is_in self.now part pid.now }
    {
        self.part_of(pid) == Some(part)
    }

    /// The pids of the part's sessions, copied, in the order of the report.
    pub fn pids_in(&self, alloc: Global, part: usize) -> Result<Vec<Text>, AllocError>
        ensures { IfOk result (λ pids. pids.items ≡ pids_in self.now part) }
    {
        let mut pids = Vec::new(alloc);
        let count = self.sessions.len().min(self.parts.len());
        for number in 0..count {
            let pid = self.sessions.pid(number);
            if self.parts[number] == part {
                pids.push(Text::new(alloc, pid)?)?;
            }
        }
        Ok(pids)
    }

    /// Whether the client's tap with this number, which counts from 0, has the part.
    pub fn has_client(&self, part: usize, number: usize) -> bool
        ensures { result ≡ has_client self.now part number }
    {
        match self.clients.get(number) {
            Some(own) => *own == Some(part),
            None => false,
        }
    }

    /// The positions in the stream of the events that came to the clients of the part, client after client. The clients
    /// are those that were planned, in the same order.
    pub fn came_in(
        &self,
        alloc: Global,
        clients: &[MeasuredClient],
        part: usize,
    ) -> Result<Vec<u64>, AllocError>
        ensures { IfOk result (λ came. came.items ≡ came_in self.now clients.now part) }
    {
        let mut came = Vec::new(alloc);
        for (number, client) in clients.iter().enumerate() {
            if self.has_client(part, number) {
                came.extend_from_slice(client.facts.came.as_slice())?;
            }
        }
        Ok(came)
    }

    /// How many sessions the part has.
    pub fn session_count(&self, part: usize) -> usize
        ensures { result ≡ count_by (λ own. nat_eq own part) self.now.parts.items }
    {
        self.parts.iter().filter(|own| **own == part).count()
    }

    /// How many clients' taps the part has.
    pub fn client_count(&self, part: usize) -> usize
        ensures { result ≡ count_by (is_part part) self.now.clients.items }
    {
        self.clients
            .iter()
            .filter(|own| **own == Some(part))
            .count()
    }
}

/// A plan keeps together what has to stay together: a law of [`plan_parts`](crate::plan_parts).
///
/// For whatever taps: a closed plan that was made of those of the stream and of the nodes, and of what the clients' taps
/// tell, has the sessions of all of them in the order of the report, and of each part the sessions are such that the part
/// keeps the verdicts on them.
pub fn plans_keep_together()
    ensures { PlansKeepTogether }
{}

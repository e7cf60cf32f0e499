//! The sessions of a recording, in the order of its report.
ghost use Rattle.std.specs.Prelude.{◌≡◌, ◌<◌, IfOk, OnOk, Some, length, slice_get};
ghost use Rattle.aud_base.specs.FirstTexts.{first_texts, with_text};
ghost use Rattle.aud_parts.specs.Plan.{all_mentions, number_of};

use crate::clients::measured::MeasuredClient;
use aud_node::Logs;
use aud_tap::Text;
use indexmap::IndexSet;
use std::alloc::{AllocError, Global};
use std::hash::RandomState;
use std::marker::Model;

/// The sessions of a recording, each once, in the order of its report; seen as the list of their pids. Sessions are
/// numbered from 0 in this order.
#[derive(Drop)]
pub struct Sessions {
    alloc: Global,
    pids: IndexSet<String, RandomState>,
}

impl Model for Sessions {
    ghost use Rattle.std.specs.Prelude.{List, ℕ, map, string_bytes};

    ghost Value = { List (List ℕ) };

    ghost view = { λ s. map string_bytes s.pids.keys };
}

impl Sessions {
    /// The sessions that the records of the nodes' taps name, tap after tap, and then those that the clients' replies
    /// name. Pids are copied, and hashed with the keys of the logs.
    pub fn of(
        alloc: Global,
        logs: &Logs<'_>,
        clients: &[MeasuredClient],
    ) -> Result<Sessions, AllocError>
        ensures { IfOk result (λ sessions. sessions
            ≡ first_texts (all_mentions logs.now.taps clients.now)) }
    {
        let mut sessions = Sessions {
            alloc,
            pids: IndexSet::with_hasher(alloc, logs.keys()),
        };
        for number in 0..logs.named_count() {
            sessions.mention(logs.named_pid(number))?;
        }
        for client in clients {
            for pid in client.facts.pids.as_slice() {
                sessions.mention(pid.as_str())?;
            }
        }
        Ok(sessions)
    }

    /// How many sessions there are.
    pub fn len(&self) -> usize
        ensures { result ≡ length self.now }
    {
        self.pids.len()
    }

    /// The pid of the session with this number, borrowed.
    pub fn pid(&self, number: usize) -> &str
        requires { number < length self.now }
        ensures { slice_get self.now number ≡ Some result.now }
    {
        match self.pids.get_index(number) {
            Some(pid) => pid.as_str(),
            None => unreachable!(),
        }
    }

    /// The number of the session with this pid; none where there is no such session.
    pub fn number_of(&self, pid: &str) -> Option<usize>
        ensures { result ≡ number_of self.now pid.now }
    {
        self.pids.get_index_of(pid)
    }

    /// The number of the session with this pid, if there is a pid.
    pub(crate) fn number_named(&self, pid: Option<&Text>) -> Option<usize> {
        match pid {
            Some(pid) => self.number_of(pid.as_str()),
            None => None,
        }
    }

    /// A copy of the pid of the session with this number; nothing where there is no such session.
    pub(crate) fn copy_of(&self, number: usize) -> Result<String, AllocError> {
        match self.pids.get_index(number) {
            Some(pid) => String::from_str(self.alloc, pid.as_str()),
            None => Ok(String::new(self.alloc)),
        }
    }

    /// The session is mentioned; one that was before keeps its place.
    fn mention(&mut self, pid: &str) -> Result<(), AllocError>
        ensures { OnOk result (self.new ≡ with_text self.old pid.now) }
    {
        if self.pids.contains(pid) {
            return Ok(());
        }
        let owned = String::from_str(self.alloc, pid)?;
        self.pids.insert(owned)?;
        Ok(())
    }
}

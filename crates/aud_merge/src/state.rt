//! The state of the cluster.
ghost use Rattle.std.specs.Prelude.{◌≡◌, ◌<◌, IfOk, OnOk, OnErr, IsSome, Some, is_some, length, map, set, slice_get};
ghost use Rattle.std.specs.Option.{option_copied};
ghost use Rattle.aud_node.specs.TurnRecords.{pid_of};
ghost use Rattle.aud_merge.specs.Machine.{appended, session_of, sessions_after, start, taken_of};
ghost use Rattle.aud_merge.specs.SessionSeen.{seen_or_absent};

use crate::progress::Progress;
use crate::session::OpenedSession;
use crate::sessions::Sessions;
use aud_node::Logs;
use aud_tap::{NodeRec, Tap};
use std::alloc::{AllocError, Global};
use std::marker::Model;

/// How far each log has come, and the sessions that were opened, by pid; texts are borrowed from the logs.
#[derive(Drop)]
pub struct State<'a> {
    logs: Vec<Progress>,
    sessions: Sessions<'a>,
}

impl<'a> Model for State<'a> {
    ghost use Rattle.aud_merge.specs.Machine.{State as Seen};
    ghost use Rattle.aud_merge.specs.Code.{state_code};

    ghost Value = { Seen };

    ghost coded = { state_code };

    ghost view = { λ s. record { logs = s.logs.items; sessions = s.sessions } };
}

impl<'a> State<'a> {
    /// Nothing was taken.
    pub fn new(alloc: Global, logs: &Logs<'a>) -> Result<State<'a>, AllocError>
        ensures { IfOk result (λ state. state ≡ start logs.now) }
    {
        Ok(State {
            logs: none_taken(alloc, logs.taps())?,
            sessions: Sessions::new(alloc),
        })
    }

    /// How far the log at this place has come.
    pub(crate) fn progress(&self, place: usize) -> Option<Progress>
        ensures { result ≡ slice_get self.now.logs place }
    {
        self.logs.get(place).copied()
    }

    /// The session of a pid; none where it wasn't opened.
    pub fn session(&self, pid: &str) -> Option<&OpenedSession<'a>>
        ensures { seen_or_absent (option_copied result) ≡ session_of self.now pid.now }
    {
        self.sessions.get(pid)
    }

    /// How many records of the log at this place were taken.
    pub fn taken(&self, place: usize) -> usize
        ensures { result ≡ taken_of self.now place }
    {
        match self.logs.get(place) {
            Some(progress) => progress.taken,
            None => 0,
        }
    }

    /// How many entries of the stream are appended.
    pub(crate) fn appended(&self, logs: &Logs) -> usize
        ensures { result ≡ appended logs.now self.now }
    {
        match logs.stream_place() {
            Some(place) => self.taken(place),
            None => 0,
        }
    }

    /// Whether the session that the node's record names allows it.
    pub(crate) fn allows(&self, node: usize, rec: &NodeRec) -> bool
        ensures { result ≡ is_some (sessions_after node rec.now
            (pid_of rec.now) self.now.sessions) }
    {
        self.sessions.allow(node, rec)
    }

    /// What an allowed record of the node does to the session that it names, if it names one.
    pub(crate) fn change(&mut self, node: usize, rec: &'a NodeRec) -> Result<(), AllocError>
        requires { IsSome (sessions_after node rec.now (pid_of rec.now) self.old.sessions) }
        ensures changed { OnOk result (sessions_after node rec.now
            (pid_of rec.now) self.old.sessions ≡ Some self.new.sessions) }
        ensures logs { self.new.logs ≡ self.old.logs }
        ensures unchanged { OnErr result (self.new ≡ self.old) }
    {
        self.sessions.change(node, rec)
    }

    /// So many records of the log at this place are taken now, and this is its cursor.
    pub(crate) fn advance(&mut self, place: usize, taken: usize, cursor: u64)
        requires { place < length self.old.logs }
        ensures { self.new ≡ record self.old {
          logs = set self.old.logs place
              (record { taken = taken; cursor = cursor });
        } }
    {
        self.logs[place] = Progress { taken, cursor };
    }
}

/// Of each tap, that nothing was taken.
fn none_taken(alloc: Global, taps: &[Tap]) -> Result<Vec<Progress>, AllocError>
    ensures { IfOk result (λ logs. logs.items
        ≡ map (λ _. record { taken = 0; cursor = 0 }) taps.now) }
{
    let mut logs = Vec::new(alloc);
    for _ in taps {
        logs.push(Progress {
            taken: 0,
            cursor: 0,
        })?;
    }
    Ok(logs)
}

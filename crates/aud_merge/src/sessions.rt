//! The sessions that were opened, by pid.
ghost use Rattle.std.specs.Prelude.{◌≡◌, OnOk, OnErr, IsSome, Some, is_some};
ghost use Rattle.std.specs.Option.{option_copied, unwrap_or};
ghost use Rattle.std.specs.FinMap as fin;
ghost use Rattle.aud_node.specs.TurnRecords.{pid_of};
ghost use Rattle.aud_merge.specs.Machine.{sessions_after};
ghost use Rattle.aud_merge.specs.Sessions.{Absent};
ghost use Rattle.aud_merge.specs.SessionSeen.{seen_or_absent, session_seen};

use crate::session::{OpenedSession, allows};
use aud_tap::NodeRec;
use std::alloc::{AllocError, Global};
use std::collections::BTreeMap;
use std::marker::Model;

/// The sessions that were opened, by pid; seen as a map. Pids are borrowed.
#[derive(Drop)]
pub(crate) struct Sessions<'a> {
    alloc: Global,
    map: BTreeMap<&'a str, OpenedSession<'a>>,
}

impl<'a> Model for Sessions<'a> {
    ghost use Rattle.std.specs.Ordering.{nat_cmp};
    ghost use Rattle.std.specs.Cmp.Lexicographic.{slice_cmp};
    ghost use Rattle.std.specs.FinMap as fin;
    ghost use Rattle.aud_merge.specs.Sessions.{SessionState};
    ghost use Rattle.aud_merge.specs.Code.{sessions_code};
    ghost use Rattle.aud_merge.specs.Private.SessionsSeen.{sessions_seen};

    ghost Value = { fin.FinMap (slice_cmp nat_cmp) SessionState };

    ghost coded = { sessions_code };

    ghost view = { λ s. sessions_seen s.map.entries };
}

impl<'a> Sessions<'a> {
    /// None was opened.
    pub(crate) fn new(alloc: Global) -> Sessions<'a>
        ensures { result ≡ fin.empty }
    {
        Sessions {
            alloc,
            map: BTreeMap::new(alloc),
        }
    }

    /// The session of a pid; none where it wasn't opened.
    #[tactic(auto, using(crate::proofs::Maps::seen_sessions))]
    pub(crate) fn get(&self, pid: &str) -> Option<&OpenedSession<'a>>
        ensures { seen_or_absent (option_copied result)
            ≡ unwrap_or (fin.get self.now pid.now) Absent }
    {
        self.map.get(pid)
    }

    /// Whether the session that the node's record names allows it.
    pub(crate) fn allow(&self, node: usize, rec: &NodeRec) -> bool
        ensures { result ≡ is_some (sessions_after node rec.now (pid_of rec.now) self.now) }
    {
        match rec.pid() {
            Some(pid) => allows(self.get(pid.as_str()), node, rec),
            None => true,
        }
    }

    /// What an allowed record of the node does to the session that it names, if it names one.
    pub(crate) fn change(&mut self, node: usize, rec: &'a NodeRec) -> Result<(), AllocError>
        requires { IsSome (sessions_after node rec.now (pid_of rec.now) self.old) }
        ensures changed { OnOk result (sessions_after node rec.now (pid_of rec.now) self.old
            ≡ Some self.new) }
        ensures unchanged { OnErr result (self.new ≡ self.old) }
    {
        let Some(pid) = rec.pid() else {
            return Ok(());
        };
        let pid = pid.as_str();
        match self.map.get_mut(pid) {
            Some(session) => session.change(node, rec),
            None => self.insert(pid, OpenedSession::open(self.alloc, node, rec)?),
        }
    }

    /// Puts the session of the pid.
    #[tactic(auto, using(crate::proofs::Maps::put_session))]
    fn insert(&mut self, pid: &'a str, session: OpenedSession<'a>) -> Result<(), AllocError>
        ensures inserted { OnOk result (self.new
            ≡ fin.insert self.old pid.now (session_seen session.entry)) }
        ensures unchanged { OnErr result (self.new ≡ self.old) }
    {
        self.map.insert(pid, session)?;
        Ok(())
    }
}

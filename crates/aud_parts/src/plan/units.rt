//! Sessions that one part has to have together.
ghost use Rattle.std.specs.Prelude.{◌≡◌};
ghost use Rattle.aud_parts.specs.LeftOut.{is_started};

use crate::clients::measured::MeasuredClient;
use crate::plan::groups::Groups;
use crate::plan::load::Load;
use crate::plan::sessions::Sessions;
use aud_base::numbers_to;
use aud_tap::{NodeRec, NodeRecs, Records, Tap};
use std::alloc::{AllocError, Global};

/// What a record that names a session adds to the weight of the session's unit, in bytes: about as many as its line
/// has.
const RECORD_WEIGHT: u64 = 64;

/// Sessions that one part has to have together: those that are joined by clients' taps which name several, and by logs
/// which don't begin with a `start`.
#[derive(Drop)]
pub(crate) struct Unit {
    /// The number of its first session.
    pub(crate) first: usize,
    /// The part that it is in, once it was put there.
    pub(crate) part: usize,
    /// What it brings to that part.
    pub(crate) load: Load,
}

/// The units of a recording.
#[derive(Drop)]
pub(crate) struct Units {
    /// The units, in the order of their first sessions.
    pub(crate) all: Vec<Unit>,
    /// Of each session, the number of its unit.
    pub(crate) of_sessions: Vec<usize>,
}

/// The units of the sessions, by the taps of the stream and the nodes, and by what the clients' taps tell.
pub(crate) fn units_of(
    alloc: Global,
    taps: &[Tap],
    clients: &[MeasuredClient],
    sessions: &Sessions,
) -> Result<Units, AllocError> {
    let mut groups = Groups {
        nearer: numbers_to(alloc, sessions.len())?,
    };
    for tap in taps {
        if let Records::Node(recs) = &tap.records {
            if !is_started(recs) {
                let mut last = None;
                for number in 0..recs.len() {
                    groups.join(&mut last, sessions.number_named(recs[number].pid()));
                }
            }
        }
    }
    for client in clients {
        let mut last = None;
        for pid in client.facts.pids.as_slice() {
            groups.join(&mut last, sessions.number_of(pid.as_str()));
        }
    }
    let mut units = Units::of_groups(alloc, sessions.len(), &mut groups)?;
    units.add(taps, clients, sessions)?;
    Ok(units)
}

/// Whether the log has no records, or begins with a `start`.
pub(crate) fn is_started(recs: &NodeRecs) -> bool
    ensures { result ≡ is_started recs.now }
{
    match recs.get(0) {
        Some(rec) => matches!(rec, NodeRec::Start { .. }),
        None => true,
    }
}

impl Units {
    /// A unit for each group, with its sessions alone.
    fn of_groups(alloc: Global, count: usize, groups: &mut Groups) -> Result<Units, AllocError> {
        let mut units = Units {
            all: Vec::new(alloc),
            of_sessions: Vec::with_capacity(alloc, count)?,
        };
        for session in 0..count {
            // (the least of a group comes first, and begins its unit)
            let begun = units.of_sessions.get(groups.least(session)).copied();
            let number = begun.unwrap_or(units.all.len());
            units.of_sessions.push(number)?;
            if begun.is_none() {
                units.all.push(Unit {
                    first: session,
                    part: 0,
                    load: Load::new(alloc),
                })?;
            }
            if let Some(unit) = units.all.get_mut(number) {
                unit.load.sessions = unit.load.sessions.saturating_add(1);
            }
        }
        Ok(units)
    }

    /// What the session's unit brings to a part.
    fn load_of(&mut self, session: Option<usize>) -> Option<&mut Load> {
        let number = *self.of_sessions.get(session?)?;
        Some(&mut self.all.get_mut(number)?.load)
    }

    /// The clients' taps and the records of the nodes' taps belong to the units of the sessions that they name.
    fn add(
        &mut self,
        taps: &[Tap],
        clients: &[MeasuredClient],
        sessions: &Sessions,
    ) -> Result<(), AllocError> {
        for client in clients {
            let first = client.facts.pids.as_slice().first();
            if let Some(load) = self.load_of(sessions.number_named(first)) {
                load.clients = load.clients.saturating_add(1);
                load.weight = load.weight.saturating_add(client.bytes);
            }
        }
        for (place, tap) in taps.iter().enumerate() {
            let Records::Node(recs) = &tap.records else {
                continue;
            };
            for number in 0..recs.len() {
                if let Some(load) = self.load_of(sessions.number_named(recs[number].pid())) {
                    load.weight = load.weight.saturating_add(RECORD_WEIGHT);
                    load.add_node(place)?;
                }
            }
        }
        Ok(())
    }
}

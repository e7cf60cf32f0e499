//! A plan of the parts of a recording.
ghost use Rattle.std.specs.Prelude.{◌≡◌, ◌≤◌, IfOk, max, vec_len};
ghost use Rattle.aud_base.specs.FirstTexts.{first_texts};
ghost use Rattle.aud_parts.specs.Plan.{all_mentions, HasRoom, IsClosed};

use crate::clients::measured::MeasuredClient;
use crate::plan::Plan;
use crate::plan::closed::is_sound;
use crate::plan::fault::PlanFault;
use crate::plan::placing::place_units;
use crate::plan::sessions::Sessions;
use crate::plan::units::units_of;
use aud_node::Logs;
use aud_tap::Tap;
use std::alloc::Global;

/// Plans at most so many parts, and one at least, of a recording with these logs of the stream and of the nodes, and
/// with clients' taps that tell this. Sessions that have to stay together are: those that one client's tap names, and
/// those of a node's log that has records and doesn't begin with a `start`. They go together, the heaviest first, to
/// the lightest part that has room for them; where there are fewer such units than parts, there are fewer parts. A unit
/// weighs as many bytes as its clients' taps have, and 64 more for each record of a node's tap that names one of its
/// sessions.
///
/// A part has room for 4,096 taps of clients, 65,536 sessions and 64 taps of nodes that name its sessions.
pub fn plan_parts(
    alloc: Global,
    logs: &Logs<'_>,
    clients: &[MeasuredClient],
    most: usize,
) -> Result<Plan, PlanFault>
    ensures sessions { IfOk result (λ plan. plan.sessions
        ≡ first_texts (all_mentions logs.now.taps clients.now)) }
    ensures closed { IfOk result (IsClosed logs.now.taps clients.now) }
    ensures room { IfOk result HasRoom }
    ensures some { IfOk result (λ plan. 1 ≤ vec_len plan.weights) }
    ensures few { IfOk result (λ plan. vec_len plan.weights ≤ max most 1) }
{
    let taps = logs.taps();
    let sessions = Sessions::of(alloc, logs, clients)?;
    let Placed {
        parts,
        clients_in,
        weights,
    } = place_sessions(alloc, taps, clients, &sessions, most)?;
    let plan = Plan {
        sessions,
        parts,
        clients: clients_in,
        weights,
    };
    if is_sound(taps, clients, &plan) {
        Ok(plan)
    } else {
        Err(PlanFault::Unclosed)
    }
}

/// Units in parts.
#[derive(Drop)]
struct Placed {
    /// Of each session, the part of its unit.
    parts: Vec<usize>,
    /// Of each client's tap, the part of its sessions.
    clients_in: Vec<Option<usize>>,
    /// How heavy each part is.
    weights: Vec<u64>,
}

/// The sessions in at most so many parts, by their units, and the clients' taps with them.
fn place_sessions(
    alloc: Global,
    taps: &[Tap],
    clients: &[MeasuredClient],
    sessions: &Sessions,
    most: usize,
) -> Result<Placed, PlanFault>
    ensures some { IfOk result (λ placed. 1 ≤ vec_len placed.weights) }
    ensures few { IfOk result (λ placed. vec_len placed.weights ≤ max most 1) }
{
    let mut units = units_of(alloc, taps, clients, sessions)?;
    let weights = place_units(alloc, sessions, &mut units.all, most)?;
    let mut parts = Vec::with_capacity(alloc, units.of_sessions.len())?;
    for number in &units.of_sessions {
        let part = match units.all.get(*number) {
            Some(unit) => unit.part,
            None => 0,
        };
        parts.push(part)?;
    }
    let mut clients_in = Vec::with_capacity(alloc, clients.len())?;
    for client in clients {
        let first = client.facts.pids.as_slice().first();
        let part = match sessions.number_named(first) {
            Some(session) => parts.get(session).copied(),
            None => None,
        };
        clients_in.push(part)?;
    }
    Ok(Placed {
        parts,
        clients_in,
        weights,
    })
}

//! Whether a plan keeps together what has to stay together.
ghost use Rattle.std.specs.Prelude.{◌≡◌, Some, true};
ghost use Rattle.std.specs.List.{list_all};
ghost use Rattle.aud_tap.specs.declared.taps.Tap.{Tap};
ghost use Rattle.aud_node.specs.Cluster.{node_recs};
ghost use Rattle.aud_parts.specs.Plan.{client_pids, has_its_part, is_in};
ghost use Rattle.aud_parts.specs.Plan.{HasRoom, IsClosed, StaysWhole};

use crate::clients::measured::MeasuredClient;
use crate::plan::Plan;
use crate::plan::units::is_started;
use aud_reader::{MAX_CLIENT_TAPS, MAX_PIDS};
use aud_tap::{NodeRecs, Records, Tap, Text};

/// Whether each session has one of the parts, each client's tap has that of all its sessions, and one part has all
/// sessions of each log that doesn't begin with a `start`; and no part has more sessions, or more clients' taps, than a
/// bundle may have.
pub(crate) fn is_sound(taps: &[Tap], clients: &[MeasuredClient], plan: &Plan) -> bool
    ensures closed { result ≡ true → IsClosed taps.now clients.now plan.now }
    ensures room { result ≡ true → HasRoom plan.now }
{
    if plan.parts.len() != plan.sessions.len() {
        return false;
    }
    for own in &plan.parts {
        if *own >= plan.weights.len() {
            return false;
        }
    }
    if plan.clients.len() != clients.len() {
        return false;
    }
    for (number, client) in clients.iter().enumerate() {
        if !is_client_in(client, plan, plan.clients[number]) {
            return false;
        }
    }
    for tap in taps {
        if !stays_whole(tap, plan) {
            return false;
        }
    }
    for part in 0..plan.weights.len() {
        if plan.session_count(part) > MAX_PIDS {
            return false;
        }
        if plan.client_count(part) > MAX_CLIENT_TAPS {
            return false;
        }
    }
    true
}

/// Whether the client's tap has this part.
fn is_client_in(client: &MeasuredClient, plan: &Plan, part: Option<usize>) -> bool
    ensures { result ≡ has_its_part plan.now (client_pids client.now) part }
{
    let pids = client.facts.pids.as_slice();
    match part {
        None => pids.is_empty(),
        Some(part) => !pids.is_empty() && are_in(plan, part, pids),
    }
}

/// Whether all these sessions have the part.
fn are_in(plan: &Plan, part: usize, pids: &[Text]) -> bool
    ensures { result ≡ list_all (is_in plan.now part) pids.now }
{
    pids.iter().all(|pid| plan.is_in(part, pid.as_str()))
}

/// Whether one part has all sessions of the tap's log, if it is a node's and doesn't begin with a `start`.
fn stays_whole(tap: &Tap, plan: &Plan) -> bool
    ensures { result ≡ true → StaysWhole plan.now (node_recs (Some tap.now.records)) }
{
    let Records::Node(recs) = &tap.records else {
        return true;
    };
    if is_started(recs) {
        return true;
    }
    let part = first_part(recs, plan);
    for number in 0..recs.len() {
        let Some(pid) = recs[number].pid() else {
            continue;
        };
        if !plan.is_in(part, pid.as_str()) {
            return false;
        }
    }
    true
}

/// The part of the first session that the log names; the first part where it names none.
fn first_part(recs: &NodeRecs, plan: &Plan) -> usize {
    for number in 0..recs.len() {
        if let Some(pid) = recs[number].pid() {
            if let Some(part) = plan.part_of(pid.as_str()) {
                return part;
            }
        }
    }
    0
}

//! The bundle of a cluster that runs a schedule.
ghost use Rattle.std.specs.Prelude.{◌≡◌, ◌≤◌, IfOk, MatchOption, Ok, Err};
ghost use Rattle.aud_sim.specs.Cluster.{seen};
ghost use Rattle.aud_sim.specs.Schedule.{scheduled, simulated, Simulates};

use crate::act::Act;
use crate::cluster::Cluster;
use crate::doing::perform;
use crate::fault::SimFault;
use crate::possible::can;
use std::alloc::{AllocError, Global};

/// Does the acts, up to the first that isn't possible, whose number it answers, from 0.
fn run(cluster: &mut Cluster, acts: &[Act]) -> Result<Option<usize>, AllocError>
    ensures { IfOk result (λ refused. MatchOption refused
        (scheduled 0 acts.now (seen cluster.old) ≡ Ok (seen cluster.new).lines.text)
        (λ number. scheduled 0 acts.now (seen cluster.old) ≡ Err number)) }
{
    for (number, act) in acts.iter().enumerate() {
        if !can(act, cluster) {
            return Ok(Some(number));
        }
        perform(cluster, act)?;
        if !cluster.bundle.is_whole {
            return Ok(Some(number));
        }
    }
    Ok(None)
}

/// The bundle of a cluster of so many nodes and clients that runs a schedule: its taps are `st`, `n1` and on, `c1` and
/// on. All headers come first, then the start of each node, then the lines of the acts.
///
/// Acts count from 0, nodes and clients from 1. `Act` names the first act that isn't possible in the state that the
/// acts before it leave, or of which a field or a line is outside a bundle's limits; there is then no bundle. The other
/// error is `Memory`.
pub fn simulate(
    alloc: Global,
    nodes: usize,
    clients: usize,
    acts: &[Act],
) -> Result<Vec<u8>, SimFault>
    requires nodes { (1 ≤ nodes) × (nodes ≤ 64) }
    requires clients { (1 ≤ clients) × (clients ≤ 4096) }

    ensures { Simulates result (simulated nodes clients acts.now) }
{
    let Ok(mut cluster) = Cluster::new(alloc, nodes, clients) else {
        return Err(SimFault::Memory);
    };
    match run(&mut cluster, acts) {
        Ok(None) => Ok(cluster.bundle.text),
        Ok(Some(number)) => Err(SimFault::Act(number)),
        Err(AllocError) => Err(SimFault::Memory),
    }
}

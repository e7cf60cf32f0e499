//! A plan whose parts have at most so many bytes.
ghost use Rattle.std.specs.Prelude.{IfOk};
ghost use Rattle.aud_parts.specs.Plan.{IsClosed};

use crate::clients::measured::MeasuredClient;
use crate::part::text::Planned;
use crate::plan::Plan;
use crate::plan::fault::PlanFault;
use crate::plan::planning::plan_parts;
use aud_node::Logs;
use aud_reader::ReadFault;
use std::alloc::Global;
use thiserror::Error;

/// How many numbers of parts are tried at most.
const TRIES: u64 = 4_096;

/// Why there is no plan whose parts are small enough.
#[derive(Debug, Drop, Error)]
pub enum SizedFault {
    /// There is no plan at all.
    #[error("{0}")]
    Plan(PlanFault),
    /// A line of the stream's or of a node's tap would be too long in a part.
    #[error("a line of a part would be longer than a bundle's may be")]
    LineTooLong,
    /// Sessions that can't be parted, of which this is the first, make a part of so many bytes.
    #[error("session {first} and those that go with it make a part of {bytes} bytes, and can't be parted")]
    TooLarge { first: String, bytes: u64 },
    /// No such number was among those that were tried.
    #[error("no number of parts was found")]
    NotFound,
}

/// A part that has so many bytes.
#[derive(Drop)]
struct Measured {
    part: usize,
    bytes: u64,
}

/// A part that has more than so many bytes: the heaviest one, the first of those that are as heavy; or else the first
/// of the others.
fn larger_part(
    alloc: Global,
    logs: &Logs<'_>,
    clients: &[MeasuredClient],
    plan: &Plan,
    most: u64,
) -> Result<Option<Measured>, SizedFault> {
    let mut heaviest = 0usize;
    let mut weight = 0u64;
    for (part, own) in plan.weights.iter().enumerate() {
        if *own > weight {
            heaviest = part;
            weight = *own;
        }
    }
    let planned = &Planned::new(alloc, logs, clients, plan);
    for number in 0..plan.weights.len() {
        let part = if number == 0 {
            heaviest
        } else if number <= heaviest {
            number - 1
        } else {
            number
        };
        let servers = match planned.servers(part, &[]) {
            Ok(servers) => servers,
            Err(ReadFault::Memory) => return Err(SizedFault::Plan(PlanFault::Memory)),
            Err(ReadFault::Input(_, _)) => return Err(SizedFault::LineTooLong),
        };
        let bytes = planned.bytes(part, &servers);
        if bytes > most {
            return Ok(Some(Measured { part, bytes }));
        }
    }
    Ok(None)
}

/// Why a part can't be smaller.
fn too_large(plan: &Plan, larger: Measured) -> SizedFault {
    let Measured { part, bytes } = larger;
    let first = plan.parts.iter().position(|own| *own == part);
    match plan.sessions.copy_of(first.unwrap_or(plan.parts.len())) {
        Ok(first) => SizedFault::TooLarge { first, bytes },
        Err(_) => SizedFault::Plan(PlanFault::Memory),
    }
}

/// Plans parts of at most so many bytes each, as few as are found: numbers of parts are tried, beginning with the bytes
/// of the clients' taps by those of a part, and going on in proportion to what is too much. Each part that is tried is
/// made in memory.
pub fn plan_within(
    alloc: Global,
    logs: &Logs<'_>,
    clients: &[MeasuredClient],
    most: u64,
) -> Result<Plan, SizedFault>
    ensures { IfOk result (IsClosed logs.now.taps clients.now) }
{
    let mut bytes = 0u64;
    for client in clients {
        bytes = bytes.saturating_add(client.bytes);
    }
    let mut parts = (bytes / most.max(1)).saturating_add(1) as usize;
    for _try in 0..TRIES {
        let bytes = match plan_parts(alloc, logs, clients, parts) {
            Ok(plan) => {
                let Some(larger) = larger_part(alloc, logs, clients, &plan, most)? else {
                    return Ok(plan);
                };
                if plan.weights.len() < parts || plan.session_count(larger.part) < 2 {
                    return Err(too_large(&plan, larger));
                }
                larger.bytes
            }
            Err(
                PlanFault::NoRoom {
                    first: _first,
                    limit: _limit,
                },
            ) => 0,
            Err(fault) => return Err(SizedFault::Plan(fault)),
        };
        // (in proportion to what is too much, and by an eighth more at least)
        let number = parts as u64;
        let in_proportion = number.saturating_mul(bytes) / most.max(1);
        let more = number.saturating_add(number / 8).saturating_add(1);
        parts = in_proportion.max(more) as usize;
    }
    Err(SizedFault::NotFound)
}

//! What is read once for all explanations.
ghost use Rattle.std.specs.Prelude.{IfOk};
ghost use Rattle.aud_findings.specs.Prepared.{IsPreparedOf};

use crate::asked::Asked;
use aud_cert::Fault;
use aud_client::Recording;
use aud_findings::Prepared;
use aud_verdict::{SessionVerdict, Verdict};
use std::alloc::{AllocError, Global};

/// What the explanations of these sessions are made from: the clients' taps that name them or asked for them, and where
/// a node of one is out of order the orders of all nodes.
pub(crate) fn prepared_for(
    alloc: Global,
    recording: &Recording<'_>,
    asked: &Asked,
    sessions: &[&SessionVerdict],
) -> Result<Prepared, AllocError>
    ensures { IfOk result (IsPreparedOf recording.now) }
{
    let mut places = Vec::new(alloc);
    let mut orders = false;
    for session in sessions {
        let pid = session.pid.as_str();
        places.extend_from_slice(recording.naming(pid))?;
        for recovery in &asked.of(alloc, pid)? {
            places.push(recovery.client)?;
        }
        if let Verdict::No(Fault::Order) = &session.verdict {
            orders = true;
        }
    }
    Prepared::read(alloc, recording, places.as_slice(), orders)
}

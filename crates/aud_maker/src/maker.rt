//! Makes the certificate of a session.
ghost use Rattle.std.specs.Prelude.{◌≡◌, IfOk, IfErr, OnOk};
ghost use Rattle.aud_maker.specs.Faults.{HasNoMakeFault, IsWhy};
ghost use Rattle.aud_maker.specs.Made.{IsMade};

use crate::begun::is_opened;
use crate::chain::chain_of;
use crate::client::only_client;
use crate::made::certificate_of;
use crate::order::are_ordered;
use aud_cert::{Certificate, Fault};
use aud_client::Recording;
use std::alloc::{AllocError, Global};
use thiserror::Error;

/// Why no certificate was made.
#[derive(Debug, Drop, Error)]
pub enum MakeFault {
    /// The session has this fault: `NoLog`, `Chain`, `Order` or `Client`.
    #[error("{0}")]
    Fault(Fault),
    /// Memory for the certificate could not be had.
    #[error("out of memory")]
    Memory,
}

impl From<AllocError> for MakeFault {
    ghost use Rattle.std.specs.Prelude.{◌≡◌};
    ghost use Rattle.aud_maker.specs.declared.maker.MakeFault.TheVariants.{Memory};

    ghost from_gives = { λ _ e. e ≡ Memory };

    fn from(_: AllocError) -> MakeFault {
        MakeFault::Memory
    }
}

/// The certificate of all turns of the session, with the spans of its rooms and the name of the one client tap with a
/// reply that names it; or the first of the faults `NoLog`, `Chain`, `Order` and `Client` that holds. Names, records
/// and rooms are borrowed from the taps. It looks at the session's own records, on the nodes where it was, and at no
/// others.
pub fn make<'a>(
    alloc: Global,
    recording: &Recording<'a>,
    pid: &str,
) -> Result<Certificate<'a>, MakeFault>
    ensures made { IfOk result (λ cert. IsMade recording.now pid.now cert) }
    ensures no_fault { OnOk result (HasNoMakeFault recording.now pid.now) }
    ensures why { IfErr result (IsWhy recording.now pid.now) }
{
    let logs = recording.logs();
    let nodes = logs.nodes_of(pid);
    if !is_opened(logs, nodes, pid) {
        return Err(MakeFault::Fault(Fault::NoLog));
    }
    let found = chain_of(alloc, logs, nodes, pid)?;
    let Some(chain) = found else {
        return Err(MakeFault::Fault(Fault::Chain));
    };
    if !are_ordered(logs, &chain.turns) {
        return Err(MakeFault::Fault(Fault::Order));
    }
    let Some(client) = only_client(recording, pid) else {
        return Err(MakeFault::Fault(Fault::Client));
    };
    Ok(certificate_of(alloc, logs, pid, &chain, client)?)
}

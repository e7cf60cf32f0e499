//! The recoveries of a session that were refused.
ghost use Rattle.std.specs.Prelude.{◌≡◌, IfOk};
ghost use Rattle.std.specs.List.{AllZip, filter};
ghost use Rattle.aud_rows.specs.ClientPlaces.{AreOf};
ghost use Rattle.aud_session_facts.specs.Recoveries.{is_refused};
ghost use Rattle.aud_findings.specs.Prepared.{IsPreparedOf};
ghost use Rattle.aud_explain_app.specs.Refused.{IsRefusedTold};

use crate::asked::refused_among;
use aud_causes::{CauseFound, causes_of_refusal, refuted_of_refusal};
use aud_findings::{Prepared, RefusedShown, refused_shown};
use aud_rows::{ClientPlaces, Sheet};
use aud_session_facts::Recovery;
use std::alloc::{AllocError, Global};

/// A recovery that was refused, and what that may come from.
#[derive(Drop)]
pub struct RefusedTold<'r> {
    /// What shows it; none where the line is not known on which the client asks.
    pub shown: Option<RefusedShown<'r>>,
    pub causes: Vec<CauseFound>,
    /// The names of the causes that it can have and that were refuted.
    pub refuted: Vec<&'static str>,
}

/// What is told of each of these recoveries that was refused, in their order.
pub(crate) fn all_refused<'r>(
    alloc: Global,
    sheet: &Sheet<'r, '_>,
    prepared: &Prepared,
    asked: &[Recovery],
) -> Result<Vec<RefusedTold<'r>>, AllocError>
    requires { IsPreparedOf sheet.now.recording.now prepared.now }
    ensures { IfOk result (λ told. AllZip
        (IsRefusedTold sheet.now.recording.now sheet.now.lines.now)
        (filter is_refused asked.now) told.items) }
{
    let refused = refused_among(alloc, asked)?;
    let mut told = Vec::new(alloc);
    for recovery in &refused {
        told.push(refused_told(alloc, sheet, prepared, recovery)?)?;
    }
    Ok(told)
}

/// What is told of the recovery. The tap of its client is read where it wasn't prepared.
fn refused_told<'r>(
    alloc: Global,
    sheet: &Sheet<'r, '_>,
    prepared: &Prepared,
    recovery: &Recovery,
) -> Result<RefusedTold<'r>, AllocError>
    requires { IsPreparedOf sheet.now.recording.now prepared.now }
    ensures { IfOk result (IsRefusedTold sheet.now.recording.now sheet.now.lines.now recovery.now) }
{
    match prepared.tap(recovery.client) {
        Some(tap) => told_in(alloc, sheet, tap, recovery),
        None => {
            let tap = ClientPlaces::read(alloc, sheet.recording.logs(), recovery.client)?;
            told_in(alloc, sheet, &tap, recovery)
        }
    }
}

/// The same by the tap of its client.
fn told_in<'r>(
    alloc: Global,
    sheet: &Sheet<'r, '_>,
    tap: &ClientPlaces,
    recovery: &Recovery,
) -> Result<RefusedTold<'r>, AllocError>
    requires of { AreOf sheet.now.recording.now tap.now }
    requires place { tap.now.place ≡ recovery.now.client }
    ensures { IfOk result (IsRefusedTold sheet.now.recording.now sheet.now.lines.now recovery.now) }
{
    let shown = refused_shown(alloc, sheet, tap, recovery)?;
    let causes = causes_of_refusal(alloc, sheet, tap, recovery)?;
    let refuted = refuted_of_refusal(alloc, causes.as_slice())?;
    Ok(RefusedTold {
        shown,
        causes,
        refuted,
    })
}

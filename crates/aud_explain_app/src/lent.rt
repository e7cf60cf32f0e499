//! Lists of what is told, borrowed for an explanation.
ghost use Rattle.std.specs.Prelude.{◌≡◌, ◌++◌, IfOk, map};
ghost use Rattle.aud_explanation.specs.declared.cause.CauseOf.TheVariants.{Fault};
ghost use Rattle.aud_findings.specs.Also.{also_seen};
ghost use Rattle.std.specs.Option.{option_copied};
ghost use Rattle.aud_explain_app.specs.Lent.{also_told, ask_line, cause_of, cause_told, causes_of_refusal, causes_of_refusals, recoveries_shown, recovery_told};

use crate::refused_told::RefusedTold;
use aud_causes::CauseFound;
use aud_explanation::{Also, Cause, CauseOf, RefusedRecovery};
use aud_findings::{AlsoShown, RefusedShown};
use std::alloc::{AllocError, Global};

/// The other entries with the same fault.
pub(crate) fn also_lent<'l>(
    alloc: Global,
    others: &'l [AlsoShown],
) -> Result<Vec<Also<'l>>, AllocError>
    ensures { IfOk result (λ lent. map also_told lent.items ≡ map also_seen others.now) }
{
    let mut lent = Vec::new(alloc);
    for other in others {
        lent.push(Also {
            position: other.position,
            to: other.to,
            lines: other.lines.as_slice(),
        })?;
    }
    Ok(lent)
}

/// Those of the refused recoveries that are shown.
pub(crate) fn refused_lent<'l, 'r>(
    alloc: Global,
    refused: &'l [RefusedTold<'r>],
) -> Result<Vec<RefusedRecovery<'l, 'r>>, AllocError>
    ensures { IfOk result (λ lent. map recovery_told lent.items ≡ recoveries_shown refused.now) }
{
    let mut lent = Vec::new(alloc);
    for told in refused {
        if let Some(shown) = &told.shown {
            lent.push(RefusedRecovery {
                ask: shown.ask,
                reply: shown.reply,
                instead: shown.instead,
                missed: shown.missed.as_deref(),
                has_cause: !told.causes.is_empty(),
                refuted: told.refuted.as_slice(),
            })?;
        }
    }
    Ok(lent)
}

/// The causes of the fault, and after them those of the refusals.
pub(crate) fn causes_lent<'l>(
    alloc: Global,
    causes: &'l [CauseFound],
    refused: &'l [RefusedTold<'_>],
) -> Result<Vec<Cause<'l>>, AllocError>
    ensures { IfOk result (λ lent. map cause_told lent.items
        ≡ map (cause_of Fault) causes.now ++ causes_of_refusals refused.now) }
{
    let own = each_lent(alloc, CauseOf::Fault, causes)?;
    let mut lent = own;
    for told in refused {
        let more = refusal_lent(alloc, told)?;
        lent.extend_from_slice(&more)?;
    }
    Ok(lent)
}

/// Those of this refusal.
fn refusal_lent<'l>(alloc: Global, told: &'l RefusedTold<'_>) -> Result<Vec<Cause<'l>>, AllocError>
    ensures { IfOk result (λ lent. map cause_told lent.items ≡ causes_of_refusal told.now) }
{
    let line = ask_line(told.shown.as_ref());
    each_lent(alloc, CauseOf::Refused { line }, &told.causes)
}

/// The line of the ask, if the recovery is shown.
fn ask_line(shown: Option<&RefusedShown<'_>>) -> Option<u64>
    ensures { result ≡ ask_line (option_copied shown.entry) }
{
    Some(shown?.ask.line)
}

/// Each of these causes, which are of this.
fn each_lent<'l>(
    alloc: Global,
    of: CauseOf,
    causes: &'l [CauseFound],
) -> Result<Vec<Cause<'l>>, AllocError>
    ensures { IfOk result (λ lent. map cause_told lent.items ≡ map (cause_of of) causes.now) }
{
    let mut lent = Vec::new(alloc);
    for cause in causes {
        lent.push(Cause {
            id: cause.id,
            of,
            state: cause.state,
            lines: cause.lines.as_slice(),
            why: cause.why.as_str(),
            todo: cause.todo,
        })?;
    }
    Ok(lent)
}

//! What the explanation of a session tells of causes.
ghost use Rattle.std.specs.Prelude.{◌≡◌, ◌++◌, IfOk, OnOk, map};
ghost use Rattle.aud_explain_app.specs.Summary.Causes.{name_of};
ghost use Rattle.aud_explain_app.specs.CausesTold.{AreCausesTold, names_of};

use crate::explained::Explained;
use crate::summary::causes::CausesTold;
use aud_causes::{CauseFound, refuted};
use aud_verdict::Verdict;
use std::alloc::{AllocError, Global};

/// The names of the causes that are told of the session, on which this is the verdict, and with which so many others are
/// told.
pub(crate) fn causes_told(
    explained: &Explained<'_>,
    alloc: Global,
    verdict: &Verdict,
    others: usize,
) -> Result<CausesTold, AllocError>
    ensures { IfOk result (AreCausesTold verdict.now others explained.now) }
{
    let unknown = refuted(alloc, verdict, &explained.causes)?;
    let is_unknown = explained.causes.is_empty() && !unknown.is_empty();
    let mut ids: Vec<&'static str> = Vec::new(alloc);
    push_names(&mut ids, &explained.causes)?;
    for told in &explained.refused {
        push_names(&mut ids, &told.causes)?;
    }
    Ok(CausesTold {
        ids,
        is_unknown,
        others,
    })
}

/// Adds the names of these causes.
fn push_names(ids: &mut Vec<&'static str>, causes: &[CauseFound]) -> Result<(), AllocError>
    ensures { OnOk result (map name_of ids.new.items
        ≡ map name_of ids.old.items ++ names_of causes.now) }
{
    for cause in causes {
        ids.push(cause.id)?;
    }
    Ok(())
}

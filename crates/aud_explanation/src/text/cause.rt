//! The causes.
ghost use Rattle.std.specs.Prelude.{◌≡◌, ◌++◌, OnOk, string_bytes};
ghost use Rattle.aud_explanation.specs.CauseText.{causes_text, has_own, is_sole, lines_words, none_holds, none_text, of_words, stands_words};

use crate::cause::{Cause, CauseOf, CauseState};
use crate::text::lines::{Lines, Page, push_long};
use crate::text::page::push_line;
use crate::text::span::push_lines;
use std::alloc::{AllocError, Global};

/// Puts the lines that say so at the end.
fn push_where(line: &mut String, lines: &[u64]) -> Result<(), AllocError>
    ensures { OnOk result (string_bytes line.new ≡ string_bytes line.old ++ lines_words lines.now) }
{
    if lines.is_empty() {
        Ok(())
    } else {
        line.push_str(", ")?;
        push_lines(line, lines)
    }
}

/// Puts the ask at the end, of which a cause of a refused recovery is.
fn push_of(line: &mut String, of: CauseOf) -> Result<(), AllocError>
    ensures { OnOk result (string_bytes line.new ≡ string_bytes line.old ++ of_words of) }
{
    match of {
        CauseOf::Fault => Ok(()),
        CauseOf::Refused { line: None } => line.push_str(", of the ask"),
        CauseOf::Refused { line: Some(ask) } => write!(line, ", of the ask on line {ask}"),
    }
}

/// How a cause stands, in words.
fn stands_words(sole: bool, of: CauseOf, state: CauseState) -> &'static str
    ensures { result.now ≡ stands_words sole of state }
{
    match (sole, of, state) {
        (true, CauseOf::Fault, CauseState::Fits) => "the one cause known",
        _ => state.word(),
    }
}

/// A line for what happened, and one for what to do.
impl<'r> Lines for Cause<'r> {
    ghost use Rattle.aud_explanation.specs.CauseText.{cause_text};

    ghost lines_of = { λ page cause. cause_text page.sole cause };

    fn push(&self, alloc: Global, out: &mut String, page: Page<'_>) -> Result<(), AllocError> {
        let (id, why, todo) = (self.id, self.why, self.todo);
        let stands = stands_words(page.sole, self.of, self.state);
        let mut line = format!(in alloc; "cause {id} ({stands}")?;
        push_where(&mut line, self.lines)?;
        push_of(&mut line, self.of)?;
        write!(&mut line, "): {why}")?;
        push_line(out, line.as_str())?;
        let line = format!(in alloc; "do: {todo}")?;
        push_line(out, line.as_str())
    }
}

/// Whether one of the causes is of the fault.
fn has_own(causes: &[Cause<'_>]) -> bool
    ensures { result ≡ has_own causes.now }
{
    causes
        .iter()
        .any(|cause| matches!(cause.of, CauseOf::Fault))
}

/// Whether one cause of the fault alone is known: none was refuted, and of these, among which those of the fault come
/// first, one is.
fn is_sole(refuted: &[&'static str], causes: &[Cause<'_>]) -> bool
    ensures { result ≡ is_sole refuted.now causes.now }
{
    if !refuted.is_empty() {
        return false;
    }
    match causes {
        [first, others @ ..] => matches!(first.of, CauseOf::Fault) && !has_own(others),
        [] => false,
    }
}

/// Puts at the end that no known cause holds, where causes of the fault are known, of which these were refuted, and none
/// of those that hold is of the fault.
fn push_none(
    out: &mut String,
    refuted: &[&'static str],
    causes: &[Cause<'_>],
) -> Result<(), AllocError>
    ensures { OnOk result (string_bytes out.new
        ≡ string_bytes out.old ++ none_text (none_holds refuted.now causes.now)) }
{
    if refuted.is_empty() {
        return Ok(());
    }
    if has_own(causes) {
        return Ok(());
    }
    out.push_str("no known cause of the fault holds\n")
}

/// Puts the causes at the end, of more than 200 the first 100 and the last 100, and before them that none of the fault
/// holds, where it is so.
pub(crate) fn push_causes(
    alloc: Global,
    out: &mut String,
    page: Page<'_>,
    refuted: &[&'static str],
    causes: &[Cause<'_>],
) -> Result<(), AllocError>
    ensures { OnOk result (string_bytes out.new
        ≡ string_bytes out.old ++ causes_text refuted.now causes.now) }
{
    push_none(out, refuted, causes)?;
    let sole = is_sole(refuted, causes);
    push_long(alloc, out, Page { sole, ..page }, causes)
}

//! The recoveries that were refused.
ghost use Rattle.std.specs.Prelude.{◌≡◌, ◌++◌, OnOk, string_bytes};
ghost use Rattle.std.specs.Option.{option_copied};
ghost use Rattle.aud_explanation.specs.RefusedText.{count_words, entries_missed, head_text, reply_text, unexplained_text};

use crate::name::{Names, push_named};
use crate::refused::{Missed, RefusedRecovery};
use crate::text::evidence::push_row;
use crate::text::lines::{Lines, Page, push_long};
use crate::text::page::push_line;
use crate::text::piece::Piece::{Name, Number, Words};
use crate::text::piece::push_line_of;
use aud_rows::Row;
use std::alloc::{AllocError, Global};

/// A line: `missed entry 3 3-0`.
impl<'r> Lines for Missed<'r> {
    ghost use Rattle.aud_explanation.specs.RefusedText.{missed_text};

    ghost lines_of = { λ page missed. missed_text missed };

    fn push(&self, alloc: Global, out: &mut String, _page: Page<'_>) -> Result<(), AllocError> {
        let (position, off) = (Number(self.position), Name(self.off));
        let pieces = [Words("    missed entry "), position, Words(" "), off];
        push_line_of(alloc, out, &pieces)
    }
}

/// Puts how many entries a client missed at the end.
fn push_count(line: &mut String, missed: Option<&[Missed<'_>]>) -> Result<(), AllocError>
    ensures { OnOk result (string_bytes line.new
        ≡ string_bytes line.old ++ count_words (option_copied missed.entry)) }
{
    match missed {
        Some(entries) => {
            let count = entries.len();
            write!(line, ", missed {count}")
        }
        None => write!(line, ", missed: not known"),
    }
}

/// Puts the line of a refused recovery at the end.
#[tactic(auto, unfolding(crate::specs::RefusedText::head_text))]
fn push_head(
    alloc: Global,
    out: &mut String,
    refused: &RefusedRecovery<'_, '_>,
) -> Result<(), AllocError>
    ensures { OnOk result (string_bytes out.new ≡ string_bytes out.old ++ head_text refused.now) }
{
    let mut line = String::new(alloc);
    line.push_str("refused recovery: ")?;
    let instead = refused.instead;
    push_named(
        alloc,
        &mut line,
        Names::Short,
        "got session ",
        instead,
        "got no session",
    )?;
    push_count(&mut line, refused.missed)?;
    push_line(out, line.as_str())
}

/// Puts the row of the reply at the end, where there is one.
fn push_reply(
    alloc: Global,
    out: &mut String,
    page: Page<'_>,
    reply: Option<Row<'_>>,
) -> Result<(), AllocError>
    ensures { OnOk result (string_bytes out.new ≡ string_bytes out.old
        ++ reply_text page.entry.files.now page.entry.pid.now page.entry.verdict.now
        page.entry.width reply.entry) }
{
    let (files, pid, verdict) = (page.files, page.pid, page.verdict);
    match reply {
        Some(reply) => push_row(alloc, out, files, pid, verdict, page.width, &reply),
        None => Ok(()),
    }
}

/// The entries that a client missed, where they are known.
fn entries_missed<'l, 'r>(missed: Option<&'l [Missed<'r>]>) -> &'l [Missed<'r>]
    ensures { result.now ≡ entries_missed (option_copied missed.entry) }
{
    match missed {
        Some(entries) => entries,
        None => &[],
    }
}

/// Puts at the end that no known cause of the refusal holds, where none is told.
fn push_unexplained(out: &mut String, has_cause: bool) -> Result<(), AllocError>
    ensures { OnOk result (string_bytes out.new
        ≡ string_bytes out.old ++ unexplained_text has_cause) }
{
    if has_cause {
        Ok(())
    } else {
        out.push_str("no known cause of the refusal holds\n")
    }
}

/// What the client got instead, the ask and the reply, what it missed, and whether a cause is known.
impl<'l, 'r> Lines for RefusedRecovery<'l, 'r> {
    ghost use Rattle.aud_explanation.specs.RefusedText.{refused_text};

    ghost lines_of = { λ page refused. refused_text page.files.now page.pid.now page.verdict.now refused };

    fn push(&self, alloc: Global, out: &mut String, page: Page<'_>) -> Result<(), AllocError> {
        let width = self.ask.tap.len();
        let (files, pid, verdict) = (page.files, page.pid, page.verdict);
        let page = Page { width, ..page };
        push_head(alloc, out, self)?;
        push_row(alloc, out, files, pid, verdict, width, &self.ask)?;
        push_reply(alloc, out, page, self.reply)?;
        push_long(alloc, out, page, entries_missed(self.missed))?;
        push_unexplained(out, self.has_cause)
    }
}

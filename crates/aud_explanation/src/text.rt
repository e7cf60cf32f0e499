//! The text of an explanation.
ghost use Rattle.std.specs.Prelude.{◌≡◌, ◌++◌, OnOk, string_bytes};
ghost use Rattle.aud_explanation.specs.Text.{shown_text, explanation_text};

mod alike;
mod also;
mod cause;
mod client;
mod event;
mod evidence;
mod lines;
mod mark;
mod page;
mod piece;
mod place;
mod record;
mod refused;
mod span;
mod turn;
mod verdict;

use crate::explanation::{Explanation, class_of_explained};
use crate::text::alike::push_alike;
use crate::text::also::push_more;
use crate::text::cause::push_causes;
use crate::text::client::push_client;
use crate::text::event::push_events;
use crate::text::evidence::push_evidence;
use crate::text::lines::{Page, push_each, push_long};
pub(crate) use crate::text::place::push_place;
pub(crate) use crate::text::record::{other_session, push_record};
use crate::text::turn::push_turns;
use crate::text::verdict::push_verdict;
use aud_input::InputFile;
use std::alloc::{AllocError, Global};

/// Puts the verdict, the client and the evidence at the end.
fn push_shown(
    alloc: Global,
    out: &mut String,
    files: &[InputFile],
    explanation: &Explanation<'_, '_, '_>,
) -> Result<(), AllocError>
    ensures { OnOk result (string_bytes out.new
        ≡ string_bytes out.old ++ shown_text files.now explanation.now) }
{
    let (pid, verdict) = (explanation.pid, explanation.verdict);
    let (client, account) = (explanation.client, explanation.account);
    let turns = explanation.turns.len();
    let page = Page {
        files,
        pid,
        verdict,
        width: 0,
        sole: false,
    };
    push_verdict(alloc, out, pid, verdict, class_of_explained(explanation))?;
    push_client(alloc, out, verdict, client, turns, account)?;
    push_evidence(alloc, out, files, pid, verdict, explanation.evidence)?;
    push_each(alloc, out, page, explanation.also)?;
    push_more(alloc, out, explanation.also_left)
}

/// Puts the text of an explanation at the end: the verdict with its class, the client, the evidence, the other entries
/// with the same fault and the other sessions with it, a row for each turn and one for the client, the refused
/// recoveries, and the causes.
///
/// A line has at most 100 columns, a character a column. A word that does not stand within it goes on in the next line,
/// after eight blanks, and so does what is left of a word that is longer than a line: nothing of it is left out. A
/// character stands there as [`push_printed`](crate::push_printed) puts it, its escape within one line.
///
/// Of more than 200 turns, rows of evidence, events of the client, refused recoveries, causes, or entries that the client
/// missed after a refused recovery, the first 100 and the last 100 stand there, and between them how many are left out.
/// Of the rows between, those at which the fault shows stand there too. So it is with the characters of a name.
///
/// `files` are those of the input, in which the lines of rows are counted: a row says in which of them its line stands,
/// by its name, and the line's number there. Nothing is said of files where there are fewer than two. A row whose record
/// speaks of another session names that, as `join r of p7`. Names stand there as [`named`](crate::named) has them.
pub fn push_text(
    alloc: Global,
    out: &mut String,
    files: &[InputFile],
    explanation: &Explanation<'_, '_, '_>,
) -> Result<(), AllocError>
    ensures { OnOk result (string_bytes out.new
        ≡ string_bytes out.old ++ explanation_text files.now explanation.now) }
{
    let page = Page {
        files,
        pid: explanation.pid,
        verdict: explanation.verdict,
        width: 0,
        sole: false,
    };
    push_shown(alloc, out, files, explanation)?;
    push_alike(alloc, out, explanation.alike)?;
    push_turns(alloc, out, page, explanation.turns)?;
    push_events(alloc, out, explanation.events)?;
    push_long(alloc, out, page, explanation.refused)?;
    push_causes(alloc, out, page, explanation.refuted, explanation.causes)
}

//! The explanations of sessions.
ghost use Rattle.std.specs.Prelude.{◌≡◌, ◌++◌, IfOk, OnOk, flat_map, length, map, string_bytes};
ghost use Rattle.std.specs.List.{AllZip};
ghost use Rattle.aud_findings.specs.Prepared.{IsPreparedOf};
ghost use Rattle.aud_explain_app.specs.Alike.{telling_of};
ghost use Rattle.aud_explain_app.specs.Asked.{AreAsked};
ghost use Rattle.aud_explain_app.specs.CausesTold.{AreCausesTold};
ghost use Rattle.aud_explain_app.specs.Texts.{AddTexts, IsTextOf, causes_in, text_in};
ghost use Rattle.aud_explain_app.specs.Written.{IsWritten};

use crate::alike::Told;
use crate::asked::Asked;
use crate::causes_told::causes_told;
use crate::explained::{Explained, explained_of};
use crate::summary::causes::CausesTold;
use crate::written::{Layout, written};
use aud_base::try_map;
use aud_findings::Prepared;
use aud_rows::Sheet;
use aud_verdict::Verdict;
use std::alloc::{AllocError, Global};
use std::thread::Threads;

/// How many sessions' texts are held beside the output at most.
const PART: usize = 1024;

/// What is told of a session.
#[derive(Drop)]
pub struct ToldText {
    /// The explanation, written.
    pub text: String,
    pub causes: CausesTold,
}

/// Writes what is told of these sessions at the end, one after the other, and adds what is told of causes. They are made
/// in parts, each shared out among at most so many threads.
pub(crate) fn push_sessions<H: Threads + Sync>(
    sheet: Sheet<'_, '_>,
    rt: &H,
    alloc: Global,
    threads: usize,
    out: &mut String,
    causes: &mut Vec<CausesTold>,
    layout: Layout<'_>,
    prepared: &Prepared,
    asked: &Asked,
    sessions: &[Told<'_>],
) -> Result<(), AllocError>
    requires prepared { IsPreparedOf sheet.recording.now prepared.now }
    requires asked { AreAsked sheet.recording.now asked.now }
    ensures { OnOk result (AddTexts sheet.entry.recording.now sheet.entry.lines.now
        layout.entry.form layout.entry.files.now (map telling_of sessions.now)
        (string_bytes out.old) (string_bytes out.new) causes.old.items causes.new.items) }
{
    let mut done = 0;
    while done < sessions.len() {
        let rest = &sessions[done..];
        let part = &rest[..rest.len().min(PART)];
        let texts = texts_of(sheet, rt, alloc, threads, layout, prepared, asked, part)?;
        push_all(out, causes, texts)?;
        done += part.len();
    }
    Ok(())
}

/// Writes the texts at the end, one after the other, and adds what they tell of causes.
fn push_all(
    out: &mut String,
    causes: &mut Vec<CausesTold>,
    told: Vec<ToldText>,
) -> Result<(), AllocError>
    ensures text { OnOk result (string_bytes out.new
        ≡ string_bytes out.old ++ flat_map text_in told.items) }
    ensures causes { OnOk result (causes.new.items
        ≡ causes.old.items ++ map causes_in told.items) }
{
    for one in told {
        let ToldText { text, causes: own } = one;
        out.push_str(text.as_str())?;
        causes.push(own)?;
    }
    Ok(())
}

/// The explanation of each of these sessions, in their order.
fn texts_of<H: Threads + Sync>(
    sheet: Sheet<'_, '_>,
    rt: &H,
    alloc: Global,
    threads: usize,
    layout: Layout<'_>,
    prepared: &Prepared,
    asked: &Asked,
    sessions: &[Told<'_>],
) -> Result<Vec<ToldText>, AllocError>
    requires prepared { IsPreparedOf sheet.recording.now prepared.now }
    requires asked { AreAsked sheet.recording.now asked.now }
    ensures { IfOk result (λ texts. AllZip
        (λ session told.
        IsTextOf sheet.entry.recording.now sheet.entry.lines.now layout.entry.form
        layout.entry.files.now (telling_of session) told) sessions.now texts.items) }
{
    try_map(
        rt,
        alloc,
        threads,
        sessions,
        |session: &Told<'_>| -> Result<ToldText, AllocError>
            requires prepared { IsPreparedOf sheet.recording.now prepared.now }
            requires asked { AreAsked sheet.recording.now asked.now }
            ensures { IfOk result (IsTextOf sheet.entry.recording.now sheet.entry.lines.now
                layout.entry.form layout.entry.files.now (telling_of session.now)) }
        { text_of(sheet, alloc, layout, prepared, asked, session) },
    )
}

/// What is told of the session.
fn text_of(
    sheet: Sheet<'_, '_>,
    alloc: Global,
    layout: Layout<'_>,
    prepared: &Prepared,
    asked: &Asked,
    session: &Told<'_>,
) -> Result<ToldText, AllocError>
    requires prepared { IsPreparedOf sheet.recording.now prepared.now }
    requires asked { AreAsked sheet.recording.now asked.now }
    ensures { IfOk result (IsTextOf sheet.entry.recording.now sheet.entry.lines.now
        layout.entry.form layout.entry.files.now (telling_of session.now)) }
{
    let pid = session.session.pid.as_str();
    let verdict = &session.session.verdict;
    let own = asked.of(alloc, pid)?;
    let own = own.as_slice();
    let explained = explained_of(alloc, sheet, prepared, pid, verdict, own)?;
    let alike = session.alike.as_slice();
    told_text(&explained, alloc, layout, pid, verdict, alike)
}

/// What is told of the session with this pid, on which this is the verdict, and the pids of those that it names.
fn told_text<'s>(
    explained: &'s Explained<'s>,
    alloc: Global,
    layout: Layout<'_>,
    pid: &'s str,
    verdict: &'s Verdict,
    alike: &'s [&'s str],
) -> Result<ToldText, AllocError>
    ensures { IfOk result (λ told. IsWritten layout.entry.form layout.entry.files.now pid.now
        verdict.now (map (λ other. other.now) alike.now) explained.now (string_bytes told.text)
        × AreCausesTold verdict.now (length alike.now) explained.now told.causes) }
{
    let text = written(explained, alloc, layout, pid, verdict, alike)?;
    let causes = causes_told(explained, alloc, verdict, alike.len())?;
    Ok(ToldText { text, causes })
}

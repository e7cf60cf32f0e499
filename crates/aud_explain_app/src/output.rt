//! What is written for a recording.
ghost use Rattle.std.specs.Prelude.{◌≡◌, ◌++◌, ◌<◌, ◌≤◌, ℕ, [], IfOk, OnOk, Err, None, Some, string_bytes};
ghost use Rattle.aud_node.specs.Cluster.{cluster_of};
ghost use Rattle.aud_node.specs.Names.{AreNamedOnce};
ghost use Rattle.aud_maker.specs.Sessions.{sessions_of};
ghost use Rattle.aud_verdict.specs.Verdicts.{AreVerdicts};
ghost use Rattle.aud_explain_app.specs.Alike.{tellings};
ghost use Rattle.aud_explain_app.specs.Asked.{AreAsked};
ghost use Rattle.aud_explain_app.specs.Output.{AreFigures, IsExplaining, form_of, pids_in, summary_in};
ghost use Rattle.aud_explain_app.specs.Chosen.{pids_left_out, sessions_chosen};
ghost use Rattle.aud_explain_app.specs.Missing.{first_missing, pids_known};
ghost use Rattle.aud_explain_app.specs.Strangers.{pids_of};
ghost use Rattle.aud_explain_app.specs.Texts.{AddTexts};
ghost use Rattle.aud_explain_app.specs.declared.fault.Unexplained.TheVariants.{NoSession};

use crate::alike::tellings;
use crate::asked::Asked;
use crate::chosen::{ChosenSessions, chosen};
use crate::fault::Unexplained;
use crate::prepared::prepared_for;
use crate::sessions::push_sessions;
use crate::status::status_by;
use crate::strangers::add_strangers;
use crate::summary::causes::CausesTold;
use crate::summary::json::summary_json;
use crate::summary::text::summary_text;
use crate::summary::{Input, Summary, says_nothing, summary_of};
use crate::written::{Form, Layout};
use aud_cli::{ExplainOptions, OutputForm};
use aud_client::Recording;
use aud_desk::{AuditFault, OpenGate, audit_with};
use aud_input::{InputFile, RecordLines, Recorded, Size};
use aud_rows::Sheet;
use aud_verdict::{Output, SessionVerdict, Status};
use std::alloc::{AllocError, Global};
use std::hash::RandomState;
use std::mem::ManuallyDrop;
use std::sync::Wait;
use std::thread::Threads;
use std::time::{Clock, Instant};

/// What the summary and the status tell of a recording.
#[derive(Clone, Copy, Drop)]
pub struct Figures {
    pub summary: Summary,
    pub status: Status,
}

/// What is told.
#[derive(Drop)]
pub struct Told<'o> {
    pub output: Output,
    /// The pids of the words whose sessions `--only` leaves out.
    pub left_out: Vec<&'o str>,
}

/// The explanations of sessions.
#[derive(Drop)]
struct Explanations<'o> {
    /// One after the other, written.
    text: String,
    /// What each of them tells of causes.
    causes: Vec<CausesTold>,
    /// The pids of the words whose sessions `--only` leaves out.
    left_out: Vec<&'o str>,
}

/// The form of the explanations: a page holds JSON.
pub(crate) fn form_of(options: &ExplainOptions) -> Form
    ensures { result ≡ form_of options.now.form }
{
    match options.form {
        OutputForm::Text => Form::Text,
        OutputForm::Json | OutputForm::Html => Form::Json,
    }
}

/// Writes the summary at the end, with what was told of causes.
fn push_summary(
    alloc: Global,
    out: &mut String,
    form: Form,
    summary: &Summary,
    causes: &[CausesTold],
) -> Result<(), AllocError>
    ensures { OnOk result (string_bytes out.new
        ≡ string_bytes out.old ++ summary_in form summary.now causes.now) }
{
    match form {
        Form::Text => {
            let text = summary_text(alloc, summary, causes)?;
            out.push_str(text.as_str())
        }
        Form::Json => {
            let line = summary_json(alloc, summary, causes)?;
            writeln!(out, "{line}")
        }
    }
}

/// How many whole seconds have gone by; 0 where the clock can't be read.
fn seconds_since<H: Clock>(rt: &H, start: Option<Instant>) -> u64 {
    match start {
        Some(start) => match start.elapsed(rt) {
            Ok(time) => time.as_secs(),
            Err(_) => 0,
        },
        None => 0,
    }
}

/// The explanations, and the summary of what was read since `start`, of a recording that is judged by as many workers as
/// the words say. The lines are those of the records, in these files.
pub(crate) fn output_of<'o, H: Threads + Wait + Clock + Sync>(
    recorded: &Recorded,
    rt: &H,
    alloc: Global,
    keys: RandomState,
    options: &'o ExplainOptions,
    start: Option<Instant>,
    lines: &RecordLines,
    files: &[InputFile],
) -> Result<Told<'o>, Unexplained>
    requires names { AreNamedOnce recorded.now.taps }
    requires workers { (0 < options.now.workers) × (options.now.workers ≤ 64) }
    ensures explaining { IfOk result (IsExplaining options.now
        (cluster_of recorded.now.taps) lines.now files.now recorded.now.size) }
    ensures missing { (number : ℕ) → result ≡ Err (NoSession number)
        → first_missing (pids_known (cluster_of recorded.now.taps)) options.now.pids ≡ Some number }
{
    let threads = options.workers as usize;
    let recording = ManuallyDrop::new(Recording::read(rt, alloc, keys, threads, &recorded.taps)?);
    let sheet = Sheet {
        recording: &recording,
        lines,
    };
    match audit_with(rt, alloc, &recording, threads, options.whole, &OpenGate) {
        Ok(report) => explaining(
            sheet,
            rt,
            alloc,
            keys,
            options,
            start,
            files,
            recorded.size,
            report.verdicts,
        ),
        Err(AuditFault::Workers) => unreachable!(),
        Err(AuditFault::Spawn) => Err(Unexplained::Spawn),
        Err(AuditFault::Memory(_)) => Err(Unexplained::Memory),
    }
}

/// The same over the recording, of whose sessions these are the verdicts.
fn explaining<'o, H: Threads + Clock + Sync>(
    sheet: Sheet<'_, '_>,
    rt: &H,
    alloc: Global,
    keys: RandomState,
    options: &'o ExplainOptions,
    start: Option<Instant>,
    files: &[InputFile],
    size: Size,
    verdicts: Vec<SessionVerdict>,
) -> Result<Told<'o>, Unexplained>
    requires { AreVerdicts sheet.recording.now options.now.whole
        (sessions_of sheet.recording.now) verdicts.items }
    ensures explaining { IfOk result (IsExplaining options.now sheet.entry.recording.now
        sheet.entry.lines.now files.now size) }
    ensures missing { (number : ℕ) → result ≡ Err (NoSession number)
        → first_missing (pids_known sheet.entry.recording.now) options.now.pids ≡ Some number }
{
    let asked = Asked::read(alloc, keys, sheet.recording)?;
    let figures = figures_of(sheet.recording, options, &asked, size, &verdicts);
    let mut sessions = verdicts;
    add_strangers(
        sheet.recording,
        alloc,
        keys,
        options.whole,
        &asked.all,
        &mut sessions,
    )?;
    let told = told_sessions(sheet, rt, alloc, keys, options, files, &asked, &sessions)?;
    let Explanations {
        text,
        causes,
        left_out,
    } = told;
    let mut out = text;
    let seconds = seconds_since(rt, start);
    let summary = Summary {
        input: Input {
            seconds,
            ..figures.summary.input
        },
        ..figures.summary
    };
    push_summary(alloc, &mut out, form_of(options), &summary, &causes)?;
    let output = Output {
        status: figures.status,
        text: out,
    };
    Ok(Told { output, left_out })
}

/// The figures of the recording, with no time yet, and how the run ends.
fn figures_of(
    recording: &Recording<'_>,
    options: &ExplainOptions,
    asked: &Asked,
    size: Size,
    verdicts: &[SessionVerdict],
) -> Figures
    requires { AreAsked recording.now asked.now }
    ensures { AreFigures options.now recording.now size verdicts.now result }
{
    let input = Input {
        lines: size.lines,
        bytes: size.bytes,
        seconds: 0,
    };
    let summary = summary_of(recording, verdicts, &asked.all, input);
    Figures {
        summary,
        status: status_by(
            options.fail_on,
            says_nothing(&summary),
            verdicts,
            &asked.all,
        ),
    }
}

/// The explanations of those of the sessions that are shown, of those with the same fault at the same record once.
fn told_sessions<'o, H: Threads + Sync>(
    sheet: Sheet<'_, '_>,
    rt: &H,
    alloc: Global,
    keys: RandomState,
    options: &'o ExplainOptions,
    files: &[InputFile],
    asked: &Asked,
    sessions: &[SessionVerdict],
) -> Result<Explanations<'o>, Unexplained>
    requires { AreAsked sheet.recording.now asked.now }
    ensures told { IfOk result (λ told. AddTexts sheet.entry.recording.now sheet.entry.lines.now
        (form_of options.now.form) files.now
        (tellings sheet.entry.recording.now options.now.pids (sessions_chosen
        sheet.entry.recording.now options.now.only options.now.pids sessions.now))
        [] (string_bytes told.text) [] told.causes.items) }
    ensures left_out { IfOk result (λ told. pids_in told.left_out.items
        ≡ pids_left_out sheet.entry.recording.now options.now.only sessions.now options.now.pids) }
    ensures none_missing { OnOk result (first_missing (pids_of sessions.now) options.now.pids
        ≡ None) }
    ensures missing { (number : ℕ) → result ≡ Err (NoSession number)
        → first_missing (pids_of sessions.now) options.now.pids ≡ Some number }
{
    let ChosenSessions { shown, left_out } = chosen(alloc, keys, options, asked, sessions)?;
    let prepared = prepared_for(alloc, sheet.recording, asked, &shown)?;
    let told = tellings(
        sheet.recording,
        alloc,
        keys,
        &prepared,
        asked,
        options.pids.as_slice(),
        &shown,
    )?;
    let threads = options.workers as usize;
    let layout = Layout {
        form: form_of(options),
        files,
    };
    let mut text = String::new(alloc);
    let mut causes = Vec::new(alloc);
    push_sessions(
        sheet,
        rt,
        alloc,
        threads,
        &mut text,
        &mut causes,
        layout,
        &prepared,
        asked,
        &told,
    )?;
    Ok(Explanations {
        text,
        causes,
        left_out,
    })
}

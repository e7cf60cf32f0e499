//! A whole run of `explain`: files in, explanations out.
ghost use Rattle.std.specs.Prelude.{◌≡◌, ◌≢◌, ◌<◌, ◌≤◌, true, IfErr, IfOk, OnErr, Err, None, length, map, option_map};
ghost use Rattle.std.specs.Io.KnownBytes.{Appends};
ghost use Rattle.aud_base.specs.Written.{AppendsFront};
ghost use Rattle.aud_base.specs.Watched.{inner_of, has_failed};
ghost use Rattle.aud_node.specs.Names.{AreNamedOnce};
ghost use Rattle.aud_explain_app.specs.Output.{AreUntold, IsAnswer, IsExplanation, IsOf, IsTold, IsUntold, files_told, lines_told};
ghost use Rattle.aud_explain_app.specs.Run.{Writes, WritesFront};
ghost use Rattle.aud_explain_app.specs.declared.fault.ExplainFault.TheVariants.{Write};

use crate::ending::Ending;
use crate::fault::{ExplainFault, Unexplained};
use crate::html::in_form;
use crate::output::{Told, form_of, output_of};
use crate::records::records_output;
use crate::refused::refused_output;
use crate::written::Layout;
use aud_base::{Watched, write_out};
use aud_cli::ExplainOptions;
use aud_input::{
    InputFile, InputFiles, PartLines, ReadingFault, RecordLines, Recorded, read_files,
};
use aud_verdict::{Output, Status};
use std::alloc::Global;
use std::hash::RandomState;
use std::io::{Read, Write};
use std::mem::ManuallyDrop;
use std::sync::Wait;
use std::thread::Threads;
use std::time::{Clock, Instant};

/// What is told of the recording, where the lines of its records are these, in these files: the records that are named,
/// or, where none is, its sessions.
fn told_with<'o, H: Threads + Wait + Clock + Sync>(
    recorded: &Recorded,
    rt: &H,
    alloc: Global,
    keys: RandomState,
    options: &'o ExplainOptions,
    start: Option<Instant>,
    lines: &RecordLines,
    files: &[InputFile],
) -> Result<Told<'o>, ExplainFault>
    requires names { AreNamedOnce recorded.now.taps }
    requires workers { (0 < options.now.workers) × (options.now.workers ≤ 64) }
    ensures told { IfOk result (IsAnswer options.now.records options.now
        recorded.now.taps lines.now files.now recorded.now.size) }
    ensures untold { IfErr result (IsUntold options.now None recorded.now) }
{
    let records = options.records.as_slice();
    if records.is_empty() {
        let explained = output_of(recorded, rt, alloc, keys, options, start, lines, files)?;
        return Ok(explained);
    }
    let form = form_of(options);
    let layout = Layout { form, files };
    let output = records_output(recorded.taps.as_slice(), alloc, layout, lines, records)?;
    let left_out = Vec::new(alloc);
    Ok(Told { output, left_out })
}

/// What is told of the recording, where it is this part, its lines named as those of the input that they come from, or a
/// whole, whose files are those that the words name.
fn told_of<'o, H: Threads + Wait + Clock + Sync>(
    recorded: &Recorded,
    rt: &H,
    alloc: Global,
    keys: RandomState,
    options: &'o ExplainOptions,
    start: Option<Instant>,
    part: Option<&PartLines>,
) -> Result<Told<'o>, ExplainFault>
    requires names { AreNamedOnce recorded.now.taps }
    requires workers { (0 < options.now.workers) × (options.now.workers ≤ 64) }
    ensures told { IfOk result (λ told.
        IsOf (option_map (λ part. part.now) part.entry) recorded.now.size
        × IsAnswer options.now.records options.now recorded.now.taps
        (lines_told (option_map (λ part. part.now) part.entry) recorded.now.lines)
        (files_told (option_map (λ part. part.now) part.entry) options.now.files
        recorded.now.counts.items) recorded.now.size told) }
    ensures untold { IfErr result (IsUntold options.now
        (option_map (λ part. part.now) part.entry) recorded.now) }
{
    let Some(part) = part else {
        let lines = &recorded.lines;
        let files = InputFiles::of(alloc, options.files.as_slice(), &recorded.counts)?;
        let files = files.as_slice();
        return told_with(recorded, rt, alloc, keys, options, start, lines, files);
    };
    if !part.is_of(recorded.size) {
        return Err(ExplainFault::OtherPart);
    }
    let lines = recorded.lines.named(alloc, &part.runs)?;
    let files = part.files.as_slice();
    told_with(recorded, rt, alloc, keys, options, start, &lines, files)
}

/// What is told of the files.
fn told<'o, H: Threads + Wait + Clock + Sync, R: Read>(
    rt: &H,
    alloc: Global,
    keys: RandomState,
    files: &mut [Watched<R>],
    options: &'o ExplainOptions,
    part: Option<&PartLines>,
) -> Result<Told<'o>, ExplainFault>
    requires files { 0 < length files.old }
    requires workers { (0 < options.now.workers) × (options.now.workers ≤ 64) }
    ensures told { IfOk result (IsTold options.now (option_map (λ part. part.now) part.entry)
        (map (λ file. R.remaining (inner_of file)) files.old)) }
    ensures untold { IfErr result (AreUntold options.now (option_map (λ part. part.now) part.entry)
        (map (λ file. R.remaining (inner_of file)) files.old)) }
{
    let start = Instant::now(rt).ok();
    match read_files(rt, options.workers as usize, alloc, keys, files) {
        Ok(recorded) => {
            let recorded = ManuallyDrop::new(recorded);
            told_of(&recorded, rt, alloc, keys, options, start, part)
        }
        Err(ReadingFault::Refused(refusal)) => {
            let names = options.files.as_slice();
            let Ok(output) = refused_output(alloc, form_of(options), names, &refusal) else {
                return Err(Unexplained::Memory.into());
            };
            let left_out = Vec::new(alloc);
            Ok(Told { output, left_out })
        }
        Err(ReadingFault::Unread { file }) => Err(Unexplained::Unread { file }.into()),
        Err(ReadingFault::Memory) => Err(Unexplained::Memory.into()),
    }
}

/// What is written for the files.
fn explained<'o, H: Threads + Wait + Clock + Sync, R: Read>(
    rt: &H,
    alloc: Global,
    keys: RandomState,
    files: &mut [Watched<R>],
    options: &'o ExplainOptions,
    part: Option<&PartLines>,
) -> Result<Told<'o>, ExplainFault>
    requires files { 0 < length files.old }
    requires workers { (0 < options.now.workers) × (options.now.workers ≤ 64) }
    ensures explanation { IfOk result (IsExplanation options.now
        (option_map (λ part. part.now) part.entry)
        (map (λ file. R.remaining (inner_of file)) files.old)) }
    ensures untold { IfErr result (AreUntold options.now (option_map (λ part. part.now) part.entry)
        (map (λ file. R.remaining (inner_of file)) files.old)) }
{
    let Told { output, left_out } = told(rt, alloc, keys, files, options, part)?;
    let output = in_form(alloc, options.form, output)?;
    Ok(Told { output, left_out })
}

/// Reads the files one after the other as one input, decides, and only then writes. The files are those that the words
/// name, in their order, or standard input where they name none. Where they are a part of a recording, `part` says from
/// which lines of it their lines come, and these are named. Where there are several files, of the words or of what the
/// part is of, each row of evidence says in which of them its line stands, and its number there.
///
/// Where the options name records, these are written in place of explanations, each with its line, and the run ends as
/// one in which all is well.
///
/// An audit of all sessions starts `options.workers` workers, each in a thread of its own; all else is shared out among
/// at most so many threads, this one among them, but that one more cuts the next piece into lines. How many they are
/// changes nothing in what is written but the seconds, and nor do the keys, by which names are looked up: whoever picked
/// the names of the input is not to know them.
///
/// The recording is not dropped, since a program that explains ends soon.
pub fn explain<'o, H: Threads + Wait + Clock + Sync, R: Read, W: Write>(
    rt: &H,
    alloc: Global,
    keys: RandomState,
    files: &mut [Watched<R>],
    output: &mut Watched<W>,
    options: &'o ExplainOptions,
    part: Option<&PartLines>,
) -> Result<Ending<'o>, ExplainFault>
    requires files { 0 < length files.old }
    requires workers { (0 < options.now.workers) × (options.now.workers ≤ 64) }
    // What was written is the output over the files, whole, and the run ends as that output does, with the pids that
    // `--only` leaves out.
    ensures ok { IfOk result (Writes (W.contents (inner_of output.old))
        (W.contents (inner_of output.new)) (IsExplanation options.now
        (option_map (λ part. part.now) part.entry)
        (map (λ file. R.remaining (inner_of file)) files.old))) }
    // After a failed write a front of that output was written.
    ensures front { result ≡ Err Write
        → WritesFront (W.contents (inner_of output.old)) (W.contents (inner_of output.new))
        (IsExplanation options.now (option_map (λ part. part.now) part.entry)
        (map (λ file. R.remaining (inner_of file)) files.old)) }
    ensures write { result ≡ Err Write → has_failed output.new ≡ true }
    // After every other fault nothing was.
    ensures nothing { OnErr result (result ≢ Err Write → output.new ≡ output.old) }
    // `NoSession` comes for the first pid of the words that no session has, and for no other; `NoRecord` for the first
    // record of the words that the bundle doesn't have; `OtherPart` where the files are recorded, and have another size
    // than the part.
    ensures untold { IfErr result (λ e. e ≢ Write → AreUntold options.now
        (option_map (λ part. part.now) part.entry)
        (map (λ file. R.remaining (inner_of file)) files.old) e) }
{
    match explained(rt, alloc, keys, files, options, part) {
        Ok(
            Told {
                output: told,
                left_out,
            },
        ) => {
            let status = written(output, &told)?;
            Ok(Ending { status, left_out })
        }
        Err(fault) => Err(fault),
    }
}

/// Writes the output.
fn written<W: Write>(output: &mut Watched<W>, explained: &Output) -> Result<Status, ExplainFault>
    ensures ok { IfOk result (λ status. (explained.now.status ≡ status)
        × Appends (W.contents (inner_of output.old))
        (W.contents (inner_of output.new)) explained.now.text) }
    ensures front { OnErr result ((result ≡ Err Write) × (has_failed output.new ≡ true)
        × AppendsFront (W.contents (inner_of output.old))
        (W.contents (inner_of output.new)) explained.now.text) }
{
    match write_out(output, explained.text.as_bytes()) {
        Ok(()) => Ok(explained.status),
        Err(_) => Err(ExplainFault::Write),
    }
}

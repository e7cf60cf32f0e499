//! The lines of runs, piece after piece.
ghost use Rattle.std.specs.Prelude.{◌≡◌, ◌≤◌, ◌<◌, ◌++◌, ◌∷◌, [], ℕ, List, false, length, option_to_list, slice_get, IfOk, IfSome, IsTrue, MatchOption, OnOk, Some};
ghost use Rattle.std.specs.List.{AllByRecursion};
ghost use Rattle.aud_parts.specs.TapRuns.{BeginsWithBytes, IsReadable, run_bytes, runs_lines};
ghost use Rattle.aud_parts.specs.Private.RunSteps.{EndsLine, GivesLines, HasFirstText, front_run, runs_size};

use crate::tap_index::tap_lines::{push_line, push_lines};
use crate::tap_index::tap_runs::{Run, RunSource};
use aud_base::RunFault;
use aud_reader::{Line, next_line};
use memchr::memrchr;
use std::alloc::Global;
use std::marker::Model;

/// The most bytes of a run that are read at once: more than a line may have.
const PIECE: u64 = 8_388_608;

/// How many bytes of a run are read for its first line.
const FRONT: u64 = 65_536;

/// The end of the last line that is whole; of all bytes, where no more come after them.
fn whole_end(bytes: &[u8], is_last: bool) -> usize
    ensures within { result ≤ length bytes.now }
    ensures some { 0 < length bytes.now → 0 < result }
    ensures last { IsTrue is_last → result ≡ length bytes.now }
    ensures cut { is_last ≡ false → EndsLine bytes.now result }
{
    if is_last {
        return bytes.len();
    }
    match memrchr(b'\n', bytes) {
        Some(at) => at + 1,
        None => bytes.len(),
    }
}

/// The run up to so many bytes.
fn front_of(run: &Run, most: u64) -> Run
    ensures { result ≡ front_run most run.now }
{
    if run.to.saturating_sub(run.from) <= most {
        return *run;
    }
    Run {
        to: run.from + most,
        ..*run
    }
}

/// Reads the next lines of a run, those that have bytes; tells what is left of it.
fn read_front<S: RunSource>(
    alloc: Global,
    source: &mut S,
    buffer: &mut Vec<u8>,
    run: &Run,
) -> Result<(Vec<Line>, Option<Run>), RunFault>
    ensures lines { (files : List (List ℕ)) → S.files source.old ≡ Some files
        → IsReadable files run.now → IfOk result (λ read.
        GivesLines files (run.now ∷ []) read.0.items (option_to_list read.1)) }
    ensures less { IfOk result (λ read.
        runs_size (option_to_list read.1) < runs_size (run.now ∷ [])) }
    ensures source { S.files source.new ≡ S.files source.old }
{
    let front = front_of(run, PIECE);
    source.read_run(&front, buffer)?;
    let bytes = buffer.as_slice();
    let end = whole_end(bytes, front.to == run.to);
    let mut lines = Vec::new(alloc);
    let number = push_lines(alloc, run.number, &bytes[..end], &mut lines)?;
    let from = run.from.saturating_add(end as u64);
    if from < run.to {
        let left = Run {
            from,
            number,
            ..*run
        };
        return Ok((lines, Some(left)));
    }
    Ok((lines, None))
}

/// The lines of runs, borrowed, of which no more than 8 MiB are in memory at once; seen as the runs that are left.
#[derive(Drop)]
pub struct RunLines<'a> {
    /// What is left of the run that is read now.
    left: Option<Run>,
    others: &'a [Run],
}

impl<'a> Model for RunLines<'a> {
    ghost use Rattle.std.specs.Prelude.{◌≡◌, ◌++◌, [], List, None, option_to_list};
    ghost use Rattle.aud_parts.specs.declared.tap_index.tap_runs.Run.{Run};

    ghost Value = { List Run };

    ghost view = { λ s. option_to_list s.left ++ s.others.now };

    ghost invariant = { λ s. s.left ≡ None → s.others.now ≡ [] };
}

impl<'a> RunLines<'a> {
    /// The lines of what is left of a run, and of the runs after it; of which none is read yet.
    pub fn of(left: Option<Run>, others: &'a [Run]) -> RunLines<'a>
        ensures { result ≡ option_to_list left ++ others.now }
    {
        if left.is_some() {
            return RunLines { left, others };
        }
        match others.split_first() {
            Some((first, rest)) => RunLines {
                left: Some(*first),
                others: rest,
            },
            None => RunLines { left, others },
        }
    }

    /// The next lines: those that have bytes, without the carriage return at their ends. None where all were read.
    /// There may be no lines among them.
    pub fn next_lines<S: RunSource>(
        &mut self,
        alloc: Global,
        source: &mut S,
        buffer: &mut Vec<u8>,
    ) -> Result<Option<Vec<Line>>, RunFault>
        ensures lines { (files : List (List ℕ)) → S.files source.old ≡ Some files
            → AllByRecursion (IsReadable files) self.old
            → IfOk result (λ next. MatchOption next (self.old ≡ [])
            (λ lines. GivesLines files self.old lines.items self.new)) }
        ensures less { IfOk result (λ next.
            IfSome next (λ lines. runs_size self.new < runs_size self.old)) }
        ensures source { S.files source.new ≡ S.files source.old }
    {
        let Some(run) = self.left else {
            return Ok(None);
        };
        let (lines, left) = read_front(alloc, source, buffer, &run)?;
        *self = RunLines::of(left, self.others);
        Ok(Some(lines))
    }
}

/// Reads the bytes of a run up to the end of its first line, or more of them: 64 KiB, or 8 MiB where the line is longer.
fn read_first<S: RunSource>(source: &mut S, buffer: &mut Vec<u8>, run: &Run) -> Result<(), RunFault>
    ensures text { (files : List (List ℕ)) → S.files source.old ≡ Some files
        → IsReadable files run.now
        → OnOk result (HasFirstText (run_bytes files run.now) buffer.new.items) }
    ensures source { S.files source.new ≡ S.files source.old }
{
    let front = front_of(run, FRONT);
    source.read_run(&front, buffer)?;
    if front.to == run.to {
        return Ok(());
    }
    if let Some(_) = next_line(buffer.as_slice()) {
        return Ok(());
    }
    source.read_run(&front_of(run, PIECE), buffer)
}

/// The first line of these runs. No more than its first 64 KiB are read, unless it is longer.
pub fn first_line<S: RunSource>(
    alloc: Global,
    source: &mut S,
    buffer: &mut Vec<u8>,
    runs: &[Run],
) -> Result<Option<Line>, RunFault>
    ensures line { (files : List (List ℕ)) → S.files source.old ≡ Some files
        → AllByRecursion (IsReadable files) runs.now
        → AllByRecursion (BeginsWithBytes files) runs.now
        → IfOk result (λ line. line ≡ slice_get (runs_lines files runs.now) 0) }
    ensures source { S.files source.new ≡ S.files source.old }
{
    let Some(run) = runs.first() else {
        return Ok(None);
    };
    read_first(source, buffer, run)?;
    let mut lines = Vec::new(alloc);
    let bytes = buffer.as_slice();
    let text = match next_line(bytes) {
        Some((text, _)) => text,
        None => bytes,
    };
    push_line(alloc, run.number, text, &mut lines)?;
    Ok(lines.pop())
}

//! From which lines of an input the lines of a part of it come.
ghost use Rattle.std.specs.Prelude.{◌≡◌, ◌≢◌, ◌+◌, ◌-◌, ◌^◌, ◌<◌, ◌++◌, ◌∷◌, [], map, min, IfOk, IfSome, None, OnOk};
ghost use Rattle.aud_input.specs.LineRuns.{capped, count_of, lines_of_run, lines_of_runs};

use std::alloc::{AllocError, Global};
use std::marker::Model;

/// Lines of the input that follow one another.
#[derive(Clone, Copy, Debug, PartialEq, Eq, Drop)]
pub struct LineRun {
    /// How many they are.
    pub count: u64,
    /// The number of the first of them.
    pub first: u64,
}

/// From which lines of an input the lines of a part of it come, one after the other, as runs. Lines count from 1, over
/// all files of the input.
#[derive(Drop)]
pub struct LineRuns {
    runs: Vec<LineRun>,
}

impl Model for LineRuns {
    ghost use Rattle.std.specs.Prelude.{List};
    ghost use Rattle.aud_input.specs.declared.line_runs.LineRun.{LineRun};

    ghost Value = { List LineRun };

    ghost view = { λ s. s.runs.items };
}

/// Both runs as one, where the second goes on the first.
fn joined(before: LineRun, after: LineRun) -> Option<LineRun>
    ensures lines { IfSome result (λ run. lines_of_run run
        ≡ lines_of_run before ++ lines_of_run after) }
    ensures apart { result ≡ None → before.count + after.count < 2 ^ 64
        → before.first + before.count ≢ after.first }
{
    if before.first.checked_add(before.count)? != after.first {
        return None;
    }
    Some(LineRun {
        count: before.count.checked_add(after.count)?,
        first: before.first,
    })
}

/// Adds the lines of the run.
fn push_lines(lines: &mut Vec<u64>, run: LineRun) -> Result<(), AllocError>
    ensures { OnOk result (lines.new.items ≡ lines.old.items ++ map capped (lines_of_run run)) }
{
    for place in 0..run.count {
        lines.push(run.first.saturating_add(place))?;
    }
    Ok(())
}

impl LineRuns {
    /// The lines of these runs.
    pub fn new(runs: Vec<LineRun>) -> LineRuns
        ensures { result ≡ runs.items }
    {
        LineRuns { runs }
    }

    /// The runs in their order, borrowed.
    pub fn as_slice(&self) -> &[LineRun]
        ensures { result.now ≡ self.now }
    {
        self.runs.as_slice()
    }

    /// Adds the lines of the run after all others. A run that goes on the last one is put to it.
    pub fn add(&mut self, run: LineRun) -> Result<(), AllocError>
        ensures { OnOk result (lines_of_runs self.new
            ≡ lines_of_runs self.old ++ lines_of_run run) }
    {
        let Some(last) = self.runs.pop() else {
            self.runs.push(run)?;
            return Ok(());
        };
        match joined(last, run) {
            Some(both) => {
                self.runs.push(both)?;
                Ok(())
            }
            None => {
                self.runs.push(last)?;
                self.runs.push(run)?;
                Ok(())
            }
        }
    }

    /// Adds this line after all others.
    pub fn push(&mut self, line: u64) -> Result<(), AllocError>
        ensures { OnOk result (lines_of_runs self.new ≡ lines_of_runs self.old ++ line ∷ []) }
    {
        self.add(LineRun {
            count: 1,
            first: line,
        })
    }

    /// Adds these lines after all others.
    pub fn append(&mut self, others: &LineRuns) -> Result<(), AllocError>
        ensures { OnOk result (lines_of_runs self.new
            ≡ lines_of_runs self.old ++ lines_of_runs others.now) }
    {
        for run in &others.runs {
            self.add(*run)?;
        }
        Ok(())
    }

    /// How many lines there are; 2^64 - 1 where there are more.
    pub fn count(&self) -> u64
        ensures { result ≡ min (count_of self.now) (2 ^ 64 - 1) }
    {
        let mut count = 0u64;
        for run in &self.runs {
            count = count.saturating_add(run.count);
        }
        count
    }

    /// The lines, one after the other.
    pub fn lines(&self, alloc: Global) -> Result<Vec<u64>, AllocError>
        ensures { IfOk result (λ lines. lines.items ≡ map capped (lines_of_runs self.now)) }
    {
        let mut lines = Vec::new(alloc);
        for run in &self.runs {
            push_lines(&mut lines, *run)?;
        }
        Ok(lines)
    }
}

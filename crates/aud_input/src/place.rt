//! Which line of which file a line of several files is.
ghost use Rattle.std.specs.Prelude.{◌≡◌};
ghost use Rattle.aud_input.specs.FileLine.{file_line};

/// A line of one of several files: files count from 0, and lines from 1 in each.
#[derive(Clone, Copy, Debug, PartialEq, Eq, Drop)]
pub struct FileLine {
    pub file: usize,
    pub line: u64,
}

/// The line of a file that has this number where the files are read as one input. `counts` has for each file but the
/// last how many lines it has.
pub fn file_line(counts: &[u64], number: u64) -> FileLine
    ensures { result ≡ file_line counts.now number }
{
    let mut line = number;
    'files: for (file, count) in counts.iter().enumerate() {
        if line <= *count {
            return FileLine { file, line };
        }
        line -= *count;
    }
    FileLine {
        file: counts.len(),
        line,
    }
}

//! A part of an input, by its size, the lines that its lines come from, and the files that these stand in.
ghost use Rattle.std.specs.Prelude.{◌≡◌, ◌↔◌, IsTrue};

use crate::input_file::InputFiles;
use crate::line_runs::LineRuns;
use crate::reading::Size;

/// How large a part of an input is, and from which lines of the input its lines come.
#[derive(Drop)]
pub struct PartLines {
    pub size: Size,
    /// The lines are counted over all files of the input.
    pub runs: LineRuns,
    /// The files of the input.
    pub files: InputFiles,
}

impl PartLines {
    /// Whether a part has this size.
    pub fn is_of(&self, size: Size) -> bool
        ensures { IsTrue result ↔ (self.now.size ≡ size) }
    {
        if self.size.lines != size.lines {
            return false;
        }
        self.size.bytes == size.bytes
    }
}

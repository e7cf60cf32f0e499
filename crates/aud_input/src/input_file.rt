//! The files of an input, by their names and how many lines each has.
ghost use Rattle.std.specs.Prelude.{◌≡◌, ◌++◌, ◌∷◌, [], IfOk, OnOk};
ghost use Rattle.std.specs.Option.{option_map};
ghost use Rattle.aud_input.specs.InputFiles.{input_files, place_in, place_told};

use aud_tap::Text;
use std::alloc::{AllocError, Global};
use std::marker::Model;

/// A file of an input.
#[derive(Drop)]
pub struct InputFile {
    /// What it is called.
    pub name: Text,
    /// How many lines it has.
    pub lines: u64,
}

/// The files of an input, in the order in which they are read.
#[derive(Drop)]
pub struct InputFiles {
    files: Vec<InputFile>,
}

impl Model for InputFiles {
    ghost use Rattle.std.specs.Prelude.{List};
    ghost use Rattle.aud_input.specs.declared.input_file.InputFile.{InputFile};

    ghost Value = { List InputFile };

    ghost view = { λ s. s.files.items };
}

impl InputFiles {
    /// No files.
    pub fn new(alloc: Global) -> InputFiles
        ensures { result ≡ [] }
    {
        InputFiles {
            files: Vec::new(alloc),
        }
    }

    /// The files of these names, of which each has so many lines. Names are shared. A name without a number, or a number
    /// without a name, is left out.
    pub fn of(alloc: Global, names: &[Text], counts: &[u64]) -> Result<InputFiles, AllocError>
        ensures { IfOk result (λ files. files ≡ input_files names.now counts.now) }
    {
        let mut files = InputFiles::new(alloc);
        for (name, lines) in names.iter().zip(counts.iter()) {
            files.push(name.share()?, *lines)?;
        }
        Ok(files)
    }

    /// Puts a file after all others.
    pub fn push(&mut self, name: Text, lines: u64) -> Result<(), AllocError>
        ensures { OnOk result (self.new
            ≡ self.old ++ record { name = name; lines = lines } ∷ []) }
    {
        self.files.push(InputFile { name, lines })?;
        Ok(())
    }

    /// The files in their order, borrowed.
    pub fn as_slice(&self) -> &[InputFile]
        ensures { result.now ≡ self.now }
    {
        self.files.as_slice()
    }
}

/// The file in which the line of this number stands where the files are read as one input, by its name, borrowed; and
/// the line's number there. Lines count from 1. None past the last line.
fn place_in<'f>(files: &'f [InputFile], number: u64) -> Option<(&'f str, u64)>
    ensures { option_map (λ place. (place.0.now, place.1)) result ≡ place_in files.now number }
{
    let mut line = number;
    'files: for file in files {
        if line <= file.lines {
            return Some((file.name.as_str(), line));
        }
        line -= file.lines;
    }
    None
}

/// The same where there are several files; none where there is one.
pub fn place_told<'f>(files: &'f [InputFile], number: u64) -> Option<(&'f str, u64)>
    ensures { option_map (λ place. (place.0.now, place.1)) result ≡ place_told files.now number }
{
    if files.len() < 2 {
        return None;
    }
    place_in(files, number)
}

//! Where a line stands among several files.
ghost use Rattle.std.specs.Prelude.{◌≡◌, ◌++◌, OnOk, string_bytes};
ghost use Rattle.aud_input.specs.InputFiles.{place_told};
ghost use Rattle.aud_explanation.specs.Place.{place_text};

use crate::name::{Names, push_name};
use aud_input::{InputFile, place_told};
use std::alloc::{AllocError, Global};

/// Puts the file in which the line stands at the end, and the line's number there, where there are several files.
pub(crate) fn push_place(
    alloc: Global,
    line: &mut String,
    files: &[InputFile],
    number: u64,
) -> Result<(), AllocError>
    ensures { OnOk result (string_bytes line.new
        ≡ string_bytes line.old ++ place_text (place_told files.now number)) }
{
    match place_told(files, number) {
        Some((name, there)) => {
            line.push_str("  (")?;
            push_name(alloc, line, Names::Short, name)?;
            write!(line, ":{there})")
        }
        None => Ok(()),
    }
}

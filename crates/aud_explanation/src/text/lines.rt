//! Lists, of which each element stands as lines of text.
ghost use Rattle.std.specs.Prelude.{◌≡◌, ◌++◌, OnOk, flat_map, string_bytes};
ghost use Rattle.aud_explanation.specs.Long.{long_text};

use crate::long::{first_shown, last_shown, left_out, push_more};
use aud_input::InputFile;
use aud_verdict::Verdict;
use std::alloc::{AllocError, Global};

/// What lines of text go by, beside what they tell.
#[derive(Clone, Copy, Drop)]
pub struct Page<'p> {
    /// The files of the input.
    pub files: &'p [InputFile],
    /// The session, and the verdict on it.
    pub pid: &'p str,
    pub verdict: &'p Verdict,
    /// The width of the column of taps, or of nodes.
    pub width: usize,
    /// Whether one cause of the fault alone is known.
    pub sole: bool,
}

/// What stands in a list as lines of text.
pub trait Lines {
    ghost use Rattle.std.specs.Prelude.{ℕ, List};
    ghost use Rattle.aud_explanation.specs.declared.text.lines.Page.{Page};

    /// Its lines, laid out.
    ghost lines_of: { Page → Self → List ℕ };

    /// Puts its lines at the end.
    fn push(&self, alloc: Global, out: &mut String, page: Page<'_>) -> Result<(), AllocError>
        ensures { OnOk result (string_bytes out.new
            ≡ string_bytes out.old ++ lines_of page.entry self.now) };
}

/// Puts the lines of each at the end.
pub(crate) fn push_each<T: Lines>(
    alloc: Global,
    out: &mut String,
    page: Page<'_>,
    list: &[T],
) -> Result<(), AllocError>
    ensures { OnOk result (string_bytes out.new
        ≡ string_bytes out.old ++ flat_map (T.lines_of page.entry) list.now) }
{
    for one in list {
        one.push(alloc, out, page)?;
    }
    Ok(())
}

/// Puts the lines of those that are shown at the end: of more than 200 of the first 100 and the last 100, and between
/// them how many are left out.
pub(crate) fn push_long<T: Lines>(
    alloc: Global,
    out: &mut String,
    page: Page<'_>,
    list: &[T],
) -> Result<(), AllocError>
    ensures { OnOk result (string_bytes out.new
        ≡ string_bytes out.old ++ long_text (T.lines_of page.entry) list.now) }
{
    push_each(alloc, out, page, first_shown(list))?;
    push_more(out, left_out(list))?;
    push_each(alloc, out, page, last_shown(list))
}

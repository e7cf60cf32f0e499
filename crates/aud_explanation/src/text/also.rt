//! The other entries with the same fault.
ghost use Rattle.std.specs.Prelude.{◌≡◌, ◌++◌, OnOk, string_bytes};
ghost use Rattle.aud_explanation.specs.AlsoText.{more_text};

use crate::also::Also;
use crate::text::lines::{Lines, Page};
use crate::text::page::push_line;
use crate::text::span::{push_lines, push_span};
use std::alloc::{AllocError, Global};

/// A line: `also entries 3-5, lines 10 14`.
impl<'r> Lines for Also<'r> {
    ghost use Rattle.aud_explanation.specs.AlsoText.{also_text};

    ghost lines_of = { λ page also. also_text also };

    fn push(&self, alloc: Global, out: &mut String, _page: Page<'_>) -> Result<(), AllocError> {
        let mut line = String::new(alloc);
        line.push_str(if self.position == self.to {
            "    also entry "
        } else {
            "    also entries "
        })?;
        push_span(&mut line, self.position, self.to)?;
        line.push_str(", ")?;
        push_lines(&mut line, self.lines)?;
        push_line(out, line.as_str())
    }
}

/// Puts a line at the end that says how many entries more have the fault, if any do.
pub(crate) fn push_more(alloc: Global, out: &mut String, left: u64) -> Result<(), AllocError>
    ensures { OnOk result (string_bytes out.new ≡ string_bytes out.old ++ more_text left) }
{
    if left == 0 {
        return Ok(());
    }
    let entries = if left == 1 { "entry" } else { "entries" };
    let line = format!(in alloc; "    and {left} {entries} more")?;
    push_line(out, line.as_str())
}

//! The other sessions with the same fault at the same record.
ghost use Rattle.std.specs.Prelude.{◌≡◌, ◌++◌, OnOk, flat_map, string_bytes};
ghost use Rattle.aud_explanation.specs.AlikeText.{alike_text, pid_listed, sessions_word};

use crate::name::{Names, push_name};
use crate::text::page::push_line;
use std::alloc::{AllocError, Global};

/// The word for these sessions.
fn sessions_word(pids: &[&str]) -> &'static str
    ensures { result.now ≡ sessions_word pids.now }
{
    match pids {
        [_] => " more session:",
        _ => " more sessions:",
    }
}

/// Puts the pids at the end, a blank before each.
fn push_pids(alloc: Global, line: &mut String, pids: &[&str]) -> Result<(), AllocError>
    ensures { OnOk result (string_bytes line.new
        ≡ string_bytes line.old ++ flat_map pid_listed pids.now) }
{
    for pid in pids {
        line.push_str(" ")?;
        push_name(alloc, line, Names::Short, *pid)?;
    }
    Ok(())
}

/// Puts a line with the other sessions at the end, and nothing where there are none.
pub(crate) fn push_alike(alloc: Global, out: &mut String, pids: &[&str]) -> Result<(), AllocError>
    ensures { OnOk result (string_bytes out.new ≡ string_bytes out.old ++ alike_text pids.now) }
{
    if pids.is_empty() {
        return Ok(());
    }
    let (count, word) = (pids.len(), sessions_word(pids));
    let mut line = format!(in alloc; "    the same of {count}{word}")?;
    push_pids(alloc, &mut line, pids)?;
    push_line(out, line.as_str())
}

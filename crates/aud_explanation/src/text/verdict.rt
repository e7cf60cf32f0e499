//! The line of the verdict.
ghost use Rattle.std.specs.Prelude.{◌≡◌, ◌++◌, OnOk, string_bytes};
ghost use Rattle.aud_explanation.specs.Verdict.{verdict_text};

use crate::text::piece::Piece::{Name, Words};
use crate::text::piece::push_line_of;
use aud_cert::Class;
use aud_verdict::Verdict;
use std::alloc::{AllocError, Global};

/// Puts the line of the verdict at the end, as an audit prints it, but for a pid that isn't plain; and the class.
pub(crate) fn push_verdict(
    alloc: Global,
    out: &mut String,
    pid: &str,
    verdict: &Verdict,
    class: Option<Class>,
) -> Result<(), AllocError>
    ensures { OnOk result (string_bytes out.new
        ≡ string_bytes out.old ++ verdict_text pid.now verdict.now class) }
{
    let mut words = String::new(alloc);
    let answer = match verdict {
        Verdict::Yes { got, tail, turns } => {
            write!(&mut words, " got={got} tail={tail} turns={turns}")?;
            "yes "
        }
        Verdict::No(fault) => {
            write!(&mut words, " {fault}")?;
            "no "
        }
    };
    if let Some(class) = class {
        write!(&mut words, " [{class}]")?;
    }
    push_line_of(
        alloc,
        out,
        &[Words(answer), Name(pid), Words(words.as_str())],
    )
}

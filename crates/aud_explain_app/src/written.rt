//! The explanation of a session, written.
ghost use Rattle.std.specs.Prelude.{◌≡◌, IfOk, map, string_bytes};
ghost use Rattle.aud_explain_app.specs.Written.{IsWritten, form_text};

use crate::explained::Explained;
use crate::lent::{also_lent, causes_lent, refused_lent};
use aud_causes::refuted;
use aud_explanation::{Explanation, explanation_json, push_text};
use aud_input::InputFile;
use aud_verdict::Verdict;
use std::alloc::{AllocError, Global};

/// How explanations are written.
#[derive(Clone, Copy, Debug, PartialEq, Eq, Drop)]
pub enum Form {
    /// For a reader: lines, and an empty one after them.
    Text,
    /// For a program: one line of JSON.
    Json,
}

/// How explanations are written, and the files of the input in which the lines stand that they name.
#[derive(Clone, Copy, Drop)]
pub struct Layout<'f> {
    pub form: Form,
    /// Borrowed. With fewer than two, nothing is said of files.
    pub files: &'f [InputFile],
}

/// The explanation, in its form.
fn text_of(
    alloc: Global,
    layout: Layout<'_>,
    explanation: &Explanation<'_, '_, '_>,
) -> Result<String, AllocError>
    ensures { IfOk result (λ text. string_bytes text
        ≡ form_text layout.entry.form layout.entry.files.now explanation.now) }
{
    match layout.form {
        Form::Text => {
            let mut text = String::new(alloc);
            push_text(alloc, &mut text, layout.files, explanation)?;
            text.push('\n')?;
            Ok(text)
        }
        Form::Json => {
            let mut text = explanation_json(alloc, layout.files, explanation)?;
            text.push('\n')?;
            Ok(text)
        }
    }
}

/// What is told of the session with this pid, on which this is the verdict, and the pids of those that it names.
pub fn written<'s>(
    explained: &'s Explained<'s>,
    alloc: Global,
    layout: Layout<'_>,
    pid: &'s str,
    verdict: &'s Verdict,
    alike: &'s [&'s str],
) -> Result<String, AllocError>
    ensures { IfOk result (λ text. IsWritten layout.entry.form layout.entry.files.now pid.now
        verdict.now (map (λ other. other.now) alike.now) explained.now (string_bytes text)) }
{
    let ids = refuted(alloc, verdict, explained.causes.as_slice())?;
    let also = also_lent(alloc, explained.outcome.also.ranges.as_slice())?;
    let refused = refused_lent(alloc, explained.refused.as_slice())?;
    let causes = causes_lent(
        alloc,
        explained.causes.as_slice(),
        explained.refused.as_slice(),
    )?;
    let explanation = Explanation {
        pid,
        verdict,
        client: explained.outcome.client,
        account: explained.outcome.account,
        turns: explained.turns.as_slice(),
        evidence: explained.outcome.evidence.as_slice(),
        also: also.as_slice(),
        also_left: explained.outcome.also.left,
        alike,
        refused: refused.as_slice(),
        events: explained.events.as_slice(),
        causes: causes.as_slice(),
        refuted: ids.as_slice(),
    };
    text_of(alloc, layout, &explanation)
}

//! A refused recovery as an object.
ghost use Rattle.std.specs.Prelude.{◌≡◌, IfOk};
ghost use Rattle.serde_json.specs.View.{items_view};
ghost use Rattle.aud_cert.specs.Text.{items};
ghost use Rattle.aud_explanation.specs.JsonRefused.{missed_data};

use crate::json_line::value::{Told, text_or_null, texts, values};
use crate::long::{all_shown, left_out};
use crate::refused::{Missed, RefusedRecovery};
use aud_input::InputFile;
use serde_json::{Value, json};
use std::alloc::{AllocError, Global};

/// `{"off":..,"position":..}`.
impl<'r> Told for Missed<'r> {
    ghost use Rattle.aud_explanation.specs.JsonRefused.{missed_data};

    ghost data_of = { λ files pid missed. missed_data missed };

    fn value(&self, alloc: Global, _files: &[InputFile], _pid: &str) -> Result<Value, AllocError> {
        json!(in alloc; {"off": self.off, "position": self.position})
    }
}

fn missed_values(alloc: Global, entries: &[Missed<'_>]) -> Result<Vec<Value>, AllocError>
    ensures { IfOk result (λ vs. items_view vs.items ≡ items missed_data entries.now) }
{
    values(alloc, &[], "", entries)
}

/// `{"ask":..,"has_cause":..,"instead":..,"missed":..,"missed_left":..,"refuted":[..],"reply":..}`.
impl<'l, 'r> Told for RefusedRecovery<'l, 'r> {
    ghost use Rattle.aud_explanation.specs.JsonRefused.{refused_data};

    ghost data_of = { refused_data };

    fn value(&self, alloc: Global, files: &[InputFile], pid: &str) -> Result<Value, AllocError> {
        let ask = self.ask.value(alloc, files, pid)?;
        let has_cause = self.has_cause;
        let instead = text_or_null(alloc, self.instead)?;
        let (missed, missed_left) = match self.missed {
            Some(entries) => {
                let shown = all_shown(alloc, entries)?;
                let values = missed_values(alloc, shown.as_slice())?;
                (Value::Array(values), Value::from(left_out(entries) as u64))
            }
            None => (Value::Null, Value::Null),
        };
        let refuted = Value::Array(texts(alloc, self.refuted)?);
        let reply = match self.reply {
            Some(reply) => reply.value(alloc, files, pid)?,
            None => Value::Null,
        };
        json!(in alloc; {"ask": ask, "has_cause": has_cause, "instead": instead, "missed": missed, "missed_left": missed_left, "refuted": refuted, "reply": reply})
    }
}

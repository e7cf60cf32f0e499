//! A cause as an object.
use crate::cause::{Cause, CauseOf};
use crate::json_line::value::{Told, number_or_null, numbers, put_texts};
use aud_input::InputFile;
use serde_json::{Map, Value, put};
use std::alloc::{AllocError, Global};

/// `{"id":..,"lines":..,"of":..,"of_line":..,"state":..,"sure":..,"todo":..,"why":..}`.
impl<'r> Told for Cause<'r> {
    ghost use Rattle.aud_explanation.specs.JsonCause.{cause_data};

    ghost data_of = { λ files pid cause. cause_data cause };

    fn value(&self, alloc: Global, _files: &[InputFile], _pid: &str) -> Result<Value, AllocError> {
        let (of, of_line) = match self.of {
            CauseOf::Fault => ("fault", None),
            CauseOf::Refused { line } => ("refused", line),
        };
        let texts = [
            ("id", Some(self.id)),
            ("of", Some(of)),
            ("state", Some(self.state.word())),
            ("todo", Some(self.todo)),
            ("why", Some(self.why)),
        ];
        let lines = Value::Array(numbers(alloc, self.lines)?);
        let mut members = Map::new(alloc);
        put_texts(alloc, &mut members, &texts)?;
        put(&mut members, alloc, "lines", lines)?;
        put(&mut members, alloc, "of_line", number_or_null(of_line))?;
        put(
            &mut members,
            alloc,
            "sure",
            Value::Bool(self.state.is_certain()),
        )?;
        Ok(Value::Object(members))
    }
}

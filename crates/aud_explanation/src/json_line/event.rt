//! What happened to the client as an object.
use crate::event::{ClientEvent, Happens};
use crate::json_line::value::{Told, numbers, put_numbers, put_texts};
use aud_input::InputFile;
use serde_json::{Map, Value, put};
use std::alloc::{AllocError, Global};

/// `{"after":..,"from":..,"happens":..,"lines":[first,last],"to":..}`.
impl Told for ClientEvent {
    ghost use Rattle.aud_explanation.specs.JsonEvent.{event_data};

    ghost data_of = { λ files pid event. event_data event };

    fn value(&self, alloc: Global, _files: &[InputFile], _pid: &str) -> Result<Value, AllocError> {
        let (word, after, from, to) = match self.happens {
            Happens::Asks { after } => ("asks", after, None, None),
            Happens::Reply => ("reply", None, None, None),
            Happens::Refused => ("refused", None, None, None),
            Happens::Got { from, to } => ("got", None, Some(from), Some(to)),
            Happens::Lost => ("lost", None, None, None),
        };
        let lines = Value::Array(numbers(alloc, &[self.first, self.last])?);
        let mut members = Map::new(alloc);
        put_texts(alloc, &mut members, &[("happens", Some(word))])?;
        put_numbers(
            alloc,
            &mut members,
            &[("after", after), ("from", from), ("to", to)],
        )?;
        put(&mut members, alloc, "lines", lines)?;
        Ok(Value::Object(members))
    }
}

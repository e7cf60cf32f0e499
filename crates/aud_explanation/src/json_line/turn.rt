//! A turn as an object.
use crate::json_line::value::{Told, numbers, put_numbers, put_texts};
use crate::turn::{TurnBegin, TurnEnd, TurnShown};
use aud_input::InputFile;
use serde_json::{Map, Value, put};
use std::alloc::{AllocError, Global};

/// `{"begin":..,"end":..,"high":..,"lines":..,"low":..,"node":..,"took":..,"turn":..}`.
impl<'r> Told for TurnShown<'r> {
    ghost use Rattle.aud_explanation.specs.JsonTurn.{turn_data};

    ghost data_of = { λ files pid turn. turn_data turn };

    fn value(&self, alloc: Global, _files: &[InputFile], _pid: &str) -> Result<Value, AllocError> {
        let begin = match self.begin {
            TurnBegin::Open => "open",
            TurnBegin::Back => "back",
        };
        let (end, last, high) = match self.end {
            TurnEnd::Break { line, high } => ("break", Some(line), Some(high)),
            TurnEnd::Gone { line, high } => ("gone", Some(line), Some(high)),
            TurnEnd::Log { line, high } => ("log", Some(line), Some(high)),
            TurnEnd::Missing => ("missing", None, None),
        };
        let lines = match last {
            Some(last) => numbers(alloc, &[self.begin_line, last])?,
            None => numbers(alloc, &[self.begin_line])?,
        };
        let took = match self.took {
            Some((from, to)) => Value::Array(numbers(alloc, &[from, to])?),
            None => Value::Null,
        };
        let texts = [
            ("begin", Some(begin)),
            ("end", Some(end)),
            ("node", Some(self.node)),
        ];
        let turn = u64::from(self.turn);
        let numbers = [
            ("high", high),
            ("low", Some(self.low)),
            ("turn", Some(turn)),
        ];
        let mut members = Map::new(alloc);
        put_texts(alloc, &mut members, &texts)?;
        put_numbers(alloc, &mut members, &numbers)?;
        put(&mut members, alloc, "lines", Value::Array(lines))?;
        put(&mut members, alloc, "took", took)?;
        Ok(Value::Object(members))
    }
}

//! What a reader refuses, and what help names.
ghost use Rattle.aud_refusals.specs.Laws.{FieldIsNamed, LimitIsNamed};

/// Help names a field, or a limit of a field, exactly where a reader refuses a line for it: a law of
/// [`refusal_help`](crate::refusal_help).
///
/// For the value of every line: it is refused as [`Field`](aud_reader::InputCode::Field) by what it says itself exactly
/// where one of its members is missing or not of its form, of which help names the first; and as
/// [`Limit`](aud_reader::InputCode::Limit) exactly where all are of their forms, and one is outside its limits.
pub fn named_fields_are_refused()
    ensures field { FieldIsNamed }
    ensures limit { LimitIsNamed }
{}

//! Values that may be missing, members of objects, and lists.
ghost use Rattle.std.specs.Prelude.{◌≡◌, IfOk, OnOk};
ghost use Rattle.std.specs.Option.{option_copied};
ghost use Rattle.serde_json.specs.View.{view, items_view, members_view};
ghost use Rattle.aud_cert.specs.Text.{items, whole};
ghost use Rattle.aud_explanation.specs.JsonValue.{number_or_null, text_data, text_or_null, with_numbers, with_shown, with_texts};

use crate::long::{all_shown, left_out};
use aud_input::InputFile;
use serde_json::{Map, Value, put};
use std::alloc::{AllocError, Global};

/// The text, or `null`.
pub(crate) fn text_or_null(alloc: Global, text: Option<&str>) -> Result<Value, AllocError>
    ensures { IfOk result (λ v. view v ≡ text_or_null (option_copied text.entry)) }
{
    match text {
        Some(text) => Value::try_from_str(alloc, text),
        None => Ok(Value::Null),
    }
}

/// The number, or `null`.
pub(crate) fn number_or_null(number: Option<u64>) -> Value
    ensures { view result ≡ number_or_null number }
{
    match number {
        Some(number) => Value::from(number),
        None => Value::Null,
    }
}

/// Puts these texts, each under its name; `null` where there is none.
pub(crate) fn put_texts(
    alloc: Global,
    members: &mut Map<String, Value>,
    texts: &[(&str, Option<&str>)],
) -> Result<(), AllocError>
    ensures { OnOk result (members_view members.new.entries
        ≡ with_texts texts.now (members_view members.old.entries)) }
{
    for (name, text) in texts {
        put(members, alloc, name, text_or_null(alloc, *text)?)?;
    }
    Ok(())
}

/// Puts these numbers, each under its name; `null` where there is none.
pub(crate) fn put_numbers(
    alloc: Global,
    members: &mut Map<String, Value>,
    numbers: &[(&str, Option<u64>)],
) -> Result<(), AllocError>
    ensures { OnOk result (members_view members.new.entries
        ≡ with_numbers numbers.now (members_view members.old.entries)) }
{
    for (name, number) in numbers {
        put(members, alloc, name, number_or_null(*number))?;
    }
    Ok(())
}

/// The numbers, in order.
pub(crate) fn numbers(alloc: Global, numbers: &[u64]) -> Result<Vec<Value>, AllocError>
    ensures { IfOk result (λ vs. items_view vs.items ≡ items whole numbers.now) }
{
    let mut values = Vec::new(alloc);
    for number in numbers {
        values.push(Value::from(*number))?;
    }
    Ok(values)
}

/// The texts, in order.
pub(crate) fn texts(alloc: Global, texts: &[&str]) -> Result<Vec<Value>, AllocError>
    ensures { IfOk result (λ vs. items_view vs.items ≡ items text_data texts.now) }
{
    let mut values = Vec::new(alloc);
    for text in texts {
        values.push(Value::try_from_str(alloc, *text)?)?;
    }
    Ok(values)
}

/// What stands in a list as an object.
pub trait Told {
    ghost use Rattle.std.specs.Prelude.{ℕ, List};
    ghost use Rattle.serde_json.specs.Data.{Data};
    ghost use Rattle.aud_input.specs.declared.input_file.InputFile.{InputFile};

    /// The object, by the files of the input and the pid of the session.
    ghost data_of: { List InputFile → List ℕ → Self → Data };

    /// The object as a value.
    fn value(&self, alloc: Global, files: &[InputFile], pid: &str) -> Result<Value, AllocError>
        ensures { IfOk result (λ v. view v ≡ data_of files.now pid.now self.now) };
}

/// The objects, in order.
pub(crate) fn values<T: Told>(
    alloc: Global,
    files: &[InputFile],
    pid: &str,
    list: &[T],
) -> Result<Vec<Value>, AllocError>
    ensures { IfOk result (λ vs. items_view vs.items
        ≡ items (T.data_of files.now pid.now) list.now) }
{
    let mut values = Vec::new(alloc);
    for one in list {
        values.push(one.value(alloc, files, pid)?)?;
    }
    Ok(values)
}

/// Puts the objects that are shown of a list, and how many are left out.
#[tactic(auto, unfolding(crate::specs::JsonValue::with_shown))]
pub(crate) fn put_shown<T: Told + Copy>(
    alloc: Global,
    members: &mut Map<String, Value>,
    files: &[InputFile],
    pid: &str,
    names: (&str, &str),
    list: &[T],
) -> Result<(), AllocError>
    ensures { OnOk result (members_view members.new.entries
        ≡ with_shown (T.data_of files.now pid.now) names.entry.0.now names.entry.1.now list.now
        (members_view members.old.entries)) }
{
    let shown = all_shown(alloc, list)?;
    let values = values(alloc, files, pid, shown.as_slice())?;
    put(members, alloc, names.0, Value::Array(values))?;
    put(members, alloc, names.1, Value::from(left_out(list) as u64))
}

//! The members of an object, as fields.
ghost use Rattle.std.specs.Prelude.{◌≡◌, ◌<◌, length, Some, None, Err, OnOk, OnErr, IfOk};
ghost use Rattle.json.specs.Json.{items, members, value};
ghost use Rattle.serde_json.specs.Data.{Data, Items as DataItems, Members as DataMembers, no_members};
ghost use Rattle.serde_json.specs.Read.{converted, of_items, of_json, of_members};
ghost use Rattle.aud_json.specs.Shown.{shown_field, shown_item, shown_items, shown_members};
ghost use Rattle.aud_json.specs.View.{field_view, list_view, members_view, text_view};

use crate::fault::FieldsFault;
use crate::field::Field;
use crate::number::number;
use crate::pass::{pass_from, pass_members};
use json::{Invalid, Reader, Token};
use std::alloc::Global;

/// The text that the next item is.
#[inline(always)]
fn item_text<'a>(reader: &mut Reader<'a>, depth: usize) -> Result<Option<&'a str>, Invalid>
    ensures shows { IfOk result (λ o. (d : Data)
        × (converted of_json (value depth reader.old) ≡ Some (d, reader.new))
        × (shown_item d ≡ text_view o)) }
    ensures shorter { OnOk result (length reader.new < length reader.old) }
    ensures refused { OnErr result (converted of_json (value depth reader.old) ≡ None) }
{
    let token = reader.next().ok_or(Invalid)?;
    match token {
        Token::String(text) => Ok(Some(text)),
        Token::BeginObject
        | Token::EndObject
        | Token::BeginArray
        | Token::EndArray
        | Token::Key(_)
        | Token::Number(_)
        | Token::Bool(_)
        | Token::Null
        | Token::Bad => {
            pass_from(token, reader, depth)?;
            Ok(None)
        }
    }
}

/// The texts of the items, up to the bracket that closes the list.
fn texts<'a>(
    alloc: Global,
    reader: &mut Reader<'a>,
    depth: usize,
) -> Result<Vec<Option<&'a str>>, FieldsFault>
    ensures shows { IfOk result (λ v. (ds : DataItems)
        × (converted of_items (items (value depth) (length reader.old) reader.old)
        ≡ Some (ds, reader.new)) × (shown_items ds ≡ list_view v.items)) }
    ensures shorter { OnOk result (length reader.new < length reader.old) }
    ensures refused { result ≡ Err FieldsFault.NotJson
        → converted of_items (items (value depth) (length reader.old) reader.old) ≡ None }
{
    let mut found = Vec::new(alloc);
    'items: while !reader.take_end_array() {
        let text = item_text(reader, depth)?;
        found.push(text)?;
    }
    Ok(found)
}

/// The next field.
#[inline(always)]
pub fn next_field<'a>(
    alloc: Global,
    reader: &mut Reader<'a>,
    depth: usize,
) -> Result<Field<'a>, FieldsFault>
    ensures shows { IfOk result (λ f. (d : Data)
        × (converted of_json (value depth reader.old) ≡ Some (d, reader.new))
        × (shown_field d ≡ field_view f)) }
    ensures shorter { OnOk result (length reader.new < length reader.old) }
    ensures refused { result ≡ Err FieldsFault.NotJson
        → converted of_json (value depth reader.old) ≡ None }
{
    let token = reader.next().ok_or(FieldsFault::NotJson)?;
    match token {
        Token::String(text) => Ok(Field::Text(text)),
        Token::Number(text) => match number(text) {
            Some(number) => Ok(Field::Number(number)),
            None => Err(FieldsFault::NotJson),
        },
        Token::Bool(b) => Ok(Field::Bool(b)),
        Token::Null => Ok(Field::Null),
        Token::EndObject | Token::EndArray | Token::Key(_) | Token::Bad => {
            Err(FieldsFault::NotJson)
        }
        Token::BeginArray => {
            if depth == 0 {
                return Err(FieldsFault::NotJson);
            }
            Ok(Field::List(texts(alloc, reader, depth - 1)?))
        }
        Token::BeginObject => {
            if depth == 0 {
                return Err(FieldsFault::NotJson);
            }
            pass_members(reader, depth - 1)?;
            Ok(Field::Object)
        }
    }
}

/// The keys and fields of an object, up to the brace that closes it.
pub fn all_members<'a>(
    alloc: Global,
    reader: &mut Reader<'a>,
    depth: usize,
) -> Result<Vec<(&'a str, Field<'a>)>, FieldsFault>
    ensures shows { IfOk result (λ v. (ms : DataMembers)
        × (converted (λ js. of_members js no_members)
        (members (value depth) (length reader.old) reader.old) ≡ Some (ms, reader.new))
        × (shown_members ms ≡ members_view v.items)) }
    ensures refused { result ≡ Err FieldsFault.NotJson
        → converted (λ js. of_members js no_members)
        (members (value depth) (length reader.old) reader.old) ≡ None }
{
    let mut found = Vec::with_capacity(alloc, 8)?;
    'members: while let Some(key) = reader.next_key()? {
        let field = next_field(alloc, reader, depth)?;
        found.push((key, field))?;
    }
    Ok(found)
}

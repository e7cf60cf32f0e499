//! The fields of an object.
ghost use Rattle.std.specs.Prelude.{◌≡◌, Some, None, Err, IfOk, option_map};
ghost use Rattle.json.specs.Json.{value};
ghost use Rattle.serde_json.specs.Data.{Data};
ghost use Rattle.serde_json.specs.Read.{converted, max_depth, of_json, read};
ghost use Rattle.serde_json.specs.Find.{get, get_member};
ghost use Rattle.aud_json.specs.Shown.{shown};
ghost use Rattle.aud_json.specs.View.{field_view, members_view, view};

use crate::fault::FieldsFault;
use crate::field::{Field, MAX_DEPTH};
use crate::flat::flat_members;
use crate::members::all_members;
use crate::pass::pass_from;
use crate::scratch::Scratch;
use json::{Reader, Token};
use std::alloc::Global;

/// The fields of the next value.
fn next_fields<'a>(alloc: Global, reader: &mut Reader<'a>) -> Result<Fields<'a>, FieldsFault>
    ensures shows { IfOk result (λ f. (d : Data)
        × (converted of_json (value max_depth reader.old) ≡ Some (d, reader.new))
        × (shown d ≡ view f)) }
    ensures refused { result ≡ Err FieldsFault.NotJson
        → converted of_json (value max_depth reader.old) ≡ None }
{
    let token = reader.next().ok_or(FieldsFault::NotJson)?;
    match token {
        Token::BeginObject => Ok(Fields {
            members: all_members(alloc, reader, MAX_DEPTH - 1)?,
        }),
        Token::String(_)
        | Token::EndObject
        | Token::BeginArray
        | Token::EndArray
        | Token::Key(_)
        | Token::Number(_)
        | Token::Bool(_)
        | Token::Null
        | Token::Bad => {
            pass_from(token, reader, MAX_DEPTH)?;
            Ok(Fields {
                members: Vec::new(alloc),
            })
        }
    }
}

/// The last field of this name.
fn last_named<'v, 'a>(list: &'v Vec<(&'a str, Field<'a>)>, name: &str) -> Option<&'v Field<'a>>
    ensures { option_map (λ f. field_view f.now) result
        ≡ get_member name.now (members_view list.now.items) }
{
    let mut left = list.len();
    'left: while left > 0 {
        left -= 1;
        let member = &list[left];
        if member.0 == name {
            return Some(&member.1);
        }
    }
    None
}

/// The fields of an object, as they are shown; none of what is no object.
///
/// A field is looked up from the last to the first, so of a key that stands twice the last value counts.
#[derive(Drop)]
pub struct Fields<'a> {
    members: Vec<(&'a str, Field<'a>)>,
}

impl<'a> Fields<'a> {
    /// The fields of the value that `serde_json` reads from this text.
    ///
    /// They are borrowed from the text and from the scratch, which grows to the length of the longest text and is kept
    /// for the next. Exactly where `serde_json` reads no value, `NotJson` is the answer, unless memory ran out.
    pub fn read(
        alloc: Global,
        text: &'a str,
        scratch: &'a mut Scratch,
    ) -> Result<Fields<'a>, FieldsFault>
        ensures shows { IfOk result (λ fields. (d : Data) × (read text.now ≡ Some d)
            × (shown d ≡ view fields)) }
        ensures refused { result ≡ Err FieldsFault.NotJson → read text.now ≡ None }
    {
        let (room, general) = scratch.lend(text.len())?;
        if let Some(members) = flat_members(alloc, text, room)? {
            return Ok(Fields { members });
        }
        let mut reader = Reader::new(text, general)?;
        let fields = next_fields(alloc, &mut reader)?;
        if reader.next().is_some() {
            return Err(FieldsFault::NotJson);
        }
        Ok(fields)
    }

    /// The field of this name, the last where several have it.
    pub fn get(&self, name: &str) -> Option<&Field<'a>>
        ensures { option_map (λ f. field_view f.now) result ≡ get name.now (view self.now) }
    {
        last_named(&self.members, name)
    }
}

//! A field of an object, or a value by itself.
ghost use Rattle.std.specs.Prelude.{◌≡◌, Err, IfOk, Some, None, is_some, option_and_then, option_map};
ghost use Rattle.serde_json.specs.Data.{Data};
ghost use Rattle.serde_json.specs.Find.{as_array, as_null, as_number, as_str, as_u64};
ghost use Rattle.serde_json.specs.Read.{read};
ghost use Rattle.aud_json.specs.Shown.{shown_field};
ghost use Rattle.aud_json.specs.View.{field_view, list_view};

use crate::fault::FieldsFault;
use crate::members::next_field;
use crate::scratch::Scratch;
use json::Reader;
use serde_json::Number;
use std::alloc::Global;

/// How deep `serde_json` lets lists and objects nest.
pub const MAX_DEPTH: usize = 127;

/// A field of an object, or a value by itself, borrowed from its text or, where a text has escapes, from the scratch.
#[derive(Drop)]
pub enum Field<'a> {
    /// `null`.
    Null,
    /// `true` or `false`.
    Bool(bool),
    /// A number.
    Number(Number),
    /// A text, without its escapes.
    Text(&'a str),
    /// A list, with its texts; `None` stands for an item that is no text.
    List(Vec<Option<&'a str>>),
    /// An object, of which nothing is kept.
    Object,
}

impl<'a> Field<'a> {
    /// The value that `serde_json` reads from this text, as a field of an object would have it.
    ///
    /// It is borrowed from the text and from the scratch, as [`Fields::read`](crate::Fields::read) says. Exactly where
    /// `serde_json` reads no value, `NotJson` is the answer, unless memory ran out.
    pub fn read(
        alloc: Global,
        text: &'a str,
        scratch: &'a mut Scratch,
    ) -> Result<Field<'a>, FieldsFault>
        ensures shows { IfOk result (λ field. (d : Data) × (read text.now ≡ Some d)
            × (shown_field d ≡ field_view field)) }
        ensures refused { result ≡ Err FieldsFault.NotJson → read text.now ≡ None }
    {
        let mut reader = Reader::new(text, scratch.general())?;
        let field = next_field(alloc, &mut reader, MAX_DEPTH)?;
        if reader.next().is_some() {
            return Err(FieldsFault::NotJson);
        }
        Ok(field)
    }

    /// Whether the field is `null`.
    pub fn is_null(&self) -> bool
        ensures { result ≡ is_some (as_null (field_view self.now)) }
    {
        matches!(self, Field::Null)
    }

    /// The texts of a list; `None` stands for an item that is no text.
    pub fn as_list(&self) -> Option<&Vec<Option<&'a str>>>
        ensures { option_map (λ v. list_view v.now.items) result ≡ as_array (field_view self.now) }
    {
        if let Field::List(list) = self {
            Some(list)
        } else {
            None
        }
    }

    /// The text that the field is.
    pub fn as_str(&self) -> Option<&'a str>
        ensures { option_map (λ s. s.now) result ≡ as_str (field_view self.now) }
    {
        if let Field::Text(text) = self {
            Some(*text)
        } else {
            None
        }
    }

    /// The whole number from 0 to 2^64 - 1 that the field is; `1.0` and `-0` are none.
    pub fn as_u64(&self) -> Option<u64>
        ensures { result ≡ option_and_then as_u64 (as_number (field_view self.now)) }
    {
        if let Field::Number(n) = self {
            n.as_u64()
        } else {
            None
        }
    }
}

//! Values that are passed over: those within a list or an object that a field is.
//!
//! They are passed exactly where `serde_json` reads them, since a text with a value that it refuses has no fields.
ghost use Rattle.std.specs.Prelude.{◌≡◌, ◌∷◌, ◌<◌, ◌≤◌, length, Some, None, OnOk, MatchResult};
ghost use Rattle.json.specs.Reads.{token_of};
ghost use Rattle.aud_json.specs.Private.Passed.{passed, passed_items, passed_members};

use crate::number::number;
use json::{Invalid, Reader, Token};

/// Passes the rest of the value that began with this token, and that may nest so deep.
#[cycle(pass)]
#[inline(always)]
pub fn pass_from(token: Token<'_>, reader: &mut Reader<'_>, depth: usize) -> Result<(), Invalid>
    ensures value { MatchResult result
        (λ _. passed depth (token_of token.entry ∷ reader.old) ≡ Some reader.new)
        (λ _. passed depth (token_of token.entry ∷ reader.old) ≡ None) }
    ensures shorter { OnOk result (length reader.new ≤ length reader.old) }
{
    match token {
        Token::String(_) | Token::Bool(_) | Token::Null => Ok(()),
        Token::Number(text) => match number(text) {
            Some(_) => Ok(()),
            None => Err(Invalid),
        },
        Token::EndObject | Token::EndArray | Token::Key(_) | Token::Bad => Err(Invalid),
        Token::BeginArray => {
            if depth == 0 {
                return Err(Invalid);
            }
            pass_items(reader, depth - 1)
        }
        Token::BeginObject => {
            if depth == 0 {
                return Err(Invalid);
            }
            pass_members(reader, depth - 1)
        }
    }
}

/// Passes a value.
#[cycle(pass)]
#[inline(always)]
fn pass(reader: &mut Reader<'_>, depth: usize) -> Result<(), Invalid>
    ensures value { MatchResult result
        (λ _. passed depth reader.old ≡ Some reader.new)
        (λ _. passed depth reader.old ≡ None) }
    ensures shorter { OnOk result (length reader.new < length reader.old) }
{
    let token = reader.next().ok_or(Invalid)?;
    pass_from(token, reader, depth)
}

/// Passes the items of a list, and the bracket that closes it.
#[cycle(pass)]
#[inline(never)]
fn pass_items(reader: &mut Reader<'_>, depth: usize) -> Result<(), Invalid>
    ensures value { MatchResult result
        (λ _. passed_items depth reader.old ≡ Some reader.new)
        (λ _. passed_items depth reader.old ≡ None) }
    ensures shorter { OnOk result (length reader.new < length reader.old) }
{
    'items: while !reader.take_end_array() {
        pass(reader, depth)?;
    }
    Ok(())
}

/// Passes the members of an object, and the brace that closes it.
#[cycle(pass)]
#[inline(never)]
pub fn pass_members(reader: &mut Reader<'_>, depth: usize) -> Result<(), Invalid>
    ensures value { MatchResult result
        (λ _. passed_members depth reader.old ≡ Some reader.new)
        (λ _. passed_members depth reader.old ≡ None) }
    ensures shorter { OnOk result (length reader.new < length reader.old) }
{
    'members: while let Some(_) = reader.next_key()? {
        pass(reader, depth)?;
    }
    Ok(())
}

//! Names that others chose, as they stand in a line.
ghost use Rattle.std.specs.Prelude.{◌≡◌, ◌++◌, IfOk, OnOk, chars, string_bytes};
ghost use Rattle.std.specs.Option.{option_copied};
ghost use Rattle.aud_explanation.specs.Named.{NamesApart, in_quotes, is_of_plain, is_plain_name, name_words, named_words, quoted, whole_name};

use crate::escape::is_hidden;
use crate::long::{first_shown, last_shown, left_out};
use std::alloc::{AllocError, Global};

/// How much of a long name stands in a line.
#[derive(Clone, Copy, Drop)]
pub enum Names {
    /// All of it.
    Whole,
    /// Of more than 200 characters the first 100 and the last 100, and how many are left out.
    Short,
}

/// Whether the character may stand in a name without quotes.
fn is_of_plain(c: char) -> bool
    ensures { result ≡ is_of_plain c }
{
    if c.is_whitespace() || c.is_control() {
        return false;
    }
    if is_hidden(c) {
        return false;
    }
    !matches!(c, '"' | ',' | '\\')
}

/// Whether a name of these characters stands without quotes.
fn is_plain_name(characters: &[char]) -> bool
    ensures { result ≡ is_plain_name characters.now }
{
    if characters.is_empty() {
        return false;
    }
    for c in characters {
        if !is_of_plain(*c) {
            return false;
        }
    }
    true
}

/// Puts a character between quotes at the end.
fn push_in_quotes(out: &mut String, c: char) -> Result<(), AllocError>
    ensures { OnOk result (string_bytes out.new ≡ string_bytes out.old ++ in_quotes c) }
{
    if c == '"' {
        out.push_str("\"\"")
    } else {
        out.push(c)
    }
}

/// Puts the characters at the end between quotes.
fn push_quoted(out: &mut String, characters: &[char]) -> Result<(), AllocError>
    ensures { OnOk result (string_bytes out.new ≡ string_bytes out.old ++ quoted characters.now) }
{
    out.push_str("\"")?;
    for c in characters {
        push_in_quotes(out, *c)?;
    }
    out.push_str("\"")
}

fn chars_of(alloc: Global, name: &str) -> Result<Vec<char>, AllocError>
    ensures { IfOk result (λ cs. cs.items ≡ chars name.now) }
{
    name.chars().collect(alloc)
}

/// Puts a name at the end: as it is where it is plain, else between quotes, in which a quote stands twice. A plain name
/// is not empty, and has no white space, no `"`, `,` and `\`, and no character that is printed as an escape.
#[tactic(auto, unfolding(crate::specs::Named::name_words))]
pub(crate) fn push_name(
    alloc: Global,
    out: &mut String,
    names: Names,
    name: &str,
) -> Result<(), AllocError>
    ensures { OnOk result (string_bytes out.new
        ≡ string_bytes out.old ++ name_words names name.now) }
{
    let characters = chars_of(alloc, name)?;
    let characters = characters.as_slice();
    match names {
        Names::Short if left_out(characters) > 0 => {
            let left = left_out(characters);
            push_quoted(out, first_shown(characters))?;
            write!(out, " .. {left} more .. ")?;
            push_quoted(out, last_shown(characters))
        }
        _ if is_plain_name(characters) => out.push_str(name),
        _ => push_quoted(out, characters),
    }
}

/// Puts the words and the name at the end; where there is no name, the words in their place.
#[tactic(auto, unfolding(crate::specs::Named::named_words))]
pub(crate) fn push_named(
    alloc: Global,
    out: &mut String,
    names: Names,
    words: &str,
    name: Option<&str>,
    none: &str,
) -> Result<(), AllocError>
    ensures { OnOk result (string_bytes out.new
        ≡ string_bytes out.old
        ++ named_words names words.now (option_copied name.entry) none.now) }
{
    match name {
        Some(name) => {
            out.push_str(words)?;
            push_name(alloc, out, names, name)
        }
        None => out.push_str(none),
    }
}

/// A name as it stands in a line: as it is where it has no white space, no `"`, `,` and `\`, no character that is printed
/// as an escape, and isn't empty; else between quotes, in which a quote stands twice. It is still to be
/// [`printed`](crate::printed). No two names are printed alike, which is the law [`names_apart`].
#[tactic(auto, unfolding(crate::specs::Named::name_words))]
pub fn named(alloc: Global, name: &str) -> Result<String, AllocError>
    ensures { IfOk result (λ out. string_bytes out ≡ whole_name name.now) }
{
    let mut out = String::new(alloc);
    push_name(alloc, &mut out, Names::Whole, name)?;
    Ok(out)
}

/// No two names are printed alike: a law of [`named`].
pub fn names_apart()
    ensures { NamesApart }
{}

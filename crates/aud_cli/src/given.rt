//! The arguments as options and files.
ghost use Rattle.std.specs.Prelude.{◌≡◌, ◌≤◌, ◌++◌, drop, length, map, IfOk, IfSome, OnOk, option_map};
ghost use Rattle.aud_cli.specs.Given.{alone, alone_or_number, file, given_of, is_file, number_in, takes_number, takes_value, values_of};
ghost use Rattle.aud_cli.specs.Private.Steps.{is_end, next_given};

use crate::sizes::number_named;
use aud_base::{Text, Texts};
use std::alloc::{AllocError, Global};
use std::marker::Model;

/// An option with its value, the number of a record, or a file, whose name is that of no option.
#[derive(Drop)]
pub struct Given<'a> {
    name: &'a str,
    value: &'a str,
}

impl<'a> Model for Given<'a> {
    ghost use Rattle.aud_cli.specs.Given as spec;

    ghost Value = { spec.Given };

    ghost view = { λ g. record { name = g.name.now; value = g.value.now } };
}

impl<'a> Given<'a> {
    /// The option's name with its dashes, `number` for a number, or nothing for a file.
    pub fn name(&self) -> &'a str
        ensures { result.now ≡ self.now.name }
    {
        self.name
    }

    /// The option's value, the number, or the file.
    pub fn value(&self) -> &'a str
        ensures { result.now ≡ self.now.value }
    {
        self.value
    }
}

/// Whether the next word is the option's value.
fn takes_value(word: &str) -> bool
    ensures { result ≡ takes_value word.now }
{
    matches!(
        word,
        "--pid"
            | "--only"
            | "--fail-on"
            | "--workers"
            | "--record"
            | "--parts"
            | "--bytes"
            | "--into"
            | "--lines"
    )
}

/// Whether the word is a file.
fn is_file(word: &str) -> bool
    ensures { result ≡ is_file word.now }
{
    word == "-" || !word.starts_with('-')
}

fn file(word: &str) -> Given<'_>
    ensures { result ≡ file word.now }
{
    Given {
        name: "",
        value: word,
    }
}

/// What a word gives by itself: a file, an option to which its value is joined, or an option without one.
fn alone(word: &str) -> Given<'_>
    ensures { result ≡ alone word.now }
{
    if is_file(word) {
        return file(word);
    }
    match word.split_once('=') {
        Some((name, value)) if takes_value(name) => Given { name, value },
        _ => Given {
            name: word,
            value: "",
        },
    }
}

/// The number of a record that this word is, where it is one; they count from 0.
pub fn number_in(word: &str) -> Option<u64>
    ensures { result ≡ number_in word.now }
{
    number_named(0, u64::MAX, word)
}

/// Whether the number of a record may stand after this.
pub fn takes_number(given: &Given<'_>) -> bool
    ensures { result ≡ takes_number given.now }
{
    given.name == "--record" || given.name == "number"
}

/// What a word gives by itself, where a number may stand there, or none may.
fn alone_or_number(may_be: bool, word: &str) -> Given<'_>
    ensures { result ≡ alone_or_number may_be word.now }
{
    if may_be && number_in(word).is_some() {
        Given {
            name: "number",
            value: word,
        }
    } else {
        alone(word)
    }
}

/// Whether no option and no file stands here before `--` and the files after it.
pub fn is_end(words: &[&str]) -> bool
    ensures { result ≡ is_end words.now }
{
    match words.first() {
        Some(word) => *word == "--",
        None => true,
    }
}

/// What stands first, which may be a number or may not, and how many arguments it has; none where an option has no value.
pub fn next_given<'a>(may_be: bool, words: &[&'a str]) -> Option<(Given<'a>, usize)>
    ensures given { result ≡ next_given may_be words.now }
    ensures words { IfSome result (λ r. (1 ≤ r.1) × (r.1 ≤ length words.now)) }
{
    let (word, after) = words.split_first()?;
    if !takes_value(word) {
        return Some((alone_or_number(may_be, word), 1));
    }
    let value = after.first()?;
    Some((Given { name: word, value }, 2))
}

/// The arguments from this one on; they count from 0.
pub fn from<'a, 'w>(words: &'w [&'a str], at: usize) -> &'w [&'a str]
    requires { at ≤ length words.now }
    ensures { result.now ≡ drop at words.now }
{
    &words[at..]
}

/// The arguments after `--`, where it stands first.
fn after_end<'a, 'w>(words: &'w [&'a str]) -> &'w [&'a str]
    ensures { result.now ≡ drop 1 words.now }
{
    words.get(1..).unwrap_or(words)
}

/// Puts these files after what is given.
fn push_files<'a>(found: &mut Vec<Given<'a>>, words: &[&'a str]) -> Result<(), AllocError>
    ensures { OnOk result (found.new.items ≡ found.old.items ++ map (λ w. file w.now) words.now) }
{
    for word in words {
        found.push(file(word))?;
    }
    Ok(())
}

/// What the arguments give; none where an option has no value.
pub fn given_of<'a>(alloc: Global, words: &[&'a str]) -> Result<Option<Vec<Given<'a>>>, AllocError>
    ensures { IfOk result (λ found. option_map (λ v. v.items) found ≡ given_of words.now) }
{
    let mut found = Vec::new(alloc);
    let mut may_be = false;
    let mut at = 0;
    'words: while !is_end(from(words, at)) {
        let Some((given, count)) = next_given(may_be, from(words, at)) else {
            return Ok(None);
        };
        may_be = takes_number(&given);
        found.push(given)?;
        at += count;
    }
    push_files(&mut found, after_end(from(words, at)))?;
    Ok(Some(found))
}

/// The values of the option of this name, in their order; without a name the files.
pub fn values_of(alloc: Global, name: &str, all: &[Given<'_>]) -> Result<Texts, AllocError>
    ensures { IfOk result (λ texts. texts ≡ values_of name.now all.now) }
{
    let mut values = Vec::new(alloc);
    for given in all {
        if given.name() == name {
            let value = Text::new(alloc, given.value())?;
            values.push(value)?;
        }
    }
    Ok(Texts::new(values))
}

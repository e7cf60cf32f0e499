//! The arguments of `split`.
ghost use Rattle.std.specs.Prelude.{◌≡◌, ◌≢◌, Some, None, IfErr, IfOk, IfSome};
ghost use Rattle.clap.specs.Words.{kind_of};
ghost use Rattle.aud_cli.specs.SplitArguments.{AreWithin, IsWithinAll, asked, choices_of, files_to_split, has_stdin, no_choices, only_text, options_of, with_given};

use crate::arguments::workers_named;
use crate::given::{Given, given_of, values_of};
use crate::help::{BAD_SIZE, STDIN_TWICE};
use crate::once::{once, switched_on};
use crate::parser::refusal_or;
use crate::sizes::{parts_named, size_named};
use crate::split_options::{SplitChoices, SplitOptions};
use aud_base::{Text, Texts};
use clap::Error;
use clap::error::ErrorKind;
use std::alloc::{AllocError, Global};

/// These options and the next one. Files and the folder have their own places.
fn with_given(before: SplitChoices, given: &Given<'_>) -> Option<SplitChoices>
    requires { AreWithin before }
    ensures choices { result ≡ with_given before given.now }
    ensures within { IfSome result AreWithin }
{
    let mut choices = before;
    match given.name() {
        "" | "--into" => {}
        "--parts" => choices.parts = Some(once(before.parts, parts_named(given.value()))?),
        "--bytes" => choices.parts = Some(once(before.parts, size_named(given.value()))?),
        "--quiet" => choices.quiet = switched_on(before.quiet)?,
        "--workers" => {
            choices.workers = Some(once(before.workers, workers_named(given.value()))?);
        }
        _ => return None,
    }
    Some(choices)
}

/// The options of all that is given, where it is understood.
fn choices_of(all: &[Given<'_>]) -> Option<SplitChoices>
    ensures choices { result ≡ choices_of no_choices all.now }
    ensures within { IfSome result AreWithin }
{
    let mut choices = SplitChoices {
        parts: None,
        quiet: false,
        workers: None,
    };
    'all: for given in all {
        choices = with_given(choices, given)?;
    }
    Some(choices)
}

/// The only one of these texts.
fn only_text(texts: &Texts) -> Result<Option<Text>, AllocError>
    ensures { IfOk result (λ text. text ≡ only_text texts.now) }
{
    match texts.as_slice() {
        [text] => Ok(Some(text.share()?)),
        _ => Ok(None),
    }
}

/// Whether one of these files is standard input.
fn has_stdin(files: &[Text]) -> bool
    ensures { result ≡ has_stdin files.now }
{
    files.iter().any(|file| file.as_str() == "-")
}

/// These files, where there are some, and none is standard input.
fn files_to_split(files: Texts) -> Option<Texts>
    ensures { result ≡ files_to_split files }
{
    if files.as_slice().is_empty() || has_stdin(files.as_slice()) {
        return None;
    }
    Some(files)
}

/// What is asked for by these options, and by the folder, of which there is to be one, and the files of all that is
/// given.
fn options_of(
    alloc: Global,
    choices: SplitChoices,
    all: &[Given<'_>],
) -> Result<Option<SplitOptions>, AllocError>
    requires { AreWithin choices }
    ensures options { IfOk result (λ o. o ≡ options_of all.now choices) }
    ensures within { IfOk result (λ o. IfSome o IsWithinAll) }
{
    let Some(parts) = choices.parts else {
        return Ok(None);
    };
    let Some(into) = only_text(&values_of(alloc, "--into", all)?)? else {
        return Ok(None);
    };
    let Some(files) = files_to_split(values_of(alloc, "", all)?) else {
        return Ok(None);
    };
    Ok(Some(SplitOptions {
        parts,
        into,
        files,
        quiet: choices.quiet,
        workers: choices.workers.unwrap_or(4),
    }))
}

/// What the arguments ask for, where they are understood.
fn asked(alloc: Global, words: &[&str]) -> Result<Option<SplitOptions>, AllocError>
    ensures options { IfOk result (λ o. o ≡ asked words.now) }
    ensures within { IfOk result (λ o. IfSome o IsWithinAll) }
{
    let Some((name, rest)) = words.split_first() else {
        return Ok(None);
    };
    if *name != "split" {
        return Ok(None);
    }
    let Some(all) = given_of(alloc, rest)? else {
        return Ok(None);
    };
    let Some(choices) = choices_of(&all) else {
        return Ok(None);
    };
    options_of(alloc, choices, &all)
}

/// Why arguments that the parser lets pass are not understood.
fn why_not(words: &[&str]) -> &'static str {
    if words.iter().any(|word| *word == "-") {
        STDIN_TWICE
    } else {
        BAD_SIZE
    }
}

/// What the arguments after the program's name ask for, of which the first is `split`. The error has the text to
/// print: help that was asked for, or why the arguments are refused; where memory ran out its kind is `OutOfMemory`.
pub fn split_asked<'a>(alloc: Global, words: &'a [&'a str]) -> Result<SplitOptions, Error>
    ensures understood { IfOk result (λ o. asked words.now ≡ Some o) }
    ensures refused { IfErr result (λ e. kind_of e ≢ ErrorKind.OutOfMemory
        → asked words.now ≡ None) }
    ensures within { IfOk result IsWithinAll }
{
    match asked(alloc, words)? {
        Some(options) => Ok(options),
        None => Err(refusal_or(alloc, words, why_not(words))?),
    }
}

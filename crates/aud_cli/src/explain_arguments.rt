//! The arguments of `explain`.
ghost use Rattle.std.specs.Prelude.{◌≡◌, ◌++◌, ◌∷◌, [], OnOk, ◌≢◌, ◌≤◌, Some, None, IfErr, IfOk, IfSome, slice_get};
ghost use Rattle.clap.specs.Words.{kind_of};
ghost use Rattle.aud_cli.specs.ExplainArguments.{AreWithin, asked, choices_of, is_mixed, lacks_whole, no_choices, options_of, records_of, with_given};

use crate::arguments::workers_named;
use crate::explain_options::{Choices, ExplainOptions, NamedRecord};
use crate::fail_on::{EVERY_CLASS, fail_on_named};
use crate::given::{Given, given_of, number_in, values_of};
use crate::help::{RECORD_NUMBERS, TAIL_ALONE};
use crate::once::{once, switched_on};
use crate::only::{Only, only_named};
use crate::output_form::OutputForm;
use crate::parser::refusal_or;
use aud_base::{Listed, Text, Texts};
use clap::Error;
use clap::error::ErrorKind;
use std::alloc::{AllocError, Global};

/// These options and the next one. Sessions, records and files, and what `--lines` names, have their own places.
fn with_given(before: Choices, given: &Given<'_>) -> Option<Choices>
    requires { AreWithin before }
    ensures choices { result ≡ with_given before given.now }
    ensures within { IfSome result AreWithin }
{
    let mut choices = before;
    match given.name() {
        "" | "number" => {}
        "--pid" => choices.pids = true,
        "--record" => choices.records = true,
        "--json" => choices.form = Some(once(before.form, Some(OutputForm::Json))?),
        "--html" => choices.form = Some(once(before.form, Some(OutputForm::Html))?),
        "--whole" => choices.whole = switched_on(before.whole)?,
        "--quiet" => choices.quiet = switched_on(before.quiet)?,
        "--only" => choices.only = Some(once(before.only, only_named(given.value()))?),
        "--fail-on" => {
            choices.fail_on = Some(once(before.fail_on, fail_on_named(given.value()))?);
        }
        "--workers" => {
            choices.workers = Some(once(before.workers, workers_named(given.value()))?);
        }
        "--lines" => choices.lines = switched_on(before.lines)?,
        _ => return None,
    }
    Some(choices)
}

/// The options of all that is given, where it is understood.
fn choices_of(all: &[Given<'_>]) -> Option<Choices>
    ensures choices { result ≡ choices_of no_choices all.now }
    ensures within { IfSome result AreWithin }
{
    let mut choices = Choices {
        only: None,
        form: None,
        fail_on: None,
        whole: false,
        quiet: false,
        workers: None,
        lines: false,
        pids: false,
        records: false,
    };
    'all: for given in all {
        choices = with_given(choices, given)?;
    }
    Some(choices)
}

/// Whether `TAIL` is named without `--whole`, which alone looks for it.
fn lacks_whole(choices: Choices) -> bool
    ensures { result ≡ lacks_whole choices }
{
    if choices.whole {
        return false;
    }
    let shows = match choices.only {
        Some(Only::With(faults)) => faults.tail,
        _ => false,
    };
    let fails = match choices.fail_on {
        Some(fail_on) => fail_on.faults.tail,
        None => false,
    };
    shows || fails
}

/// Whether records are asked for by their numbers, and beside them what is of sessions alone.
fn is_mixed(choices: Choices) -> bool
    ensures { result ≡ is_mixed choices }
{
    if !choices.records {
        return false;
    }
    choices.pids
        || choices.only.is_some()
        || choices.fail_on.is_some()
        || choices.whole
        || matches!(choices.form, Some(OutputForm::Html))
}

/// Puts the record of this number of the tap after the others.
fn push_named(
    alloc: Global,
    records: &mut Vec<NamedRecord>,
    tap: &str,
    number: u64,
) -> Result<(), AllocError>
    ensures { OnOk result (records.new.items
        ≡ records.old.items ++ record { tap = tap.now; number = number } ∷ []) }
{
    let tap = Text::new(alloc, tap)?;
    records.push(NamedRecord { tap, number })?;
    Ok(())
}

/// The records whose numbers are named; none where a `--record` has no number.
fn records_of(alloc: Global, all: &[Given<'_>]) -> Result<Option<Listed<NamedRecord>>, AllocError>
    ensures { IfOk result (λ records. records ≡ records_of all.now) }
{
    let mut records = Vec::new(alloc);
    let mut tap = "";
    let mut lacks = false;
    'all: for given in all {
        if given.name() == "number" {
            let Some(number) = number_in(given.value()) else {
                return Ok(None);
            };
            push_named(alloc, &mut records, tap, number)?;
            lacks = false;
        } else if lacks {
            return Ok(None);
        } else if given.name() == "--record" {
            tap = given.value();
            lacks = true;
        }
    }
    if lacks {
        return Ok(None);
    }
    Ok(Some(Listed::new(records)))
}

/// The first of these texts, if there is one.
fn first_text(texts: &Texts) -> Result<Option<Text>, AllocError>
    ensures { IfOk result (λ text. text ≡ slice_get texts.now 0) }
{
    match texts.as_slice() {
        [text, ..] => Ok(Some(text.share()?)),
        [] => Ok(None),
    }
}

/// What is asked for by these options, these records, and the sessions and files of all that is given.
fn options_of(
    alloc: Global,
    choices: Choices,
    records: Listed<NamedRecord>,
    all: &[Given<'_>],
) -> Result<ExplainOptions, AllocError>
    requires { AreWithin choices }
    ensures options { IfOk result (λ o. o ≡ options_of all.now choices records) }
    ensures within { IfOk result (λ o. (1 ≤ o.workers) × (o.workers ≤ 64)) }
{
    let lines = first_text(&values_of(alloc, "--lines", all)?)?;
    let pids = values_of(alloc, "--pid", all)?;
    let files = values_of(alloc, "", all)?;
    Ok(ExplainOptions {
        pids,
        only: choices.only,
        form: choices.form.unwrap_or(OutputForm::Text),
        fail_on: choices.fail_on.unwrap_or(EVERY_CLASS),
        whole: choices.whole,
        quiet: choices.quiet,
        workers: choices.workers.unwrap_or(4),
        lines,
        records,
        files,
    })
}

/// What the arguments ask for, where they are understood.
fn asked(alloc: Global, words: &[&str]) -> Result<Option<ExplainOptions>, AllocError>
    ensures options { IfOk result (λ o. o ≡ asked words.now) }
    ensures within { IfOk result (λ o. IfSome o (λ o. (1 ≤ o.workers) × (o.workers ≤ 64))) }
{
    let Some((name, rest)) = words.split_first() else {
        return Ok(None);
    };
    if *name != "explain" {
        return Ok(None);
    }
    let Some(all) = given_of(alloc, rest)? else {
        return Ok(None);
    };
    let Some(choices) = choices_of(&all) else {
        return Ok(None);
    };
    if lacks_whole(choices) || is_mixed(choices) {
        return Ok(None);
    }
    let Some(records) = records_of(alloc, &all)? else {
        return Ok(None);
    };
    let options = options_of(alloc, choices, records, &all)?;
    Ok(Some(options))
}

/// Why words are refused that the parser lets pass.
fn refused_words(words: &[&str]) -> &'static str {
    if words.iter().any(|word| word.starts_with("--record")) {
        RECORD_NUMBERS
    } else {
        TAIL_ALONE
    }
}

/// What the arguments after the program's name ask for, of which the first is `explain`. The error has the text to
/// print: help that was asked for, or why the arguments are refused; where memory ran out its kind is `OutOfMemory`.
pub fn explain_asked<'a>(alloc: Global, words: &'a [&'a str]) -> Result<ExplainOptions, Error>
    ensures understood { IfOk result (λ o. asked words.now ≡ Some o) }
    ensures refused { IfErr result (λ e. kind_of e ≢ ErrorKind.OutOfMemory
        → asked words.now ≡ None) }
    ensures workers { IfOk result (λ o. (1 ≤ o.workers) × (o.workers ≤ 64)) }
{
    match asked(alloc, words)? {
        Some(options) => Ok(options),
        None => Err(refusal_or(alloc, words, refused_words(words))?),
    }
}

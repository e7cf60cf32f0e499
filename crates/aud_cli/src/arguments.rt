//! The arguments of the modes that read a bundle, `explain` apart.
ghost use Rattle.std.specs.Prelude.{◌≡◌, ◌≤◌, true, None, IfErr, IfOk, IfSome};
ghost use Rattle.aud_cli.specs.Arguments.{AreWithin, asked, files_named, given_in, has_quiet, mode_named, mode_of, options_given, with_given, workers_named};

use crate::choice::{InputFiles, Mode, ModeOptions, Options};
use crate::given::{Given, from, given_of, is_end, next_given, takes_number, values_of};
use crate::once::{once, switched_on};
use crate::parser::refusal;
use crate::sizes::number_named;
use clap::Error;
use std::alloc::{AllocError, Global};

/// The mode of this name.
fn mode_named(name: &str) -> Option<Mode>
    ensures { result ≡ mode_named name.now }
{
    match name {
        "audit" => Some(Mode::Audit),
        "prove" => Some(Mode::Prove),
        "verify" => Some(Mode::Verify),
        "order" => Some(Mode::Order),
        "upgrade" => Some(Mode::Upgrade),
        _ => None,
    }
}

/// The number of workers that this text gives: decimal digits for 1 to 64, and a plus may stand
/// before them.
pub fn workers_named(text: &str) -> Option<u8>
    ensures number { result ≡ workers_named text.now }
    ensures within { IfSome result (λ n. (1 ≤ n) × (n ≤ 64)) }
{
    let workers = number_named(1, 64, text)?;
    Some(workers as u8)
}

/// These options and the next one; `--workers` and `--whole` are of an audit alone. Files have their own place.
fn with_given(mode: Mode, before: ModeOptions, given: &Given<'_>) -> Option<ModeOptions>
    requires { AreWithin mode before }
    ensures options { result ≡ with_given mode before given.now }
    ensures within { IfSome result (AreWithin mode) }
{
    let mut options = before;
    match (given.name(), mode) {
        ("", _) => {}
        ("--quiet", _) => options.quiet = switched_on(before.quiet)?,
        ("--whole", Mode::Audit) => options.whole = switched_on(before.whole)?,
        ("--workers", Mode::Audit) => {
            options.workers = Some(once(before.workers, workers_named(given.value()))?);
        }
        _ => return None,
    }
    Some(options)
}

/// The options that the arguments after the mode's name give, in any order.
fn options_given(mode: Mode, words: &[&str]) -> Option<ModeOptions>
    ensures options { result ≡ options_given mode words.now }
    ensures within { IfSome result (AreWithin mode) }
{
    let mut options = ModeOptions {
        workers: None,
        whole: false,
        quiet: false,
    };
    let mut may_be = false;
    let mut at = 0;
    'words: while !is_end(from(words, at)) {
        let (given, count) = next_given(may_be, from(words, at))?;
        may_be = takes_number(&given);
        options = with_given(mode, options, &given)?;
        at += count;
    }
    Some(options)
}

/// What the arguments ask for, where they are understood: 4 workers where they give no number.
fn asked(words: &[&str]) -> Option<Options>
    ensures options { result ≡ asked words.now }
    ensures within { IfSome result (λ o. (1 ≤ o.workers) × (o.workers ≤ 64)) }
    ensures whole { IfSome result (λ o. o.whole ≡ true → o.mode ≡ Mode.Audit) }
{
    let (name, rest) = words.split_first()?;
    let mode = mode_named(name)?;
    let options = options_given(mode, rest)?;
    Some(Options {
        mode,
        workers: options.workers.unwrap_or(4),
        whole: options.whole,
    })
}

/// What the arguments after the program's name ask for. The error has the text to print: help that
/// was asked for, or why the arguments are refused; where memory ran out its kind is `OutOfMemory`.
pub fn options<'a>(alloc: Global, words: &'a [&'a str]) -> Result<Options, Error>
    ensures understood { IfOk result (λ o. asked words.now ≡ Some o) }
    ensures refused { IfErr result (λ _. asked words.now ≡ None) }
    ensures mode { IfOk result (λ o. mode_of words.now ≡ Some o.mode) }
    ensures workers { IfOk result (λ o. (1 ≤ o.workers) × (o.workers ≤ 64)) }
    // Only an audit is asked for the whole.
    ensures whole { IfOk result (λ o. o.whole ≡ true → o.mode ≡ Mode.Audit) }
{
    match asked(words) {
        Some(options) => Ok(options),
        None => Err(refusal(alloc, words)?),
    }
}

/// The options and files after the mode's name; none where the arguments give none.
fn given_in<'a>(alloc: Global, words: &[&'a str]) -> Result<Vec<Given<'a>>, AllocError>
    ensures { IfOk result (λ all. all.items ≡ given_in words.now) }
{
    let Some((_mode, rest)) = words.split_first() else {
        return Ok(Vec::new(alloc));
    };
    match given_of(alloc, rest)? {
        Some(all) => Ok(all),
        None => Ok(Vec::new(alloc)),
    }
}

/// The files that arguments which [`options`] understands name, in their order, and whether they ask for quiet.
pub fn files(alloc: Global, words: &[&str]) -> Result<InputFiles, AllocError>
    ensures names { IfOk result (λ files. files.names ≡ files_named words.now) }
    ensures quiet { IfOk result (λ files. files.quiet ≡ has_quiet words.now) }
{
    let all = given_in(alloc, words)?;
    let names = values_of(alloc, "", &all)?;
    let quiet = all.iter().any(|given| given.name() == "--quiet");
    Ok(InputFiles { names, quiet })
}

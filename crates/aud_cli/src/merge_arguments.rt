//! The arguments of `merge`.
ghost use Rattle.std.specs.Prelude.{◌≡◌, ◌≢◌, Some, None, IfErr, IfOk};
ghost use Rattle.clap.specs.Words.{kind_of};
ghost use Rattle.aud_cli.specs.MergeArguments.{are_files, asked, options_of};

use crate::given::{Given, given_of, values_of};
use crate::merge_options::MergeOptions;
use crate::parser::refusal;
use aud_base::{Text, Texts};
use clap::Error;
use clap::error::ErrorKind;
use std::alloc::{AllocError, Global};

/// Whether all of these are files.
fn are_files(all: &[Given<'_>]) -> bool
    ensures { result ≡ are_files all.now }
{
    all.iter().all(|given| given.name() == "")
}

/// These texts, of which nothing is copied.
fn shared(alloc: Global, texts: &[Text]) -> Result<Texts, AllocError>
    ensures { IfOk result (λ shared. shared ≡ texts.now) }
{
    let mut shared = Vec::new(alloc);
    for text in texts {
        shared.push(text.share()?)?;
    }
    Ok(Texts::new(shared))
}

/// What is asked for by all that is given: the first file is the folder, and the others are reports, of which there is
/// one at least.
fn options_of(alloc: Global, all: &[Given<'_>]) -> Result<Option<MergeOptions>, AllocError>
    ensures { IfOk result (λ o. o ≡ options_of all.now) }
{
    if !are_files(all) {
        return Ok(None);
    }
    let files = values_of(alloc, "", all)?;
    match files.as_slice() {
        [] | [_] => Ok(None),
        [folder, reports @ ..] => {
            let folder = folder.share()?;
            let reports = shared(alloc, reports)?;
            Ok(Some(MergeOptions { folder, reports }))
        }
    }
}

/// What the arguments ask for, where they are understood.
fn asked(alloc: Global, words: &[&str]) -> Result<Option<MergeOptions>, AllocError>
    ensures { IfOk result (λ o. o ≡ asked words.now) }
{
    let Some((name, rest)) = words.split_first() else {
        return Ok(None);
    };
    if *name != "merge" {
        return Ok(None);
    }
    match given_of(alloc, rest)? {
        Some(all) => options_of(alloc, &all),
        None => Ok(None),
    }
}

/// What the arguments after the program's name ask for, of which the first is `merge`. The error has the text to
/// print: help that was asked for, or why the arguments are refused; where memory ran out its kind is `OutOfMemory`.
pub fn merge_asked<'a>(alloc: Global, words: &'a [&'a str]) -> Result<MergeOptions, Error>
    ensures understood { IfOk result (λ o. asked words.now ≡ Some o) }
    ensures refused { IfErr result (λ e. kind_of e ≢ ErrorKind.OutOfMemory
        → asked words.now ≡ None) }
{
    match asked(alloc, words)? {
        Some(options) => Ok(options),
        None => Err(refusal(alloc, words)?),
    }
}

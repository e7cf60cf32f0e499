//! The arguments of the command line.
use crate::case::cut;
use aud_app::{Mode, Options, files, options};
use aud_schedule::plan_asked;
use std::alloc::{AllocError, Global};
use std::process::Abort;
use std::test::Fail;

/// Arguments that are understood, and what they ask for.
static ACCEPTED: [(&[&str], Mode, u8, bool); 23] = [
    (&["audit"], Mode::Audit, 4, false),
    (&["audit", "--"], Mode::Audit, 4, false),
    (&["audit", "--workers", "64"], Mode::Audit, 64, false),
    (&["audit", "--workers=1"], Mode::Audit, 1, false),
    (&["audit", "--workers", "+07"], Mode::Audit, 7, false),
    (&["audit", "--workers=+064"], Mode::Audit, 64, false),
    (&["audit", "--workers", "8", "--"], Mode::Audit, 8, false),
    (&["audit", "--workers=8", "--"], Mode::Audit, 8, false),
    (&["prove"], Mode::Prove, 4, false),
    (&["prove", "--"], Mode::Prove, 4, false),
    (&["verify"], Mode::Verify, 4, false),
    (&["verify", "--"], Mode::Verify, 4, false),
    (&["order"], Mode::Order, 4, false),
    (&["order", "--"], Mode::Order, 4, false),
    (&["upgrade"], Mode::Upgrade, 4, false),
    (&["upgrade", "--"], Mode::Upgrade, 4, false),
    (&["audit", "--whole"], Mode::Audit, 4, true),
    (
        &["audit", "--whole", "--workers", "2"],
        Mode::Audit,
        2,
        true,
    ),
    (
        &["audit", "--workers=2", "--whole", "--"],
        Mode::Audit,
        2,
        true,
    ),
    (
        &["audit", "a.jsonl", "--whole", "-", "--quiet"],
        Mode::Audit,
        4,
        true,
    ),
    (&["audit", "--", "--workers", "4"], Mode::Audit, 4, false),
    (&["verify", "--quiet", "prove"], Mode::Verify, 4, false),
    (&["order", "", "--", "--quiet"], Mode::Order, 4, false),
];

#[test]
fn arguments_that_are_accepted(rt: HostRuntime) -> Result<(), Fail> {
    for &(arguments, mode, workers, whole) in &ACCEPTED {
        let asked = Options {
            mode,
            workers,
            whole,
        };
        assert_eq!(rt; options(rt.alloc(), arguments)?, asked);
    }
    Ok(())
}

/// Arguments, the files that they name, and whether they ask for quiet.
static NAMED: [(&[&str], &[&str], bool); 6] = [
    (&["audit"], &[], false),
    (&["audit", "-"], &["-"], false),
    (
        &["audit", "a", "--workers", "2", "b", "--quiet", "a"],
        &["a", "b", "a"],
        true,
    ),
    (
        &["prove", "--", "--quiet", "--whole", "-"],
        &["--quiet", "--whole", "-"],
        false,
    ),
    (&["verify", "--quiet", "--"], &[], true),
    (&["order", "", "prove"], &["", "prove"], false),
];

#[test]
fn files_that_are_named(rt: HostRuntime) -> Result<(), Fail> {
    for &(arguments, names, quiet) in &NAMED {
        let found = files(rt.alloc(), arguments)?;
        let texts = found.names.as_slice();
        let same = texts
            .iter()
            .map(|text| text.as_str())
            .eq(names.iter().copied());
        assert!(rt; same && found.quiet == quiet, "{arguments:?}");
    }
    Ok(())
}

/// Which arguments are read.
#[derive(Clone, Copy, Drop)]
pub enum Command {
    /// Those of a run.
    Run,
    /// Those of `simulate`.
    Simulate,
}

/// The arguments of a row, which have blanks between them.
pub fn words_of<'a>(alloc: Global, words: &'a str) -> Result<Vec<&'a str>, AllocError> {
    let mut found = Vec::new(alloc);
    if words.is_empty() {
        return Ok(found);
    }
    for word in words.split(' ') {
        found.push(word)?;
    }
    Ok(found)
}

/// Whether these arguments are refused, or ask for help, with a text that has this part. What is refused goes to
/// standard error, and help to standard output.
pub fn is_answered(
    alloc: Global,
    command: Command,
    words: &str,
    answer: &str,
    part: &str,
) -> Result<bool, Fail> {
    let words = words_of(alloc, words)?;
    let error = match command {
        Command::Run => options(alloc, &words).err(),
        Command::Simulate => plan_asked(alloc, &words).err(),
    };
    let Some(error) = error else {
        return Ok(false);
    };
    let text = format!(in alloc; "{error}")?;
    Ok(text.as_str().contains(part) && error.use_stderr() == (answer == "refused"))
}

/// Asserts that the arguments of each row are answered so, with a text that has the part after the colon.
pub fn assert_answered(
    rt: &impl Abort,
    alloc: Global,
    command: Command,
    rows: &[&str],
) -> Result<(), Fail> {
    for row in rows {
        let (words, wanted) = cut(row, " -> ");
        let (answer, part) = cut(wanted, ": ");
        assert!(rt; is_answered(alloc, command, words, answer, part)?, "{row}");
    }
    Ok(())
}

/// Arguments that are refused or ask for help, and a part of the text.
static REFUSED: [&str; 37] = [
    " -> refused: Usage",
    "judge -> refused: judge",
    "-- audit -> refused: audit",
    "audit --json -> refused: --json",
    "explain -> refused: not understood",
    "audit --quiet --quiet -> refused: --quiet",
    "prove --pid P -> refused: --pid",
    "prove --whole -> refused: --whole",
    "verify --whole -> refused: --whole",
    "order --whole -> refused: --whole",
    "upgrade --whole -> refused: --whole",
    "simulate --whole -> refused: --whole",
    "--whole audit -> refused: --whole",
    "audit --whole --whole -> refused: --whole",
    "audit --whole --workers 1 --whole -> refused: --whole",
    "audit --workers -> refused: --workers",
    "audit --workers 0 -> refused: 0",
    "audit --workers 65 -> refused: 65",
    "audit --workers=256 -> refused: 256",
    "audit --workers 7x -> refused: 7x",
    "audit --workers + -> refused: '+'",
    "audit --workers=-1 -> refused: -1",
    "audit --workers 1 --workers 2 -> refused: --workers",
    "audit --workers=1 --workers=1 -> refused: --workers",
    "audit --workers=1 --workers 1 -> refused: --workers",
    "--workers 4 audit -> refused: --workers",
    "--workers=4 audit -> refused: --workers",
    "prove --workers 4 -> refused: --workers",
    "prove --workers=4 -> refused: --workers",
    "verify --workers 4 -> refused: --workers",
    "--help -> help: Exit status",
    "--help -> help: verify",
    "audit --help -> help: --workers",
    "prove --help -> help: certificate",
    "verify --help -> help: bad <line>",
    "upgrade --help -> help: [FILES]",
    "order -V -> help: 1.0.0",
];

#[test]
fn arguments_that_are_refused(rt: HostRuntime) -> Result<(), Fail> {
    assert_answered(&rt, rt.alloc(), Command::Run, &REFUSED)
}

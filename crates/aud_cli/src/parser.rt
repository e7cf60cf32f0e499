//! The parser of the command line, which has its help and says why arguments are refused.
use crate::fail_on::FINDINGS;
use crate::help::{
    ABOUT, AUDIT_ABOUT, AUDIT_LINES, EXPLAIN_ABOUT, EXPLAIN_LINES, MERGE_ABOUT, MERGE_LINES,
    NOT_UNDERSTOOD, ORDER_ABOUT, ORDER_LINES, PROVE_ABOUT, PROVE_LINES, SIMULATE_ABOUT,
    SIMULATE_LINES, SPLIT_ABOUT, SPLIT_LINES, STATUSES, UPGRADE_ABOUT, UPGRADE_LINES, VERIFY_ABOUT,
    VERIFY_LINES,
};
use crate::only::SHOWN;
use aud_base::VERSION;
use clap::builder::ValueParser;
use clap::error::ErrorKind;
use clap::{Arg, ArgAction, ArgGroup, Command, Error};
use std::alloc::{AllocError, Global};

/// A command that is made by one allocation after another; or there was no memory for it.
type Made<'a> = Result<Command<'a>, AllocError>;

/// How an argument stands among the words.
#[derive(Clone, Copy, Drop)]
enum Place {
    /// After its name, with dashes before it; a flag is its name alone.
    Named,
    /// The same, where commas stand between several values.
    Listed,
    /// After its name, so many values at least, one word each.
    Several(usize),
    /// By itself.
    Word,
    /// By themselves, so many at least.
    Words(usize),
}

/// An argument of a command.
#[derive(Clone, Copy, Drop)]
struct Argument {
    name: &'static str,
    help: &'static str,
    place: Place,
    action: ArgAction,
    parser: ValueParser<'static>,
    /// What stands for a value in the help; nothing where there is none.
    value: &'static [&'static str],
    /// The value of an option that doesn't stand there, if it has one then.
    default: &'static [&'static str],
    /// Whether a value may begin with a dash.
    hyphens: bool,
    required: bool,
    /// The arguments that can't stand beside it.
    conflicts: &'static [&'static str],
}

/// A flag without a name.
const FLAG: Argument = Argument {
    name: "",
    help: "",
    place: Place::Named,
    action: ArgAction::SetTrue,
    parser: ValueParser::Bool,
    value: &[],
    default: &[],
    hyphens: false,
    required: false,
    conflicts: &[],
};

/// An option without a name, whose value may be any text.
const TEXT: Argument = Argument {
    action: ArgAction::Set,
    parser: ValueParser::String,
    ..FLAG
};

/// The number of threads.
const WORKERS: Argument = Argument {
    name: "workers",
    value: &["N"],
    parser: ValueParser::Signed(1, 64),
    default: &["4"],
    ..TEXT
};

const QUIET: Argument = Argument {
    name: "quiet",
    help: "Don't tell how much of a long input was read",
    ..FLAG
};

const WHOLE: Argument = Argument {
    name: "whole",
    help: "Answer no, TAIL <n>, where n due events never came",
    ..FLAG
};

/// The files of the bundle that a command reads.
const FILES: Argument = Argument {
    name: "files",
    help: "Files of the bundle, - for standard input",
    place: Place::Words(0),
    action: ArgAction::Append,
    value: &["FILES"],
    ..TEXT
};

const AUDIT: &[Argument] = &[
    Argument {
        help: "Threads to audit with, 1 to 64; the report is the same for every N",
        ..WORKERS
    },
    WHOLE,
    FILES,
    QUIET,
];

const EXPLAIN: &[Argument] = &[
    Argument {
        name: "pid",
        help: "Show this session; may stand several times",
        action: ArgAction::Append,
        value: &["P"],
        hyphens: true,
        ..TEXT
    },
    Argument {
        name: "only",
        help: "Show only sessions answered no, or those of a class or fault",
        parser: ValueParser::Names(&SHOWN),
        value: &["WHICH"],
        ..TEXT
    },
    Argument {
        name: "record",
        help: "Show the records of a tap with these numbers; may stand several times",
        place: Place::Several(2),
        action: ArgAction::Append,
        value: &["TAP", "NUMBER"],
        conflicts: &["pid", "only", "fail-on", "html", "whole"],
        ..TEXT
    },
    Argument {
        name: "json",
        help: "Write JSON, a line a session, and one for the summary",
        ..FLAG
    },
    Argument {
        name: "html",
        help: "Write a page for a browser, one file that loads nothing",
        conflicts: &["json"],
        ..FLAG
    },
    Argument {
        name: "fail-on",
        help: "What makes the exit status 1, separated by commas",
        place: Place::Listed,
        parser: ValueParser::Names(&FINDINGS),
        value: &["LIST"],
        default: &["delivery,packets,recording"],
        ..TEXT
    },
    Argument {
        name: "lines",
        help: "Name the lines of a part as those of the whole, by the file beside it",
        value: &["FILE"],
        ..TEXT
    },
    WHOLE,
    Argument {
        help: "Threads to work with, 1 to 64; the output is the same for every N",
        ..WORKERS
    },
    FILES,
    QUIET,
];

const READING: &[Argument] = &[FILES, QUIET];

const SPLIT: &[Argument] = &[
    Argument {
        name: "parts",
        help: "Make at most so many parts, 1 to 9999",
        parser: ValueParser::Signed(1, 9_999),
        value: &["N"],
        ..TEXT
    },
    Argument {
        name: "bytes",
        help: "Make parts of at most so many bytes, as few as can be; 512M is 512 MiB",
        value: &["B"],
        ..TEXT
    },
    Argument {
        name: "into",
        help: "Folder that the parts are written to",
        value: &["FOLDER"],
        required: true,
        ..TEXT
    },
    Argument {
        help: "Threads to work with, 1 to 64; the parts are the same for every N",
        ..WORKERS
    },
    Argument {
        help: "Files of the bundle",
        place: Place::Words(1),
        required: true,
        ..FILES
    },
    QUIET,
];

const MERGE: &[Argument] = &[
    Argument {
        name: "folder",
        help: "Folder that the parts were written to",
        place: Place::Word,
        value: &["FOLDER"],
        required: true,
        ..TEXT
    },
    Argument {
        name: "reports",
        help: "Reports on the parts, - for standard input",
        place: Place::Words(1),
        value: &["REPORTS"],
        required: true,
        ..FILES
    },
];

/// A command: what it does, what its help says at the end, and its arguments.
#[derive(Clone, Copy, Drop)]
struct Described {
    name: &'static str,
    about: &'static str,
    lines: &'static str,
    /// Those of `simulate` are read by its own crate.
    arguments: &'static [Argument],
}

static COMMANDS: [Described; 9] = [
    Described {
        name: "audit",
        about: AUDIT_ABOUT,
        lines: AUDIT_LINES,
        arguments: AUDIT,
    },
    Described {
        name: "explain",
        about: EXPLAIN_ABOUT,
        lines: EXPLAIN_LINES,
        arguments: EXPLAIN,
    },
    Described {
        name: "prove",
        about: PROVE_ABOUT,
        lines: PROVE_LINES,
        arguments: READING,
    },
    Described {
        name: "verify",
        about: VERIFY_ABOUT,
        lines: VERIFY_LINES,
        arguments: READING,
    },
    Described {
        name: "order",
        about: ORDER_ABOUT,
        lines: ORDER_LINES,
        arguments: READING,
    },
    Described {
        name: "upgrade",
        about: UPGRADE_ABOUT,
        lines: UPGRADE_LINES,
        arguments: READING,
    },
    Described {
        name: "split",
        about: SPLIT_ABOUT,
        lines: SPLIT_LINES,
        arguments: SPLIT,
    },
    Described {
        name: "merge",
        about: MERGE_ABOUT,
        lines: MERGE_LINES,
        arguments: MERGE,
    },
    Described {
        name: "simulate",
        about: SIMULATE_ABOUT,
        lines: SIMULATE_LINES,
        arguments: &[],
    },
];

/// This argument.
fn arg_of<'a>(alloc: Global, row: Argument) -> Result<Arg<'a>, AllocError> {
    let arg = Arg::new(alloc, row.name)
        .help(row.help)
        .action(row.action)
        .value_parser(row.parser)
        .value_names(row.value)
        .default_values(row.default)
        .allow_hyphen_values(row.hyphens)
        .required(row.required);
    let arg = match row.place {
        Place::Named => arg.long(row.name),
        Place::Listed => arg.long(row.name).value_delimiter(','),
        Place::Several(least) => arg.long(row.name).num_args(least..),
        Place::Word => arg,
        Place::Words(least) => arg.num_args(least..),
    };
    arg.conflicts_with_all(row.conflicts)
}

/// The command `split`, where how many parts there are or how large is required.
fn sized<'a>(alloc: Global, command: Command<'a>) -> Made<'a> {
    let size = ArgGroup::new(alloc, "size").arg("parts")?.arg("bytes")?;
    command.group(size.required(true))
}

/// The command with these arguments.
fn with_args<'a>(alloc: Global, rows: &'static [Argument], command: Command<'a>) -> Made<'a> {
    let mut command = command;
    for row in rows {
        command = command.arg(arg_of(alloc, *row)?)?;
    }
    Ok(command)
}

/// This command with its arguments.
fn command_of<'a>(alloc: Global, row: Described) -> Made<'a> {
    let command = Command::new(alloc, row.name)
        .about(row.about)
        .after_help(row.lines);
    let command = with_args(alloc, row.arguments, command)?;
    if row.name == "split" {
        return sized(alloc, command);
    }
    Ok(command)
}

/// The parser, without a command.
fn top<'a>(alloc: Global) -> Made<'a> {
    Command::new(alloc, "sioaudit")
        .about(ABOUT)
        .after_help(STATUSES)
        .version(VERSION)
        .propagate_version(true)
        .no_binary_name(true)
        .subcommand_required(true)
        .bin_name("sioaudit")
}

/// The parser.
fn command<'a>(alloc: Global) -> Made<'a> {
    let mut command = top(alloc)?;
    for row in &COMMANDS {
        command = command.subcommand(command_of(alloc, *row)?)?;
    }
    Ok(command)
}

/// The text for arguments that ask for nothing: help that they ask for, or why they are refused; this text where the
/// parser lets them pass.
pub fn refusal_or<'a>(
    alloc: Global,
    words: &'a [&'a str],
    text: &str,
) -> Result<Error, AllocError> {
    match command(alloc)?.try_get_matches_from(words).err() {
        Some(error) => Ok(error),
        None => command(alloc)?.error(ErrorKind::ValueValidation, text),
    }
}

/// The text for arguments that ask for nothing: help that they ask for, or why they are refused.
pub fn refusal<'a>(alloc: Global, words: &'a [&'a str]) -> Result<Error, AllocError> {
    refusal_or(alloc, words, NOT_UNDERSTOOD)
}

//! The arguments of `simulate`.
ghost use Rattle.std.specs.Prelude.{IfOk, IfSome};
ghost use Rattle.aud_schedule.specs.Plans.{IsPossible};

use crate::plan::{Fault, Plan};
use aud_base::VERSION;
use clap::builder::ValueParser;
use clap::error::ErrorKind;
use clap::{Arg, ArgMatches, Command, Error, value_parser};
use std::alloc::{AllocError, Global};

const ABOUT: &str = "Writes the bundle of a simulated cluster";

const LINES: &str = "\
The bundle goes to standard output, and `audit` reads it. What happens in the cluster is chosen
by the seed: the same words give the same bytes on every machine. Without a fault every session
receives what is due to it.

The faults, each of which comes once; it takes 32 acts or more, and lag 2 nodes or more:
  drop              an event is not sent
  double            an event is sent twice
  hold              an event is sent after the one that follows it
  alter             an event is sent with another word
  garble            an event is sent as no packet
  lose-attachment   an attachment of an event is not sent
  lag               a session is taken back by a node that has not come as far as its client has
  unknown-offset    a session is asked for with an offset that no entry has
  cut-before-reply  a session is taken back, and the connection breaks before its client is told
  no-reply          a session is opened, and its client is not told
  other-sid         a session is opened, and its client is told another sid
  no-open           a node does not record that it opened a session
  no-join           a node does not record that a session joined a room
  no-break          a node does not record that a connection broke
  take-twice        a node records twice that it took an entry";

const FAULTS: [&str; 15] = [
    "drop",
    "double",
    "hold",
    "alter",
    "garble",
    "lose-attachment",
    "lag",
    "unknown-offset",
    "cut-before-reply",
    "no-reply",
    "other-sid",
    "no-open",
    "no-join",
    "no-break",
    "take-twice",
];

const NO_ROOM: &str = "a fault takes 32 acts or more, and the fault lag 2 nodes or more";

/// An option that takes a value, which is this where it is left out.
fn option<'a>(
    alloc: Global,
    name: &'a str,
    value: &'a str,
    help: &'a str,
    parser: ValueParser<'a>,
    default: &'a str,
) -> Arg<'a> {
    Arg::new(alloc, name)
        .long(name)
        .value_name(value)
        .help(help)
        .value_parser(parser)
        .default_value(default)
}

/// The command and its options.
fn simulate<'a>(alloc: Global) -> Result<Command<'a>, AllocError> {
    let nodes = value_parser!(u8).range(1..65);
    let clients = value_parser!(u16).range(1..4097);
    let acts = value_parser!(u32).range(0..1_000_001);
    let fault = Arg::new(alloc, "fault")
        .long("fault")
        .value_name("FAULT")
        .help("What goes wrong once")
        .value_parser(ValueParser::Names(&FAULTS));
    let of_nodes = "Nodes of the cluster, 1 to 64";
    let of_acts = "Acts of the schedule, at most 1000000";
    let of_seed = "What the schedule is chosen by";
    Command::new(alloc, "simulate")
        .about(ABOUT)
        .after_help(LINES)
        .arg(option(alloc, "nodes", "N", of_nodes, nodes, "2"))?
        .arg(option(alloc, "clients", "C", "Clients, 1 to 4096", clients, "4"))?
        .arg(option(alloc, "acts", "K", of_acts, acts, "200"))?
        .arg(option(alloc, "seed", "S", of_seed, value_parser!(u64), "1"))?
        .arg(fault)
}

/// The parser of the arguments.
fn command<'a>(alloc: Global) -> Result<Command<'a>, AllocError> {
    let simulate = simulate(alloc)?;
    Command::new(alloc, "sioaudit")
        .version(VERSION)
        .propagate_version(true)
        .no_binary_name(true)
        .subcommand_required(true)
        .subcommand(simulate)?
        .bin_name("sioaudit")
}

/// The fault of this name.
fn fault_named(name: &str) -> Option<Fault> {
    match name {
        "drop" => Some(Fault::Drop),
        "double" => Some(Fault::Double),
        "hold" => Some(Fault::Hold),
        "alter" => Some(Fault::Alter),
        "garble" => Some(Fault::Garble),
        "lose-attachment" => Some(Fault::LoseAttachment),
        "lag" => Some(Fault::Lag),
        "unknown-offset" => Some(Fault::UnknownOffset),
        "cut-before-reply" => Some(Fault::CutBeforeReply),
        "no-reply" => Some(Fault::NoReply),
        "other-sid" => Some(Fault::OtherSid),
        "no-open" => Some(Fault::NoOpen),
        "no-join" => Some(Fault::NoJoin),
        "no-break" => Some(Fault::NoBreak),
        "take-twice" => Some(Fault::TakeTwice),
        _ => None,
    }
}

/// The plan of these values, where a schedule can be made for it.
fn plan_of(matches: &ArgMatches<'_>) -> Option<Plan>
    ensures { IfSome result IsPossible }
{
    let plan = Plan {
        nodes: matches.get_one("nodes")?,
        clients: matches.get_one("clients")?,
        acts: matches.get_one("acts")?,
        seed: matches.get_one("seed")?,
        fault: fault_named(matches.get_str("fault").unwrap_or("")),
    };
    if plan.is_possible() { Some(plan) } else { None }
}

/// What the arguments after the program's name ask for, of which the first is `simulate`: the plan keeps to the limits
/// of a cluster, and has room for its fault. The error has the text to print: help that was asked for, or why the
/// arguments are refused; where memory ran out its kind is `OutOfMemory`.
pub fn plan_asked<'a>(alloc: Global, words: &'a [&'a str]) -> Result<Plan, Error>
    ensures { IfOk result IsPossible }
{
    let matches = command(alloc)?.try_get_matches_from(words)?;
    let plan = match matches.subcommand_matches("simulate") {
        Some(asked) => plan_of(asked),
        None => None,
    };
    match plan {
        Some(plan) => Ok(plan),
        None => Err(command(alloc)?.error(ErrorKind::ValueValidation, NO_ROOM)?),
    }
}

//! What is to be done.
use aud_base::Texts;

/// What the output is to say.
#[derive(Clone, Copy, Debug, PartialEq, Eq, Drop)]
pub enum Mode {
    /// A verdict for each session.
    Audit,
    /// The certificate of each session that is answered yes.
    Prove,
    /// An answer on each certificate of the input.
    Verify,
    /// The steps of a run of the logs, or the records that block every run.
    Order,
    /// The bundle in version 2 of the format.
    Upgrade,
}

/// What the arguments of the command line ask for.
#[derive(Clone, Copy, Debug, PartialEq, Eq, Drop)]
pub struct Options {
    pub mode: Mode,
    /// How many workers an audit has, each in a thread of its own: 1 to 64. The output is the same for every number.
    pub workers: u8,
    /// Whether an audit also answers no where something that was due never came, as `TAIL`. No other mode looks at it.
    pub whole: bool,
}

/// The options that stand after a mode's name; each stands at most once.
#[derive(Clone, Copy, Drop)]
pub struct ModeOptions {
    /// The number of `--workers`, where it stands there.
    pub workers: Option<u8>,
    /// Whether `--whole` stands there.
    pub whole: bool,
    /// Whether `--quiet` stands there.
    pub quiet: bool,
}

/// What the bundle is read from.
#[derive(Drop)]
pub struct InputFiles {
    /// The names of the files that are read one after the other, `-` for standard input. Where there is none, standard
    /// input is read.
    pub names: Texts,
    /// Whether nothing is told of how much of a long input was read, nor that it is read from a terminal.
    pub quiet: bool,
}

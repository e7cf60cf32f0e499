//! What the arguments ask for.
use crate::fail_on::FailOn;
use crate::only::Only;
use crate::output_form::OutputForm;
use aud_base::{Listed, Text, Texts};

/// A record that is asked for by its number.
#[derive(Drop)]
pub struct NamedRecord {
    /// The name of its tap.
    pub tap: Text,
    /// Its number, which counts from 0 after the tap's header.
    pub number: u64,
}

/// What is to be explained, and how.
#[derive(Drop)]
pub struct ExplainOptions {
    /// The sessions that are shown, also those that are answered yes, in the order of the arguments. Where there is
    /// none, those that have something to explain.
    pub pids: Texts,
    /// Which of these are shown; all where it is `None`.
    pub only: Option<Only>,
    pub form: OutputForm,
    pub fail_on: FailOn,
    /// Whether a session is also answered no where something that was due never came, as `TAIL`.
    pub whole: bool,
    /// Whether nothing is told of how much of a long input was read.
    pub quiet: bool,
    /// How many workers there are, each in a thread of its own: 1 to 64. The output is the same for every number.
    pub workers: u8,
    /// The name of the file that says from which lines of a recording those of the files come, which are a part of it;
    /// `-` for standard input. Lines are those of the files where there is none.
    pub lines: Option<Text>,
    /// The records that are shown, in the order of the arguments. Where there is one, no session is explained, and of
    /// what else is asked for only the form, the lines and the files count.
    pub records: Listed<NamedRecord>,
    /// The names of the files that are read one after the other, `-` for standard input. Where there is none, standard
    /// input is read.
    pub files: Texts,
}

/// The options that have no place in a list; each stands at most once.
#[derive(Clone, Copy, Drop)]
pub struct Choices {
    pub only: Option<Only>,
    pub form: Option<OutputForm>,
    pub fail_on: Option<FailOn>,
    pub whole: bool,
    pub quiet: bool,
    pub workers: Option<u8>,
    /// Whether `--lines` is one of them.
    pub lines: bool,
    /// Whether `--pid` is, any number of times.
    pub pids: bool,
    /// Whether `--record` is, any number of times.
    pub records: bool,
}

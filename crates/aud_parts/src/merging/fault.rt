//! What is wrong with the reports on the parts.
use thiserror::Error;

/// What is wrong with a report, in words that follow its name.
#[derive(Clone, Copy, Debug, Drop, Error)]
pub enum ReportFault {
    /// It is the line that stands for an input of which a line is refused.
    #[error("is no report: a line of its input was refused")]
    Refused,
    /// It isn't lines of sessions and, last, a line with their counts.
    #[error("is no whole report: it is cut short, or something else")]
    NotWhole,
    /// Its sessions, in their order, are not those of one part.
    #[error("is the report on no part of this split")]
    OtherSplit,
    /// An earlier report is on the same part.
    #[error("is the second report on its part")]
    Doubled,
}

/// What keeps reports from being merged.
#[derive(Drop)]
pub enum MergeFault {
    /// This is wrong with the report of this number. Numbers count from 0, in the order in which reports are given.
    Report(usize, ReportFault),
    /// The part with this number has no report. Parts count from 0.
    Missing(usize),
}

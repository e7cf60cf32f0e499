//! How the output of `explain` is written.

/// How what is explained is written.
#[derive(Clone, Copy, Debug, PartialEq, Eq, Drop)]
pub enum OutputForm {
    /// For a reader: lines.
    Text,
    /// For a program: JSON, a line a session and one for the summary.
    Json,
    /// For a browser: a page that holds that JSON, and shows it.
    Html,
}

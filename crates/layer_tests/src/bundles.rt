//! Worked examples of bundles: their lines, the record of a line, the line of a record, the taps of the lines,
//! certificates among them, and lines that are written, as a user of the crates below reads and writes them.

mod input;
mod lines;
mod names;
mod records;

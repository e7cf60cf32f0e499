//! What the index says of the records that are read.
ghost use Rattle.aud_input.specs.LineRuns.{NamesLines};
ghost use Rattle.aud_input.specs.RecordLines.{FirstKeptIsFirst, KeptAreLinesOfRecords, RecordsHaveTheirLines};
ghost use Rattle.aud_input.specs.Sources.{LinesAreThoseOfFiles};

/// The line that [`RecordLines::line_of`](crate::RecordLines::line_of) gives for a record is the line that the record
/// stands on: a law of the lines that [`read_files`](crate::read_files) gives.
///
/// For every input that is read as taps, and that has no more than 4,294,967,294 lines: for each record of each tap a
/// line is kept, the line begins with the tap's name, and the record is that of the line.
pub fn records_have_their_lines()
    ensures { RecordsHaveTheirLines }
{}

/// The line that [`RecordLines::line_of`](crate::RecordLines::line_of) gives is the one by its definition: of the lines
/// that begin with the tap's name, the one after that of the header and those of the records before. The first name
/// that a line begins with is that of tap 0, the next that of tap 1, and so on. Only the first 4,294,967,294 lines
/// count.
pub fn lines_of_records()
    ensures { KeptAreLinesOfRecords }
{}

/// The line that [`RecordLines::first_like`](crate::RecordLines::first_like) gives for a name is the first line that
/// begins with it: that of the tap's header, where the input is read as taps. Only the first 4,294,967,294 lines count.
pub fn first_lines_of_taps()
    ensures { FirstKeptIsFirst }
{}

/// The lines of files that are read as one input, by [`Sources`](crate::Sources), are the lines of the first file, and
/// then those of the next, up to the last file's.
pub fn lines_of_files()
    ensures { LinesAreThoseOfFiles }
{}

/// What [`RecordLines::named`](crate::RecordLines::named) gives for a record of a part is the line of the input that the
/// line of that record comes from. It is known where that of each line of the record's tap is.
pub fn lines_are_named()
    ensures { NamesLines }
{}

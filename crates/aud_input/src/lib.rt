//! The input of a mode: several files as one, the taps of its bundle, its certificates where it has some, and the line
//! that each record stands on.
//!
//! Begin at [`InputReader`], which gives taps and certificates:
//!
//! ```
//! use aud_input::{InputReader, Layout};
//! use std::hash::RandomState;
//!
//! let keys = RandomState::new(&rt)?;
//! let mut reader = InputReader::new(alloc, keys, Layout::BundleAndCertificates);
//! reader.feed(&rt, 4, b"c1 {\"k\":\"tap\",\"v\":1,\"of\":\"cli")?;
//! reader.feed(&rt, 4, b"ent\"}\n{}\n")?;
//! let input = reader.finish(&rt, 4)?;
//! assert_eq!(rt; input.taps.as_slice().len(), 1);
//! assert_eq!(rt; input.certificates.len(), 1);
//! ```
//!
//! [`read_input`] reads such an input to its end, from whatever gives its bytes.
//!
//! [`read_files`] reads the files of a bundle as one input, and tells which line of them each record stands on, or
//! which line of which file is refused, and what stands in it. A record that stands in the second of two files:
//!
//! ```
//! use aud_base::Watched;
//! use aud_input::read_files;
//! use std::hash::RandomState;
//!
//! let header: &[u8] = b"a {\"k\":\"tap\",\"v\":1,\"of\":\"node\"}";
//! let record: &[u8] = b"a {\"k\":\"start\",\"off\":null}\n";
//! let mut files = [Watched::new(header), Watched::new(record)];
//! let read = read_files(&rt, 1, alloc, RandomState::new(&rt)?, &mut files)?;
//! assert_eq!(rt; read.lines.line_of(0, 0), Some(2));
//! ```
//!
//! [`place_told`] says in which of several files a line stands. Where the files are a part of a recording, [`PartLines`]
//! says from which lines of which files those of the part come, and [`RecordLines::named`] names these.
#![tactic(auto)]

mod feeding;
mod index;
mod input;
mod input_file;
mod law;
mod line_laws;
mod line_runs;
mod name;
mod part_lines;
mod parts;
mod place;
mod reader;
mod reading;
mod refusal;
mod sources;
mod tap_lines;

pub use feeding::READ_LIMIT;
pub use input::{Input, Layout};
pub use input_file::{InputFile, InputFiles, place_told};
pub use law::input_in_any_pieces;
pub use line_laws::{
    first_lines_of_taps, lines_are_named, lines_of_files, lines_of_records,
    records_have_their_lines,
};
pub use line_runs::{LineRun, LineRuns};
pub use name::{first_bytes, name_of};
pub use part_lines::PartLines;
pub use place::{FileLine, file_line};
pub use reader::InputReader;
pub use reading::{ReadingFault, Recorded, Size, read_files, read_input};
pub use refusal::Refusal;
pub use sources::Sources;
pub use tap_lines::RecordLines;

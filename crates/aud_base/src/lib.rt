//! What the other crates share: texts and lists, also long ones in pages, that contracts see as plain lists; texts that
//! are kept once; the places of texts, and guesses at places; reading in steps; work on several threads; streams whose
//! calls are counted; lemmas on lists.
//!
//! Begin at [`Text`] and [`Listed`].
//!
//! ```
//! use aud_base::{Text, Texts};
//!
//! let mut rooms = Vec::new(alloc);
//! rooms.push(Text::new(alloc, "r")?)?;
//! let rooms = Texts::new(rooms);
//! assert!(rt; rooms.as_slice().first().is_some_and(|room| room.as_str() == "r"));
//! ```
//!
//! Work that is shared out among threads is [`try_map`]:
//!
//! ```
//! use aud_base::try_map;
//!
//! let words = ["a", "bc"];
//! let lengths = try_map(&rt, alloc, 4, &words, |word| Ok(word.len()))?;
//! assert_eq!(rt; lengths.as_slice(), &[1, 2]);
//! ```
//!
//! [`Watched`] counts the calls of a reader or a writer and keeps whether one failed; [`write_out`] goes through it,
//! and tries nothing again:
//!
//! ```
//! use aud_base::{Watched, write_out};
//!
//! let mut input = Watched::new(&b"sessions=0"[..]);
//! let mut piece = [0u8; 16];
//! let n = input.read(&mut piece)?;
//! assert_eq!(rt; input.calls(), 1);
//! let mut output = Watched::new(Vec::new(alloc));
//! write_out(&mut output, &piece[..n])?;
//! assert_eq!(rt; output.into_inner().as_slice(), b"sessions=0");
//! ```
#![tactic(auto)]

mod hints;
mod listed;
mod mixed;
mod paged;
mod parallel;
mod places;
mod pool;
mod run_fault;
mod short_text;
mod streams;
mod text;
mod version;
mod watched;

pub use hints::Hints;
pub use listed::{Blobs, Bytes, Listed, Texts};
pub use mixed::{mixed_ending, mixed_name};
pub use paged::Paged;
pub use parallel::{make_room, numbers_to, try_map};
pub use places::Places;
pub use pool::TextPool;
pub use run_fault::RunFault;
pub use streams::write_out;
pub use text::Text;
pub use version::VERSION;
pub use watched::Watched;

//! What clients sent and received: the packets of their taps, the stays of their connections, and the frames in them.
//!
//! Begin at [`Recording`], which reads all taps of a bundle once; [`read_transcript`] goes through a tap's records.
//!
//! With the `taps` of `examples/bundle_a.jsonl`:
//!
//! ```
//! use aud_client::Recording;
//! use std::hash::RandomState;
//!
//! let keys = RandomState::new(&rt)?;
//! let recording = Recording::read(&rt, alloc, keys, 4, taps)?;
//! assert_eq!(rt; recording.naming("P"), [2].as_slice()); // the place of `c1`
//! let client = recording.client(2).ok_or("no client")?;
//! let stay = client.transcript().stays.first().ok_or("no stay")?;
//! assert!(rt; stay.names("P"));
//! let frame = stay.frames.first().ok_or("no frame")?;
//! assert_eq!(rt; frame.position, 1);
//! assert_eq!(rt; frame.text(), r#"2["hi","1-0"]"#);
//! assert!(rt; !stay.altered); // its frames are their entries
//! let places = client.transcript().places.first().ok_or("no stay")?;
//! assert_eq!(rt; places.reply, Some(1)); // its records are `conn`, the reply and the event
//! assert_eq!(rt; places.frames.as_slice(), [2].as_slice());
//! ```
#![tactic(auto)]

mod ahead;
mod asked;
mod by_session;
mod client_tap;
mod clients;
mod connection;
mod frame;
mod indexed_transcript;
mod laws;
mod part;
mod payload;
mod recording;
mod replies;
mod stay;
mod stay_places;
mod stays;
mod tap;
mod told;
mod transcript;

pub use asked::Asked;
pub use client_tap::{ClientTap, Connection};
pub use connection::{Placed, TapPacket};
pub use frame::{Frame, is_entry};
pub use indexed_transcript::IndexedTranscript;
pub use laws::{
    placed_stays_are_stays, places_are_of_stays, received_by_stays, stays_tell_altered,
};
pub use recording::Recording;
pub use replies::{Reply, reply_of};
pub use stay::Stay;
pub use stay_places::StayPlaces;
pub use tap::read_transcript;
pub use transcript::Transcript;

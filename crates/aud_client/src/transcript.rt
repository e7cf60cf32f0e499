//! What a client's tap tells.
use crate::stay::Stay;
use crate::stay_places::StayPlaces;
use std::marker::Model;

/// What a client's tap tells.
#[derive(Drop)]
pub struct Transcript<'a> {
    /// The number of the first record that doesn't decode; records count from 0, the header not counted.
    pub bad: Option<usize>,
    /// Whether a stay without a reply, or whose reply names nobody, has frames.
    pub orphan: bool,
    /// The stays, connection after connection, in each in the order of their first packets.
    pub stays: Vec<Stay<'a>>,
    /// Of each stay the records at which its packets stand.
    pub places: Vec<StayPlaces>,
}

impl<'a> Model for Transcript<'a> {
    ghost use Rattle.aud_client.specs.Received.{TranscriptSeen};

    ghost Value = { TranscriptSeen };

    ghost view = { λ r. record { bad = r.bad; orphan = r.orphan; stays = r.stays.items; places = r.places.items } };
}

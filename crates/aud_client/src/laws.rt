//! Laws of stays, over the definitions alone.
ghost use Rattle.std.specs.Prelude.{◌≡◌, List, flat_map, map, true};
ghost use Rattle.std.specs.List.{All, AllZip};
ghost use Rattle.aud_tap.specs.declared.records.StreamRec.{StreamRec};
ghost use Rattle.aud_tap.specs.declared.records.ClientRec.{ClientRec};
ghost use Rattle.aud_node.specs.Stream.{Text};
ghost use Rattle.aud_client.specs.TapPackets.{Connection, tap_packets};
ghost use Rattle.aud_client.specs.Stays.{stays};
ghost use Rattle.aud_client.specs.StaySeen.{TellsAltered, stay_of};
ghost use Rattle.aud_client.specs.PlacedStays.{PlacedPacket, forgotten, placed_stays};
ghost use Rattle.aud_client.specs.AreRecordsOf.{AreRecordsOf, placed_packets};
ghost use Rattle.aud_client.specs.Received.{transcript_of, tap_stays, received_list, stays_naming, are_in_namespace, frames_by_stay};

/// Where all stays that name the session are in one namespace, what the session received, in the order of the tap, is
/// the frames of those stays, stay after stay.
pub fn received_by_stays()
    ensures { (stream : List StreamRec) (recs : List ClientRec) (pid nsp : Text)
        → are_in_namespace nsp (stays_naming pid (transcript_of stream recs).stays) ≡ true
        → received_list stream recs pid ≡ frames_by_stay pid (transcript_of stream recs).stays }
{}

/// The stays of packets at their records are, without the records, the stays of the packets; and what a tap tells of
/// stays is what they tell.
pub fn placed_stays_are_stays()
    ensures stays { (placed : List PlacedPacket)
        → map forgotten (placed_stays placed) ≡ stays (forgotten placed) }
    ensures told { (stream : List StreamRec) (recs : List ClientRec)
        → flat_map (λ (connection : Connection). map
        (λ stay. stay_of stream connection.c (forgotten stay)) (placed_stays connection.packets))
        (tap_packets recs).connections ≡ tap_stays stream recs }
{}

/// The records that a transcript has are those of its stays, one after the other.
pub fn places_are_of_stays()
    ensures { (stream : List StreamRec) (recs : List ClientRec)
        → AllZip (AreRecordsOf stream (placed_packets recs)) (transcript_of stream recs).places
        (transcript_of stream recs).stays }
{}

/// What a tap tells of each of its stays, and so of each that names a session, is true: whether one of its frames isn't
/// its entry.
pub fn stays_tell_altered()
    ensures all { (stream : List StreamRec) (recs : List ClientRec)
        → All (TellsAltered stream) (tap_stays stream recs) }
    ensures naming { (stream : List StreamRec) (recs : List ClientRec) (pid : Text)
        → All (TellsAltered stream) (stays_naming pid (transcript_of stream recs).stays) }
{}

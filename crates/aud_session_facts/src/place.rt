//! Places of records in the nodes' logs.
ghost use Rattle.std.specs.Prelude.{◌≡◌};
ghost use Rattle.std.specs.Option.{option_copied};
ghost use Rattle.aud_session_facts.specs.Places.{record_at};

use aud_node::Logs;
use aud_rooms::TurnPlace;
use aud_tap::NodeRec;

/// Where a node's record stands: the place of the tap, from 0 in the order of the headers, and the record's number in
/// it, from 0 after the header.
#[derive(Clone, Copy, Debug, PartialEq, Eq, Drop)]
pub struct RecordPlace {
    pub node: usize,
    pub number: usize,
}

/// The record at this place, borrowed; none where there is none.
pub(crate) fn record_at<'a>(logs: &Logs<'a>, place: RecordPlace) -> Option<&'a NodeRec>
    ensures { option_copied result ≡ record_at logs.now place }
{
    match logs.node(place.node) {
        Some(log) => log.recs().get(place.number),
        None => None,
    }
}

/// The place of a turn's first record.
pub(crate) fn first_of(turn: &TurnPlace) -> RecordPlace
    ensures { result ≡ record { node = turn.now.node; number = turn.now.from } }
{
    RecordPlace {
        node: turn.node,
        number: turn.from,
    }
}

//! What the records of the stream's tap say.
ghost use Rattle.std.specs.Prelude.{◌≡◌, ◌<◌, ◌-◌, Some, slice_get};
ghost use Rattle.std.specs.Option.{option_copied, option_map};
ghost use Rattle.aud_node.specs.Cluster.{log_at};
ghost use Rattle.aud_rows.specs.Seen.{says_seen};
ghost use Rattle.aud_rows.specs.Rows.{stream_recs};
ghost use Rattle.aud_rows.specs.StreamSays.{stream_says_at};

use crate::row::Says;
use aud_node::Logs;
use aud_tap::{Records, StreamRec, Tap};

/// What the entry at this position of the stream's tap at this place says.
pub fn entry_says<'a>(logs: &Logs<'a>, place: usize, position: u64) -> Option<Says<'a>>
    requires { 0 < position }
    ensures { option_map says_seen result
        ≡ stream_says_at (stream_recs (log_at logs.now place)) (position - 1) }
{
    let rec = entry_in(logs.taps().get(place)?, position as usize - 1)?;
    Some(Says::Entry {
        position,
        off: rec.offset().as_str(),
    })
}

/// The record with this number, if the tap is a stream's.
fn entry_in(tap: &Tap, number: usize) -> Option<&StreamRec>
    ensures { option_copied result ≡ slice_get (stream_recs (Some tap.now.records)) number }
{
    match &tap.records {
        Records::Stream(recs) => recs.get(number),
        Records::Node(_) => None,
        Records::Client(_) => None,
    }
}

//! Records of the nodes' logs, and the stays of clients' taps, by number, and those whose reply names a session.
ghost use Rattle.std.specs.Prelude.{◌≡◌, slice_get};
ghost use Rattle.std.specs.Option.{option_copied};
ghost use Rattle.aud_node.specs.Cluster.{node_log};
ghost use Rattle.aud_rows.specs.StayRows.{stays_at};
ghost use Rattle.aud_session_facts.specs.ShowsDifference.{AreNumbersOf};

use aud_client::{Recording, Stay};
use aud_node::Logs;
use aud_tap::NodeRec;

/// The record with this number of the node at this place.
pub(crate) fn record_at<'a>(logs: &Logs<'a>, node: usize, number: usize) -> Option<&'a NodeRec>
    ensures { option_copied result ≡ slice_get (node_log logs.now node) number }
{
    match logs.node(node) {
        Some(log) => log.recs().get(number),
        None => None,
    }
}

/// The stay with this number of the client's tap at this place, borrowed; none where there is none. Stays count from 0.
pub(crate) fn stay_at<'r, 'a>(
    recording: &'r Recording<'a>,
    place: usize,
    number: usize,
) -> Option<&'r Stay<'a>>
    ensures { option_copied result ≡ slice_get (stays_at recording.now place) number }
{
    let transcript = recording.client(place)?.transcript();
    transcript.stays.get(number)
}

/// The numbers, ascending, of the stays of the client's tap at this place whose reply names the session, borrowed; none
/// where no client's tap is there. Stays count from 0.
#[tactic(auto, using(crate::proofs::Told::told_some, crate::proofs::Told::told_none))]
pub fn numbers_naming<'r>(recording: &'r Recording<'_>, place: usize, pid: &str) -> &'r [usize]
    ensures { AreNumbersOf recording.now pid.now place result.now }
{
    match recording.client(place) {
        Some(client) => client.numbers_naming(pid),
        None => &[],
    }
}

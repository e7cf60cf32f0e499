//! The session of a certificate.
ghost use Rattle.std.specs.Prelude.{◌≡◌, slice_get};
ghost use Rattle.std.specs.List.{All};
ghost use Rattle.std.specs.Option.{option_copied};
ghost use Rattle.aud_rooms.specs.Turns.{slice_of};
ghost use Rattle.aud_cert.specs.Certificate.{IsOver, IsTurnOver};
ghost use Rattle.aud_check.specs.Shown.{first_record, who_of};

use crate::place::records_at;
use aud_cert::{Certificate, Turn, turn_place};
use aud_node::Logs;
use aud_rooms::TurnPlace;
use aud_tap::NodeRec;
use std::marker::Model;

/// The session that a certificate shows, as its `open` in the logs names it; borrowed.
#[derive(Drop)]
pub(crate) struct ShownSession<'s, 'a> {
    pub(crate) pid: &'s str,
    pub(crate) sid: &'a str,
    pub(crate) nsp: &'a str,
}

impl<'s, 'a> Model for ShownSession<'s, 'a> {
    ghost use Rattle.aud_rooms.specs.Turns.{Who};

    ghost Value = { Who };

    ghost view = { λ s. record { pid = s.pid.now; sid = s.sid.now; nsp = s.nsp.now } };
}

/// The session that the certificate shows; without sid and namespace where the first turn's first record is no `open`.
pub(crate) fn session_of<'s, 'a>(logs: &Logs<'a>, cert: &'s Certificate<'_>) -> ShownSession<'s, 'a>
    requires { IsOver logs.now cert.now }
    ensures { result ≡ who_of cert.now }
{
    match first_record(logs, cert.turns.as_slice()) {
        Some(NodeRec::Opened { sid, nsp, .. }) => ShownSession {
            pid: cert.pid.as_str(),
            sid: sid.as_str(),
            nsp: nsp.as_str(),
        },
        _ => ShownSession {
            pid: cert.pid.as_str(),
            sid: "",
            nsp: "",
        },
    }
}

/// The first record of the first turn, borrowed from the logs.
fn first_record<'a>(logs: &Logs<'a>, turns: &[Turn<'_>]) -> Option<&'a NodeRec>
    requires { All (IsTurnOver logs.now) turns.now }
    ensures { option_copied result ≡ first_record turns.now }
{
    let Some(turn) = turns.first() else {
        return None;
    };
    first_at(logs, &turn_place(logs, turn))
}

/// The first of the records at this place, borrowed from the logs.
fn first_at<'a>(logs: &Logs<'a>, place: &TurnPlace) -> Option<&'a NodeRec>
    ensures { option_copied result ≡ slice_get (slice_of logs.now place.now).recs 0 }
{
    match records_at(logs, place.node) {
        Some(recs) => recs.between(place.from, place.to).get(0),
        None => None,
    }
}

//! What the records of a client's tap say that carry no packet.
ghost use Rattle.std.specs.Prelude.{◌≡◌};
ghost use Rattle.std.specs.Option.{option_copied, option_map};
ghost use Rattle.aud_rows.specs.EndRows.{bad_said, is_lost, lost_past};
ghost use Rattle.aud_rows.specs.Marks.{marks_of, open_before};
ghost use Rattle.aud_rows.specs.Private.SaidAt.{said_seen};

use crate::client::SaidAt;
use crate::client_places::{first_past, last_before};
use crate::row::Says;
use aud_tap::ClientRec;

/// The first mark past the record with this number, if it loses a connection.
pub fn lost_past<'r>(recs: &[ClientRec], marks: &[usize], number: usize) -> Option<SaidAt<'r>>
    requires { marks.now ≡ marks_of recs.now }
    ensures { option_map said_seen result ≡ lost_past recs.now number }
{
    let mark = first_past(number, marks)?;
    if !is_lost(recs.get(mark)) {
        return None;
    }
    let conn = open_before(recs, marks, mark)?;
    Some(SaidAt {
        number: mark,
        says: Says::Lost { conn },
    })
}

/// The record with this number, which is no packet.
pub fn bad_said<'r>(recs: &[ClientRec], marks: &[usize], number: usize) -> Option<SaidAt<'r>>
    requires { marks.now ≡ marks_of recs.now }
    ensures { option_map said_seen result ≡ bad_said recs.now number }
{
    let conn = open_before(recs, marks, number)?;
    Some(SaidAt {
        number,
        says: Says::NoPacket { conn },
    })
}

/// The number of the connection that goes on in front of the record with this number.
pub fn open_before(recs: &[ClientRec], marks: &[usize], number: usize) -> Option<u64>
    requires { marks.now ≡ marks_of recs.now }
    ensures { result ≡ open_before recs.now number }
{
    match recs.get(last_before(number, marks)?) {
        Some(ClientRec::Conn { c }) => Some(*c),
        _ => None,
    }
}

fn is_lost(rec: Option<&ClientRec>) -> bool
    ensures { result ≡ is_lost (option_copied rec.entry) }
{
    match rec {
        Some(ClientRec::Lost) => true,
        _ => false,
    }
}

//! A session whose fault is shown.
ghost use Rattle.std.specs.Prelude.{◌≡◌, IfSome, option_map};
ghost use Rattle.aud_rows.specs.Seen.{row_seen};
ghost use Rattle.aud_rows.specs.ClientPlaces.{AreOf};
ghost use Rattle.aud_rows.specs.TrueRow.{IsTrueRow};
ghost use Rattle.aud_session_facts.specs.SessionRows.{ask_of_stay, asked_row, entry_row, frame_of, got_row, reached_row, reply_of_stay, session_of};

use crate::reach::first_reach;
use crate::shown::frame_place::{FramePlace, frame_at};
use aud_cert::Turn;
use aud_client::{IndexedTranscript, Stay};
use aud_rows::{ClientPlaces, Role, Row, Sheet};

/// A session, the sheet of its recording, and where its client is found. All is borrowed; rows are borrowed from the
/// sheet alone.
#[derive(Clone, Copy, Drop)]
pub struct ShownSession<'s, 'r, 'a> {
    pub sheet: Sheet<'r, 'a>,
    /// Its turns, from turn 0 on, as a certificate has them.
    pub turns: &'s [Turn<'a>],
    /// The client's tap that has it.
    pub tap: &'s ClientPlaces,
    /// The numbers of that tap's stays whose reply names the session, ascending.
    pub numbers: &'s [usize],
}

/// Frames count from 0 over the stays whose reply names the session, in the order of the client's tap; positions of the
/// stream from 1.
impl<'s, 'r, 'a> ShownSession<'s, 'r, 'a> {
    /// The row of a frame.
    pub(crate) fn got_row(&self, frame: usize, role: Role) -> Option<Row<'r>>
        requires { AreOf self.now.sheet.recording.now self.now.tap.now }
        ensures row { option_map row_seen result ≡ got_row (session_of self.now) frame role }
        ensures truth { IfSome result
            (IsTrueRow self.now.sheet.recording.now self.now.sheet.lines.now) }
    {
        let at = self.frame_at(frame)?;
        self.sheet.frame_row(self.tap, at.stay, at.frame, role)
    }

    /// The row of what was asked in the stay that the frame stands in.
    pub(crate) fn asked_row(&self, frame: usize) -> Option<Row<'r>>
        requires { AreOf self.now.sheet.recording.now self.now.tap.now }
        ensures row { option_map row_seen result ≡ asked_row (session_of self.now) frame }
        ensures truth { IfSome result
            (IsTrueRow self.now.sheet.recording.now self.now.sheet.lines.now) }
    {
        let at = self.frame_at(frame)?;
        self.sheet.ask_row(self.tap, at.stay, Role::Ask)
    }

    /// The row of the record at which the session first reached the position.
    pub(crate) fn reached_row(&self, position: u64) -> Option<Row<'r>>
        ensures row { option_map row_seen result ≡ reached_row (session_of self.now) position }
        ensures truth { IfSome result
            (IsTrueRow self.now.sheet.recording.now self.now.sheet.lines.now) }
    {
        let reach = first_reach(self.sheet.recording.logs(), self.turns, position)?;
        self.sheet.node_row(reach.node, reach.number, Role::Reached)
    }

    /// The row of the entry at the position.
    pub(crate) fn entry_row(&self, position: u64) -> Option<Row<'r>>
        ensures row { option_map row_seen result ≡ entry_row (session_of self.now) position }
        ensures truth { IfSome result
            (IsTrueRow self.now.sheet.recording.now self.now.sheet.lines.now) }
    {
        self.sheet.stream_row(position, Role::Entry)
    }

    /// The row of what was asked in the stay with this number, from 0 among those of the session.
    pub(crate) fn ask_of_stay(&self, stay: usize, role: Role) -> Option<Row<'r>>
        requires { AreOf self.now.sheet.recording.now self.now.tap.now }
        ensures row { option_map row_seen result ≡ ask_of_stay (session_of self.now) stay role }
        ensures truth { IfSome result
            (IsTrueRow self.now.sheet.recording.now self.now.sheet.lines.now) }
    {
        let number = *self.numbers.get(stay)?;
        self.sheet.ask_row(self.tap, number, role)
    }

    /// The row of that stay's reply.
    pub(crate) fn reply_of_stay(&self, stay: usize, role: Role) -> Option<Row<'r>>
        requires { AreOf self.now.sheet.recording.now self.now.tap.now }
        ensures row { option_map row_seen result ≡ reply_of_stay (session_of self.now) stay role }
        ensures truth { IfSome result
            (IsTrueRow self.now.sheet.recording.now self.now.sheet.lines.now) }
    {
        let number = *self.numbers.get(stay)?;
        self.sheet.reply_row(self.tap, number, role)
    }

    /// Where the frame stands.
    fn frame_at(&self, frame: usize) -> Option<FramePlace>
        ensures { result ≡ frame_of (session_of self.now) frame }
    {
        let client = self.sheet.recording.client(self.tap.place)?;
        frame_at(stays_of(client), self.numbers, frame)
    }
}

/// The stays of a client's tap.
fn stays_of<'s, 'a>(client: &'s IndexedTranscript<'a>) -> &'s [Stay<'a>]
    ensures { result.now ≡ client.now.stays }
{
    client.transcript().stays.as_slice()
}

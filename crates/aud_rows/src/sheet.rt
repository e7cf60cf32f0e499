//! The rows of a recording's records.
ghost use Rattle.std.specs.Prelude.{◌≡◌, IfOk, IfSome, slice_get};
ghost use Rattle.std.specs.Option.{option_copied, option_map};
ghost use Rattle.aud_rows.specs.Seen.{row_seen, says_seen};
ghost use Rattle.aud_rows.specs.Rows.{node_row, row_of, said_row, stream_row};
ghost use Rattle.aud_rows.specs.StayRows.{ask_row, asked_at, first_row, frame_row, got_at, replied_at, reply_row, stays_at};
ghost use Rattle.aud_rows.specs.ClientPlaces.{AreOf, places_at};
ghost use Rattle.aud_rows.specs.EndRows.{bad_at, bad_row, lost_at, lost_row};
ghost use Rattle.aud_rows.specs.Lacking.{lacking_at, lacking_row};
ghost use Rattle.aud_rows.specs.TrueRow.{IsTrueRow};
ghost use Rattle.aud_rows.specs.Private.SaidAt.{said_seen};

use crate::client::{SaidAt, ask_said, frame_said, reply_said};
use crate::client_places::ClientPlaces;
use crate::ends::{bad_said, lost_past};
use crate::lacking::lacking_said;
use crate::node::{node_says_at, session_of};
use crate::row::{Role, Row, Says};
use crate::stream::entry_says;
use aud_client::{Recording, Stay, StayPlaces};
use aud_input::RecordLines;
use std::alloc::{AllocError, Global};

/// A recording with the lines of its records, both borrowed: what rows are made of. The lines are those of the input
/// from which the recording was read.
#[derive(Clone, Copy, Drop)]
pub struct Sheet<'r, 'a> {
    pub recording: &'r Recording<'a>,
    pub lines: &'r RecordLines,
}

/// Taps are named by their places, which count from 0 in the order of the headers; records by their numbers, from 0
/// after the header. No function gives a row where the record's line isn't known.
impl<'r, 'a> Sheet<'r, 'a> {
    /// The row of the record with this number of the node at this place; none where there is no such record.
    pub fn node_row(&self, place: usize, number: usize, role: Role) -> Option<Row<'r>>
        ensures row { option_map row_seen result
            ≡ node_row self.now.recording.now self.now.lines.now place number role }
        ensures truth { IfSome result (IsTrueRow self.now.recording.now self.now.lines.now) }
    {
        let says = node_says_at(self.recording.logs(), place, number)?;
        self.row_of(place, number, role, says)
    }

    /// The row of the entry at this position of the stream, which counts from 1; none where there is no such entry.
    pub fn stream_row(&self, position: u64, role: Role) -> Option<Row<'r>>
        ensures row { option_map row_seen result
            ≡ stream_row self.now.recording.now self.now.lines.now position role }
        ensures truth { IfSome result (IsTrueRow self.now.recording.now self.now.lines.now) }
    {
        if position == 0 {
            return None;
        }
        let logs = self.recording.logs();
        let place = logs.stream_place()?;
        let says = entry_says(logs, place, position)?;
        self.row_of(place, position as usize - 1, role, says)
    }

    /// The row of what the stay with this number asked: of the CONNECT that asked for a recovery, of the last one
    /// before the reply. Stays count from 0 in the tap, in the order in which the recording has them. None where the
    /// tap has no such stay, or the stay didn't ask.
    pub fn ask_row(&self, tap: &ClientPlaces, stay: usize, role: Role) -> Option<Row<'r>>
        requires { AreOf self.now.recording.now tap.now }
        ensures row { option_map row_seen result
            ≡ ask_row self.now.recording.now self.now.lines.now tap.now.place stay role }
        ensures truth { IfSome result (IsTrueRow self.now.recording.now self.now.lines.now) }
    {
        let said = self.asked(tap, stay)?;
        self.said_row(tap.place, role, said)
    }

    /// The row of the server's answer to that stay; none where the tap has no such stay, or no answer came.
    pub fn reply_row(&self, tap: &ClientPlaces, stay: usize, role: Role) -> Option<Row<'r>>
        requires { AreOf self.now.recording.now tap.now }
        ensures row { option_map row_seen result
            ≡ reply_row self.now.recording.now self.now.lines.now tap.now.place stay role }
        ensures truth { IfSome result (IsTrueRow self.now.recording.now self.now.lines.now) }
    {
        let said = self.replied(tap, stay)?;
        self.said_row(tap.place, role, said)
    }

    /// The row of a frame of that stay, of which the first has number 0; none where the tap has no such stay, or the
    /// stay no such frame. A frame with attachments stands at the record of the last of them.
    pub fn frame_row(
        &self,
        tap: &ClientPlaces,
        stay: usize,
        frame: usize,
        role: Role,
    ) -> Option<Row<'r>>
        requires { AreOf self.now.recording.now tap.now }
        ensures row { option_map row_seen result
            ≡ frame_row self.now.recording.now self.now.lines.now tap.now.place stay frame role }
        ensures truth { IfSome result (IsTrueRow self.now.recording.now self.now.lines.now) }
    {
        let said = self.got(tap, stay, frame)?;
        self.said_row(tap.place, role, said)
    }

    /// The row of that stay to begin with: of what it asked, or else of the answer, or else of its first frame; none
    /// where the tap has no such stay, or the stay none of these.
    pub fn first_row(&self, tap: &ClientPlaces, stay: usize, role: Role) -> Option<Row<'r>>
        requires { AreOf self.now.recording.now tap.now }
        ensures row { option_map row_seen result
            ≡ first_row self.now.recording.now self.now.lines.now tap.now.place stay role }
        ensures truth { IfSome result (IsTrueRow self.now.recording.now self.now.lines.now) }
    {
        if let Some(row) = self.ask_row(tap, stay, role) {
            return Some(row);
        }
        if let Some(row) = self.reply_row(tap, stay, role) {
            return Some(row);
        }
        self.frame_row(tap, stay, 0, role)
    }

    /// The row of the `lost` that ends the connection of that stay; none where the tap has no such stay, or a `conn`
    /// comes first, or nothing more.
    pub fn lost_row(&self, tap: &ClientPlaces, stay: usize, role: Role) -> Option<Row<'r>>
        requires { AreOf self.now.recording.now tap.now }
        ensures row { option_map row_seen result
            ≡ lost_row self.now.recording.now self.now.lines.now tap.now.place stay role }
        ensures truth { IfSome result (IsTrueRow self.now.recording.now self.now.lines.now) }
    {
        let said = self.lost(tap, stay)?;
        self.said_row(tap.place, role, said)
    }

    /// The row of the tap's first record that is no packet; none where the tap has no such record.
    pub fn bad_row(&self, tap: &ClientPlaces, role: Role) -> Option<Row<'r>>
        requires { AreOf self.now.recording.now tap.now }
        ensures row { option_map row_seen result
            ≡ bad_row self.now.recording.now self.now.lines.now tap.now.place role }
        ensures truth { IfSome result (IsTrueRow self.now.recording.now self.now.lines.now) }
    {
        let said = self.bad(tap)?;
        self.said_row(tap.place, role, said)
    }

    /// The row of an earlier packet that the text of that record spoils, since it still lacks attachments; none where
    /// no text of it does.
    pub fn lacking_row(
        &self,
        alloc: Global,
        tap: &ClientPlaces,
        role: Role,
    ) -> Result<Option<Row<'r>>, AllocError>
        requires { AreOf self.now.recording.now tap.now }
        ensures row { IfOk result (λ row. option_map row_seen row
            ≡ lacking_row self.now.recording.now self.now.lines.now tap.now.place role) }
        ensures truth { IfOk result (λ row. IfSome row
            (IsTrueRow self.now.recording.now self.now.lines.now)) }
    {
        let found = self.lacking(alloc, tap)?;
        match found {
            Some(said) => Ok(self.said_row(tap.place, role, said)),
            None => Ok(None),
        }
    }

    fn asked(&self, tap: &ClientPlaces, stay: usize) -> Option<SaidAt<'r>>
        ensures { option_map said_seen result ≡ asked_at self.now.recording.now tap.now.place stay }
    {
        ask_said(self.places(tap.place, stay)?, self.stay(tap.place, stay)?)
    }

    fn replied(&self, tap: &ClientPlaces, stay: usize) -> Option<SaidAt<'r>>
        ensures { option_map said_seen result
            ≡ replied_at self.now.recording.now tap.now.place stay }
    {
        reply_said(self.places(tap.place, stay)?, self.stay(tap.place, stay)?)
    }

    fn got(&self, tap: &ClientPlaces, stay: usize, frame: usize) -> Option<SaidAt<'r>>
        ensures { option_map said_seen result
            ≡ got_at self.now.recording.now tap.now.place stay frame }
    {
        let stream = self.recording.logs().stream();
        frame_said(
            stream,
            self.places(tap.place, stay)?,
            self.stay(tap.place, stay)?,
            frame,
        )
    }

    fn lost(&self, tap: &ClientPlaces, stay: usize) -> Option<SaidAt<'r>>
        requires { AreOf self.now.recording.now tap.now }
        ensures { option_map said_seen result ≡ lost_at self.now.recording.now tap.now.place stay }
    {
        let recs = self.recording.logs().client(tap.place)?;
        let places = self.places(tap.place, stay)?;
        lost_past(recs, tap.marks.as_slice(), places.last as usize)
    }

    fn bad(&self, tap: &ClientPlaces) -> Option<SaidAt<'r>>
        requires { AreOf self.now.recording.now tap.now }
        ensures { option_map said_seen result ≡ bad_at self.now.recording.now tap.now.place }
    {
        let recs = self.recording.logs().client(tap.place)?;
        let number = self.recording.client(tap.place)?.transcript().bad?;
        bad_said(recs, tap.marks.as_slice(), number)
    }

    fn lacking(&self, alloc: Global, tap: &ClientPlaces) -> Result<Option<SaidAt<'r>>, AllocError>
        requires { AreOf self.now.recording.now tap.now }
        ensures { IfOk result (λ said. option_map said_seen said
            ≡ lacking_at self.now.recording.now tap.now.place) }
    {
        let (Some(recs), Some(client)) = (
            self.recording.logs().client(tap.place),
            self.recording.client(tap.place),
        ) else {
            return Ok(None);
        };
        match client.transcript().bad {
            Some(number) => lacking_said(alloc, recs, tap.marks.as_slice(), number),
            None => Ok(None),
        }
    }

    /// The stay with this number of the client's tap at this place.
    fn stay(&self, place: usize, stay: usize) -> Option<&'r Stay<'a>>
        ensures { option_copied result ≡ slice_get (stays_at self.now.recording.now place) stay }
    {
        let transcript = self.recording.client(place)?.transcript();
        transcript.stays.get(stay)
    }

    /// The records of that stay.
    fn places(&self, place: usize, stay: usize) -> Option<&'r StayPlaces>
        ensures { option_copied result ≡ slice_get (places_at self.now.recording.now place) stay }
    {
        let transcript = self.recording.client(place)?.transcript();
        transcript.places.get(stay)
    }

    /// The row of a record that says this.
    fn said_row(&self, place: usize, role: Role, said: SaidAt<'r>) -> Option<Row<'r>>
        ensures { option_map row_seen result
            ≡ said_row self.now.recording.now self.now.lines.now place role (said_seen said.entry) }
    {
        self.row_of(place, said.number, role, said.says)
    }

    fn row_of(&self, place: usize, number: usize, role: Role, says: Says<'r>) -> Option<Row<'r>>
        ensures { option_map row_seen result
            ≡ row_of self.now.recording.now self.now.lines.now place number role
            (says_seen says.entry) }
    {
        let tap = self.recording.logs().taps().get(place)?;
        let line = self.lines.line_of(place, number)?;
        Some(Row {
            line,
            tap: tap.name.as_str(),
            session: session_of(&tap.records, number),
            says,
            role,
        })
    }
}

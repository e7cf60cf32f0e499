//! What shows that a reply names a session otherwise than its `open`.
ghost use Rattle.std.specs.Prelude.{◌≡◌, IfOk, IfSome, MatchOption, None, find, map};
ghost use Rattle.std.specs.Option.{option_copied};
ghost use Rattle.aud_node.specs.Stream.{Text};
ghost use Rattle.aud_session_facts.specs.declared.marks.TurnMark.{TurnMark};
ghost use Rattle.aud_session_facts.specs.Marks.{turn_marks};
ghost use Rattle.aud_rows.specs.Seen.{row_seen};
ghost use Rattle.aud_rows.specs.ClientPlaces.{AreOf};
ghost use Rattle.aud_rows.specs.StayRows.{stays_at};
ghost use Rattle.aud_session_facts.specs.RowLists.{AreTrueRows};
ghost use Rattle.aud_findings.specs.ShowsNames.{AreNamedAlike, IsOpenedAs, ShowsNames, first_otherwise, is_open_mark, is_some_otherwise};

use crate::record_at::{numbers_naming, record_at, stay_at};
use aud_client::{Recording, Stay};
use aud_node::Logs;
use aud_rows::{ClientPlaces, Role, Row, Sheet};
use aud_session_facts::{Mark, RecordPlace, TurnMark, push_row, turn_marks};
use aud_tap::NodeRec;
use std::alloc::{AllocError, Global};

/// How a node opened a session.
#[derive(Clone, Copy)]
struct OpenedAs<'a> {
    mark: TurnMark,
    sid: &'a str,
    nsp: &'a str,
}

/// The rows of the session's `open` and of the first reply in this tap that names the session and has another sid, or
/// is in another namespace; none where there is no such reply, or no node opened the session.
pub fn names_shown<'r>(
    alloc: Global,
    sheet: &Sheet<'r, '_>,
    tap: &ClientPlaces,
    pid: &str,
) -> Result<Option<Vec<Row<'r>>>, AllocError>
    requires { AreOf sheet.now.recording.now tap.now }
    ensures shown { IfOk result (λ found. MatchOption found
        (AreNamedAlike sheet.now.recording.now pid.now tap.now.place)
        (λ rows. ShowsNames sheet.now.recording.now sheet.now.lines.now pid.now tap.now.place
        (map row_seen rows.items))) }
    ensures truth { IfOk result (λ found. IfSome found
        (λ rows. AreTrueRows sheet.now.recording.now sheet.now.lines.now rows.items)) }
{
    let logs = sheet.recording.logs();
    let numbers = numbers_naming(sheet.recording, tap.place, pid);
    let marks = turn_marks(alloc, logs, pid)?;
    let Some(opened) = opened_as(logs, &marks, pid) else {
        return Ok(None);
    };
    match first_otherwise(sheet.recording, tap.place, numbers, pid, opened) {
        Some(stay) => {
            let mut rows = Vec::new(alloc);
            let RecordPlace { node, number } = opened.mark.place;
            push_row(&mut rows, sheet.node_row(node, number, Role::Earlier))?;
            push_row(&mut rows, sheet.reply_row(tap, stay, Role::Fault))?;
            Ok(Some(rows))
        }
        None => Ok(None),
    }
}

/// How the first of these records that opens a session opens this one.
fn opened_as<'a>(logs: &Logs<'a>, marks: &[TurnMark], pid: &str) -> Option<OpenedAs<'a>>
    requires { marks.now ≡ turn_marks logs.now pid.now }
    ensures { MatchOption result ((opening : TurnMark) (sid nsp : Text)
        → IsOpenedAs logs.now pid.now opening sid nsp
        → ⊥) (λ o. IsOpenedAs logs.now pid.now o.mark o.sid.now o.nsp.now) }
{
    let Some(mark) = first_open(marks) else {
        return None;
    };
    match record_at(logs, mark.place.node, mark.place.number) {
        Some(
            NodeRec::Opened {
                pid: other,
                sid,
                nsp,
            },
        ) if other.as_str() == pid => Some(OpenedAs {
            mark,
            sid: sid.as_str(),
            nsp: nsp.as_str(),
        }),
        _ => None,
    }
}

/// The first of these that is an `open`.
fn first_open(marks: &[TurnMark]) -> Option<TurnMark>
    ensures { result ≡ find is_open_mark marks.now }
{
    marks
        .iter()
        .copied()
        .find(|mark| matches!(mark.mark, Mark::Open))
}

/// The number of the first of these stays whose reply names the session otherwise than this.
fn first_otherwise(
    recording: &Recording<'_>,
    place: usize,
    numbers: &[usize],
    pid: &str,
    opened: OpenedAs<'_>,
) -> Option<usize>
    ensures { result ≡ first_otherwise
        (record { pid = pid.now; sid = opened.entry.sid.now; nsp = opened.entry.nsp.now })
        (stays_at recording.now place) numbers.now }
{
    for number in numbers {
        if is_named_otherwise(stay_at(recording, place, *number), pid, opened) {
            return Some(*number);
        }
    }
    None
}

/// Whether there is a stay, and its reply names the session otherwise than this.
fn is_named_otherwise(stay: Option<&Stay<'_>>, pid: &str, opened: OpenedAs<'_>) -> bool
    ensures { result ≡ is_some_otherwise
        (record { pid = pid.now; sid = opened.entry.sid.now; nsp = opened.entry.nsp.now })
        (option_copied stay.entry) }
{
    let Some(stay) = stay else {
        return false;
    };
    match stay.reply.as_ref() {
        Some(reply) => {
            let is_of_it = stay.nsp == opened.nsp && reply.sid.as_str() == opened.sid;
            stay.names(pid) && !is_of_it
        }
        None => false,
    }
}

//! What shows that no node opened a session, or that not exactly one client had it.
ghost use Rattle.std.specs.Prelude.{◌≡◌, ◌++◌, IfOk, IfSome, OnOk, length, map, option_map};
ghost use Rattle.aud_client.specs.Replies.{naming_places};
ghost use Rattle.aud_rooms.specs.Turns.{HasNoTurn};
ghost use Rattle.aud_rows.specs.Seen.{row_seen};
ghost use Rattle.aud_rows.specs.ClientPlaces.{AreOf};
ghost use Rattle.aud_rows.specs.TrueRow.{IsTrueRow};
ghost use Rattle.aud_session_facts.specs.RowLists.{AreTrueRows};
ghost use Rattle.aud_findings.specs.Prepared.{IsPreparedOf};
ghost use Rattle.aud_findings.specs.Unplaced.{IsFirstReply, ShowsClient, ShowsNoLog, replies_at};

use crate::chain::chain_records;
use crate::prepared::{Prepared, tap_at};
use crate::record_at::numbers_naming;
use aud_rows::{ClientPlaces, Role, Row, Sheet};
use aud_session_facts::{Misfit, node_rows, push_row, push_rows, turn_marks};
use std::alloc::{AllocError, Global};

/// The rows of the first reply that names the session, and of the records of nodes that begin or end turns of it. A tap
/// that wasn't prepared is read.
#[tactic(auto, using(crate::proofs::ChainRows::never_opened))]
pub fn no_log_rows<'r>(
    alloc: Global,
    sheet: &Sheet<'r, '_>,
    prepared: &Prepared,
    pid: &str,
) -> Result<Vec<Row<'r>>, AllocError>
    requires { IsPreparedOf sheet.now.recording.now prepared.now }
    ensures shown { HasNoTurn sheet.now.recording.now pid.now 0
        → IfOk result (λ rows. ShowsNoLog sheet.now.recording.now sheet.now.lines.now pid.now
        (map row_seen rows.items)) }
    ensures truth { IfOk result (λ rows.
        AreTrueRows sheet.now.recording.now sheet.now.lines.now rows.items) }
{
    let reply = first_reply(alloc, sheet, prepared, pid)?;
    let marks = turn_marks(alloc, sheet.recording.logs(), pid)?;
    let records = chain_records(alloc, Misfit::NeverOpened, &marks)?;
    let turns = node_rows(alloc, sheet, &records)?;
    let mut rows = Vec::new(alloc);
    push_row(&mut rows, reply)?;
    push_rows(&mut rows, &turns)?;
    Ok(rows)
}

/// The row of the first reply that names the session.
fn first_reply<'r>(
    alloc: Global,
    sheet: &Sheet<'r, '_>,
    prepared: &Prepared,
    pid: &str,
) -> Result<Option<Row<'r>>, AllocError>
    requires { IsPreparedOf sheet.now.recording.now prepared.now }
    ensures row { IfOk result (λ row.
        IsFirstReply sheet.now.recording.now sheet.now.lines.now pid.now
        (option_map row_seen row)) }
    ensures truth { IfOk result (λ row. IfSome row
        (IsTrueRow sheet.now.recording.now sheet.now.lines.now)) }
{
    let Some(place) = sheet.recording.naming(pid).first() else {
        return Ok(None);
    };
    let numbers = numbers_naming(sheet.recording, *place, pid);
    let Some(number) = numbers.first() else {
        return Ok(None);
    };
    let tap = tap_at(alloc, sheet.recording, prepared, *place)?;
    Ok(sheet.reply_row(tap.places(), *number, Role::Fault))
}

/// The rows of all replies that name the session, tap after tap. A tap that wasn't prepared is read.
pub fn client_rows<'r>(
    alloc: Global,
    sheet: &Sheet<'r, '_>,
    prepared: &Prepared,
    pid: &str,
) -> Result<Vec<Row<'r>>, AllocError>
    requires { IsPreparedOf sheet.now.recording.now prepared.now }
    ensures shown { (length (naming_places sheet.now.recording.now.taps pid.now) ≡ 1 → ⊥)
        → IfOk result (λ rows. ShowsClient sheet.now.recording.now sheet.now.lines.now pid.now
        (map row_seen rows.items)) }
    ensures truth { IfOk result (λ rows.
        AreTrueRows sheet.now.recording.now sheet.now.lines.now rows.items) }
{
    let mut rows = Vec::new(alloc);
    for place in sheet.recording.naming(pid) {
        let numbers = numbers_naming(sheet.recording, *place, pid);
        let tap = tap_at(alloc, sheet.recording, prepared, *place)?;
        push_replies(sheet, tap.places(), &mut rows, numbers)?;
    }
    Ok(rows)
}

/// Adds the rows of the replies of these stays.
fn push_replies<'r>(
    sheet: &Sheet<'r, '_>,
    tap: &ClientPlaces,
    rows: &mut Vec<Row<'r>>,
    numbers: &[usize],
) -> Result<(), AllocError>
    requires { AreOf sheet.now.recording.now tap.now }
    ensures rows { OnOk result (map row_seen rows.new.items
        ≡ map row_seen rows.old.items
        ++ replies_at sheet.now.recording.now sheet.now.lines.now tap.now.place numbers.now) }
    ensures truth { AreTrueRows sheet.now.recording.now sheet.now.lines.now rows.old.items
        → OnOk result (AreTrueRows sheet.now.recording.now sheet.now.lines.now rows.new.items) }
{
    for number in numbers {
        push_row(rows, sheet.reply_row(tap, *number, Role::Fault))?;
    }
    Ok(())
}

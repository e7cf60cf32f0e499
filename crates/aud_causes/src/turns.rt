//! What a break in the chain of a session's turns may come from.
ghost use Rattle.std.specs.Prelude.{◌≡◌, ◌++◌, ◌<◌, IfOk, OnOk, length, map};
ghost use Rattle.std.specs.Option.{option_copied};
ghost use Rattle.aud_causes.specs.Chain.{causes_of_marks, causes_of_turns, stays_of_client};
ghost use Rattle.aud_causes.specs.Private.Noting.{break_in, with_begin};
ghost use Rattle.aud_causes.specs.Turns.{after_begin, begins_of, begun_turn, breaks_of, broken_turn, ended_by, ends_of, is_after_begin, is_untapped, missing_back, missing_break, missing_breaks, not_tapped, turn_count, unbegun, is_broken, is_end, is_turn, is_ended, last_begin, last_turn};

use crate::cause::Cause;
use crate::list::push_some;
use crate::recorded::recoveries;
use crate::twice::{is_as_often, opened_twice, push_cleared, push_twice};
use aud_client::{Recording, Stay};
use aud_node::Logs;
use aud_session_facts::{Mark, RecordPlace, TurnMark, turn_marks};
use std::alloc::{AllocError, Global};

/// What a session's records say of its turns, up to the last that one of them begins.
#[derive(Drop)]
pub(crate) struct Turns {
    /// Of each turn the first record that begins it.
    pub begins: Vec<Option<RecordPlace>>,
    /// Of each whether a record breaks it.
    pub broken: Vec<bool>,
    /// Of each whether the log of a record that begins it ends it there, by a `break` of whichever number, or the `gone`.
    pub ended: Vec<bool>,
}

/// The causes of a break in the chain of the session's turns, whose client's tap is at this place, if it has one.
pub(crate) fn chain_causes(
    alloc: Global,
    recording: &Recording<'_>,
    client: Option<usize>,
    pid: &str,
) -> Result<Vec<Cause>, AllocError>
    ensures { IfOk result (λ found. found.items ≡ causes_of_turns recording.now client pid.now) }
{
    let logs = recording.logs();
    let marks = turn_marks(alloc, logs, pid)?;
    let stays = stays_of_client(alloc, recording, client, pid)?;
    let came = recoveries(alloc, &stays)?;
    let turns = turns_of(alloc, &marks)?;
    causes_of_marks(alloc, logs, pid, &marks, &turns, &came)
}

/// The stays of the client's tap at this place whose reply names the session.
fn stays_of_client<'r, 'a>(
    alloc: Global,
    recording: &'r Recording<'a>,
    client: Option<usize>,
    pid: &str,
) -> Result<Vec<&'r Stay<'a>>, AllocError>
    ensures { IfOk result (λ stays. map (λ stay. stay.now) stays.items
        ≡ stays_of_client recording.now client pid.now) }
{
    let Some(client) = client else {
        return Ok(Vec::new(alloc));
    };
    match recording.client(client) {
        Some(transcript) => transcript.naming(alloc, pid),
        None => Ok(Vec::new(alloc)),
    }
}

/// The causes, where these are all records that begin or end turns of the session, what they say of its turns, and the
/// recoveries of its client. Turns count from 0 to 65,535.
fn causes_of_marks(
    alloc: Global,
    logs: &Logs<'_>,
    pid: &str,
    marks: &[TurnMark],
    turns: &Turns,
    came: &[usize],
) -> Result<Vec<Cause>, AllocError>
    ensures { IfOk result (λ found. found.items
        ≡ causes_of_marks logs.now pid.now marks.now turns.now.begins.items turns.now.broken.items
        turns.now.ended.items came.now) }
{
    let mut found = Vec::new(alloc);
    push_some(&mut found, not_tapped(&turns.begins, &turns.broken))?;
    push_some(&mut found, missing_back(marks, &turns.begins))?;
    push_missing(&mut found, turns, came)?;
    push_cleared(logs, pid, &mut found)?;
    push_twice(&mut found, turns, is_as_often(marks, came), marks)?;
    push_some(&mut found, opened_twice(marks))?;
    Ok(found)
}

/// How many turns there are, up to the last that one of these begins.
pub(crate) fn turn_count(marks: &[TurnMark]) -> usize
    ensures { result ≡ turn_count 0 marks.now }
{
    let mut count = 0;
    for mark in marks {
        if let Some(turn) = begun_turn(mark.mark) {
            if count <= turn as usize {
                count = turn as usize + 1;
            }
        }
    }
    count
}

/// The turn that such a record begins, if it begins one.
pub(crate) fn begun_turn(mark: Mark) -> Option<u16>
    ensures { result ≡ begun_turn mark }
{
    match mark {
        Mark::Open => Some(0),
        Mark::Back { turn } => Some(turn),
        Mark::Break { .. } | Mark::Gone => None,
    }
}

/// The turn that it breaks, if it is a `break`.
pub(crate) fn broken_turn(mark: Mark) -> Option<u16>
    ensures { result ≡ broken_turn mark }
{
    match mark {
        Mark::Break { turn } => Some(turn),
        Mark::Open | Mark::Back { .. } | Mark::Gone => None,
    }
}

/// What these records say of the turns.
fn turns_of(alloc: Global, marks: &[TurnMark]) -> Result<Turns, AllocError>
    ensures begins { IfOk result (λ turns. turns.begins.items ≡ begins_of marks.now) }
    ensures broken { IfOk result (λ turns. turns.broken.items ≡ breaks_of marks.now) }
    ensures ended { IfOk result (λ turns. turns.ended.items ≡ ends_of marks.now) }
{
    let count = turn_count(marks);
    let mut begins = vec![in alloc; None; count]?;
    let mut broken = vec![in alloc; false; count]?;
    let mut ended = vec![in alloc; false; count]?;
    for (number, mark) in marks.iter().enumerate() {
        note_begin(&mut begins, *mark);
        note_turn(&mut broken, broken_turn(mark.mark));
        note_turn(&mut ended, ended_by(marks, number));
    }
    Ok(Turns {
        begins,
        broken,
        ended,
    })
}

/// Notes the record, if it is the first that begins its turn.
fn note_begin(begins: &mut Vec<Option<RecordPlace>>, mark: TurnMark)
    ensures { begins.new.items ≡ with_begin mark begins.old.items }
{
    let Some(turn) = begun_turn(mark.mark) else {
        return;
    };
    let turn = turn as usize;
    if let Some(None) = begins.get(turn) {
        begins[turn] = Some(mark.place);
    }
}

/// Notes that this holds of the turn, if it is one of these.
fn note_turn(turns: &mut Vec<bool>, turn: Option<u16>)
    ensures { turns.new.items ≡ break_in turn turns.old.items }
{
    let Some(turn) = turn else {
        return;
    };
    let turn = turn as usize;
    if turn < turns.len() {
        turns[turn] = true;
    }
}

/// The turn that the record with this number begins, if the next one of the session in its log ends a turn.
fn ended_by(marks: &[TurnMark], number: usize) -> Option<u16>
    requires { number < length marks.now }
    ensures { result ≡ ended_by marks.now number }
{
    match (marks.get(number), marks.get(number + 1)) {
        (Some(begin), Some(next)) if next.place.node == begin.place.node && is_end(next.mark) => {
            begun_turn(begin.mark)
        }
        _ => None,
    }
}

/// That no log has the begin of a turn, nor its `break`, where these are the begins, and whether each is broken.
fn not_tapped(begins: &[Option<RecordPlace>], broken: &[bool]) -> Option<Cause>
    ensures { result ≡ not_tapped broken.now 0 begins.now }
{
    for (turn, begin) in begins.iter().enumerate() {
        if is_untapped(*begin, broken.get(turn)) {
            return Some(Cause::NodeNotTapped(turn));
        }
    }
    None
}

/// Whether no log has the begin of a turn, nor its `break`.
fn is_untapped(begin: Option<RecordPlace>, broken: Option<&bool>) -> bool
    ensures { result ≡ is_untapped begin (option_copied broken.entry) }
{
    match (begin, broken) {
        (None, Some(false)) => true,
        _ => false,
    }
}

/// That the begin of the first turn that no log begins is missing, where these are the turns' begins.
fn missing_back(marks: &[TurnMark], begins: &[Option<RecordPlace>]) -> Option<Cause>
    ensures { result ≡ missing_back marks.now begins.now }
{
    let turn = unbegun(begins);
    let broken = is_broken(marks, turn.saturating_sub(1));
    Some(Cause::MissingBack {
        turn,
        next: after_begin(marks, turn, broken)?,
    })
}

/// The first turn that no log begins, where these are the begins.
fn unbegun(begins: &[Option<RecordPlace>]) -> usize
    ensures { result ≡ unbegun 0 begins.now }
{
    for (turn, begin) in begins.iter().enumerate() {
        if begin.is_none() {
            return turn;
        }
    }
    begins.len()
}

/// The first record that says that the session had this turn, where one breaks the turn before, or not.
fn after_begin(marks: &[TurnMark], turn: usize, broken: bool) -> Option<RecordPlace>
    ensures { result ≡ after_begin turn broken marks.now }
{
    let mark = marks
        .iter()
        .find(|mark| is_after_begin(turn, broken, mark.mark))?;
    Some(mark.place)
}

/// Whether the record begins a later turn, or breaks this one, where one breaks the turn before.
fn is_after_begin(turn: usize, broken: bool, mark: Mark) -> bool
    ensures { result ≡ is_after_begin turn broken mark }
{
    match begun_turn(mark) {
        Some(begun) if turn < begun as usize => true,
        _ => broken && is_turn(turn, broken_turn(mark)),
    }
}

/// Adds of each turn that the next one begins, though no record breaks it, and its log doesn't end it.
fn push_missing(found: &mut Vec<Cause>, turns: &Turns, came: &[usize]) -> Result<(), AllocError>
    ensures { OnOk result (found.new.items
        ≡ found.old.items ++ missing_breaks turns.now.begins.items turns.now.broken.items
        turns.now.ended.items came.now) }
{
    for turn in 0..turns.begins.len() {
        push_some(found, missing_break(turns, came, turn))?;
    }
    Ok(())
}

/// The same of this turn, where these are the client's recoveries: the one after the turn has its number, where they match
/// the turns.
fn missing_break(turns: &Turns, came: &[usize], turn: usize) -> Option<Cause>
    requires { turn < length turns.now.begins.items }
    ensures { result ≡ missing_break turns.now.begins.items turns.now.broken.items
        turns.now.ended.items came.now turn }
{
    let begins = turns.begins.as_slice();
    match (
        begins.get(turn),
        turns.broken.get(turn),
        turns.ended.get(turn),
        begins.get(turn + 1),
    ) {
        (Some(Some(begin)), Some(false), Some(false), Some(Some(back))) => {
            let matched = came.len() == begins.len().saturating_sub(1);
            Some(Cause::MissingBreak {
                turn,
                begin: *begin,
                back: *back,
                stay: if matched {
                    came.get(turn).copied()
                } else {
                    None
                },
            })
        }
        _ => None,
    }
}

/// The number of the last turn that one of these begins; 0 where none begins one.
pub(crate) fn last_turn(marks: &[TurnMark]) -> usize
    ensures { result ≡ last_turn marks.now }
{
    turn_count(marks).saturating_sub(1)
}

/// The first record that begins it.
pub(crate) fn last_begin(marks: &[TurnMark]) -> Option<RecordPlace>
    ensures { result ≡ last_begin marks.now }
{
    let turn = last_turn(marks);
    let mark = marks
        .iter()
        .find(|mark| is_turn(turn, begun_turn(mark.mark)))?;
    Some(mark.place)
}

/// Whether a record breaks the turn.
pub(crate) fn is_broken(marks: &[TurnMark], turn: usize) -> bool
    ensures { result ≡ is_broken marks.now turn }
{
    marks
        .iter()
        .any(|mark| is_turn(turn, broken_turn(mark.mark)))
}

/// Whether it is this turn.
pub(crate) fn is_turn(turn: usize, other: Option<u16>) -> bool
    ensures { result ≡ is_turn turn other }
{
    match other {
        Some(other) => turn == other as usize,
        None => false,
    }
}

/// Whether a record after this one, in the same log, breaks the session or ends it.
pub(crate) fn is_ended(marks: &[TurnMark], begin: RecordPlace) -> bool
    ensures { result ≡ is_ended marks.now begin }
{
    marks.iter().any(|mark| {
        mark.place.node == begin.node && begin.number < mark.place.number && is_end(mark.mark)
    })
}

/// Whether such a record ends a turn.
pub(crate) fn is_end(mark: Mark) -> bool
    ensures { result ≡ is_end mark }
{
    match mark {
        Mark::Break { .. } => true,
        Mark::Gone => true,
        Mark::Open => false,
        Mark::Back { .. } => false,
    }
}

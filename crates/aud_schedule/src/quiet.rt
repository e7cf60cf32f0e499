//! Acts that are no faults, chosen by the dice among those that are possible.
ghost use Rattle.std.specs.Prelude.{◌≡◌, IfOk};
ghost use Rattle.aud_schedule.specs.Size.{IsUpTo};
ghost use Rattle.aud_schedule.specs.Acts.{IsQuiet};

use crate::audience::{Place, ROOMS, Session};
use crate::course::{Course, MOST_SESSIONS};
use crate::emits::{emit, some_audience, word};
use aud_sim::Act;
use aud_tap::Text;
use std::alloc::AllocError;

/// An event comes, or, where a node lags too far for that, that node takes an entry.
fn emit_or_catch_up(course: &mut Course) -> Result<Act, AllocError>
    ensures size { course.new.size ≡ course.old.size }
    ensures act { IfOk result (IsQuiet course.old.size) }
{
    if course.may_emit() {
        let audience = some_audience(course);
        return emit(course, audience);
    }
    let node = course.slowest();
    course.take(node);
    Ok(Act::Take { node })
}

/// A node takes an entry, or, where it has taken all, an event comes.
fn take(course: &mut Course) -> Result<Act, AllocError>
    ensures size { course.new.size ≡ course.old.size }
    ensures act { IfOk result (IsQuiet course.old.size) }
{
    let node = course.some_node();
    if course.lags(node) {
        course.take(node);
        Ok(Act::Take { node })
    } else {
        emit_or_catch_up(course)
    }
}

/// A client opens a session, or, where there may be no more, an event comes.
fn connect(course: &mut Course, client: usize) -> Result<Act, AllocError>
    requires { IsUpTo course.old.size.clients client }
    ensures size { course.new.size ≡ course.old.size }
    ensures act { IfOk result (IsQuiet course.old.size) }
{
    if course.opened >= MOST_SESSIONS {
        return emit_or_catch_up(course);
    }
    let node = course.some_node();
    course.connect(client, node);
    Ok(Act::Connect { client, node })
}

/// A session joins a room, or leaves it.
fn join_or_leave(course: &mut Course, client: usize, session: Session) -> Result<Act, AllocError>
    requires { IsUpTo course.old.size.clients client }
    ensures size { course.new.size ≡ course.old.size }
    ensures act { IfOk result (IsQuiet course.old.size) }
{
    let index = course.below(4);
    let room = Text::new(course.alloc, ROOMS[index as usize])?;
    let bit = 1u8 << index;
    if course.below(4) == 0 {
        let rooms = session.rooms & !bit;
        course.set_session(client, Some(Session { rooms, ..session }));
        Ok(Act::Leave { client, room })
    } else {
        let rooms = session.rooms | bit;
        course.set_session(client, Some(Session { rooms, ..session }));
        Ok(Act::Join { client, room })
    }
}

/// What a connected client does.
fn connected(
    course: &mut Course,
    client: usize,
    session: Session,
    node: usize,
) -> Result<Act, AllocError>
    requires { IsUpTo course.old.size.clients client }
    ensures size { course.new.size ≡ course.old.size }
    ensures act { IfOk result (IsQuiet course.old.size) }
{
    match course.below(10) {
        0 => {
            course.set_session(client, None);
            Ok(Act::Finish { client })
        }
        1..=3 => {
            let place = Place::Away(course.cursor(node));
            course.set_session(client, Some(Session { place, ..session }));
            Ok(Act::Cut { client })
        }
        4 => {
            let word = word(course)?;
            Ok(Act::Volatile { client, word })
        }
        _ => join_or_leave(course, client, session),
    }
}

/// What a client does whose connection broke where its node's cursor was this: it comes back, opens another session, or
/// waits.
fn cut_off(
    course: &mut Course,
    client: usize,
    session: Session,
    cursor: usize,
) -> Result<Act, AllocError>
    requires { IsUpTo course.old.size.clients client }
    ensures size { course.new.size ≡ course.old.size }
    ensures act { IfOk result (IsQuiet course.old.size) }
{
    let node = course.some_node();
    if session.has_offset && cursor <= course.cursor(node) {
        let place = Place::On(node);
        course.set_session(client, Some(Session { place, ..session }));
        return Ok(Act::Recover { client, node });
    }
    if !session.has_offset || course.below(8) == 0 {
        return connect(course, client);
    }
    take(course)
}

/// An act that is no fault: of 20, mostly 5 are events, 8 are takes, and 7 are those of clients.
pub fn quiet_act(course: &mut Course) -> Result<Act, AllocError>
    ensures size { course.new.size ≡ course.old.size }
    ensures act { IfOk result (IsQuiet course.old.size) }
{
    match course.below(20) {
        0..=4 => emit_or_catch_up(course),
        5..=12 => take(course),
        _ => {
            let client = course.some_client();
            let Some(session) = course.session(client) else {
                return connect(course, client);
            };
            match session.place {
                Place::On(node) => connected(course, client, session, node),
                Place::Away(cursor) => cut_off(course, client, session, cursor),
            }
        }
    }
}

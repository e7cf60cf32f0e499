//! A fault, and the acts around it that make it show: of one client, 25 at most.
ghost use Rattle.std.specs.Prelude.{◌≡◌, ◌+◌, true, length, [], ◌∷◌, ◌≤◌, None, Some, IfOk, OnOk, option_to_list};
ghost use Rattle.aud_schedule.specs.declared.course.Size.{Size};
ghost use Rattle.aud_schedule.specs.declared.plan.Fault.TheVariants as brought;
ghost use Rattle.aud_schedule.specs.Size.{IsUpTo};
ghost use Rattle.aud_schedule.specs.Acts.{Shortened, Lagging, Unknown, UnansweredBack, Unanswered, Misnamed, LostOpen, LostJoin, LostBreak, RepeatedTake, fault_of, kind_of, IsWithin, IsQuiet};
ghost use Rattle.aud_schedule.specs.Private.Grown.{is_settled, Grown};

use crate::audience::{ALL, Audience, Place, ROOMS};
use crate::course::Course;
use crate::emits::{emit, emit_binary};
use crate::plan::Fault;
use aud_sim::Act;
use aud_tap::Text;
use std::alloc::AllocError;

/// Puts an act at the end.
pub fn add(acts: &mut Vec<Act>, act: Act) -> Result<(), AllocError>
    ensures length { OnOk result (length acts.new.items ≡ length acts.old.items + 1) }
    ensures grown { OnOk result ((size : Size) → is_settled act ≡ true
        → IsWithin size.nodes size.clients act
        → Grown size 1 (option_to_list (fault_of act None)) acts.old.items acts.new.items) }
{
    acts.push(act)?;
    Ok(())
}

/// Puts a fault of the nodes' logs at the end, and the act whose line it takes.
fn add_two(acts: &mut Vec<Act>, fault: Act, act: Act) -> Result<(), AllocError>
    ensures { OnOk result ((size : Size) → IsWithin size.nodes size.clients fault → IsQuiet size act
        → Grown size 2 (option_to_list (fault_of fault (Some act))) acts.old.items acts.new.items) }
{
    acts.push(fault)?;
    acts.push(act)?;
    Ok(())
}

/// An event for everyone.
fn emit_to_all(course: &mut Course, acts: &mut Vec<Act>) -> Result<(), AllocError>
    ensures size { course.new.size ≡ course.old.size }
    ensures acts { OnOk result (Grown course.old.size 1 [] acts.old.items acts.new.items) }
{
    let act = emit(course, ALL)?;
    add(acts, act)?;
    Ok(())
}

/// A node takes all entries: it lags by those by which it may, and by two more, at most.
fn catch_up(course: &mut Course, acts: &mut Vec<Act>, node: usize) -> Result<(), AllocError>
    ensures size { course.new.size ≡ course.old.size }
    ensures acts { OnOk result (Grown course.old.size 10 [] acts.old.items acts.new.items) }
{
    for taken in 0..10usize {
        if !course.lags(node) {
            break;
        }
        course.take(node);
        add(acts, Act::Take { node })?;
    }
    Ok(())
}

/// The node of a client, which opens a session where it has no connection.
fn connect(course: &mut Course, acts: &mut Vec<Act>, client: usize) -> Result<usize, AllocError>
    requires { IsUpTo course.old.size.clients client }
    ensures size { course.new.size ≡ course.old.size }
    ensures node { IfOk result (IsUpTo course.old.size.nodes) }
    ensures acts { OnOk result (Grown course.old.size 1 [] acts.old.items acts.new.items) }
{
    if let Some(node) = course.node_of(client) {
        return Ok(node);
    }
    let node = course.some_node();
    course.connect(client, node);
    add(acts, Act::Connect { client, node })?;
    Ok(node)
}

/// Where a client has a connection, its session ends.
fn disconnect(course: &mut Course, acts: &mut Vec<Act>, client: usize) -> Result<(), AllocError>
    requires { IsUpTo course.old.size.clients client }
    ensures size { course.new.size ≡ course.old.size }
    ensures acts { OnOk result (Grown course.old.size 1 [] acts.old.items acts.new.items) }
{
    if course.node_of(client).is_some() {
        course.set_session(client, None);
        add(acts, Act::Finish { client })?;
    }
    Ok(())
}

/// The node of a client that has received an event in its session.
fn receive(course: &mut Course, acts: &mut Vec<Act>, client: usize) -> Result<usize, AllocError>
    requires { IsUpTo course.old.size.clients client }
    ensures size { course.new.size ≡ course.old.size }
    ensures node { IfOk result (IsUpTo course.old.size.nodes) }
    ensures acts { OnOk result (Grown course.old.size 12 [] acts.old.items acts.new.items) }
{
    let node = connect(course, acts, client)?;
    emit_to_all(course, acts)?;
    catch_up(course, acts, node)?;
    Ok(node)
}

/// An act that spoils the next event that a client is sent, and then two events for everyone, which its node takes.
fn spoil(
    course: &mut Course,
    acts: &mut Vec<Act>,
    client: usize,
    act: Act,
) -> Result<(), AllocError>
    requires client { IsUpTo course.old.size.clients client }
    requires settled { is_settled act ≡ true }
    requires within { IsWithin course.old.size.nodes course.old.size.clients act }
    ensures size { course.new.size ≡ course.old.size }
    ensures acts { OnOk result (Grown course.old.size 25
        (option_to_list (fault_of act None)) acts.old.items acts.new.items) }
{
    let node = connect(course, acts, client)?;
    add(acts, act)?;
    emit_to_all(course, acts)?;
    emit_to_all(course, acts)?;
    catch_up(course, acts, node)?;
    Ok(())
}

/// An event with attachments, of which a client is sent one too few, and then one event more; all that came before was
/// taken, so that the next event that the client is sent is that one.
fn lose_attachment(
    course: &mut Course,
    acts: &mut Vec<Act>,
    client: usize,
) -> Result<(), AllocError>
    requires { IsUpTo course.old.size.clients client }
    ensures size { course.new.size ≡ course.old.size }
    ensures acts { OnOk result (Grown course.old.size 25
        (Shortened ∷ []) acts.old.items acts.new.items) }
{
    let node = connect(course, acts, client)?;
    catch_up(course, acts, node)?;
    add(acts, Act::ShortenNext { client })?;
    let act = emit_binary(course, ALL)?;
    add(acts, act)?;
    emit_to_all(course, acts)?;
    catch_up(course, acts, node)?;
    Ok(())
}

/// A node but for this one.
fn other_node(course: &mut Course, node: usize) -> usize
    requires { 2 ≤ course.old.size.nodes }
    ensures size { course.new.size ≡ course.old.size }
    ensures node { IsUpTo course.old.size.nodes result }
{
    let others = course.size.nodes as u32 - 1;
    let other = course.below(others) as usize + 1;
    if other < node { other } else { other + 1 }
}

/// An event that a client receives, and then its break, and its recovery on a node that comes to the event after it.
fn lag(course: &mut Course, acts: &mut Vec<Act>, client: usize) -> Result<(), AllocError>
    requires nodes { 2 ≤ course.old.size.nodes }
    requires client { IsUpTo course.old.size.clients client }
    ensures size { course.new.size ≡ course.old.size }
    ensures acts { OnOk result (Grown course.old.size 25
        (Lagging ∷ []) acts.old.items acts.new.items) }
{
    let node = receive(course, acts, client)?;
    add(acts, Act::Cut { client })?;
    let other = other_node(course, node);
    course.move_to(client, Place::On(other));
    add(
        acts,
        Act::RecoverLagging {
            client,
            node: other,
        },
    )?;
    catch_up(course, acts, other)?;
    Ok(())
}

/// An event that a client receives, and then its break, and its recovery, for which it asks with an offset that no
/// entry has.
fn ask_unknown(course: &mut Course, acts: &mut Vec<Act>, client: usize) -> Result<(), AllocError>
    requires { IsUpTo course.old.size.clients client }
    ensures size { course.new.size ≡ course.old.size }
    ensures acts { OnOk result (Grown course.old.size 25
        (Unknown ∷ []) acts.old.items acts.new.items) }
{
    let node = receive(course, acts, client)?;
    add(acts, Act::Cut { client })?;
    add(acts, Act::RecoverUnknown { client, node })?;
    Ok(())
}

/// An event that a client receives, its break, and an event that its node takes; then its recovery, of which it is told
/// nothing before the connection breaks again.
fn cut_before_reply(
    course: &mut Course,
    acts: &mut Vec<Act>,
    client: usize,
) -> Result<(), AllocError>
    requires { IsUpTo course.old.size.clients client }
    ensures size { course.new.size ≡ course.old.size }
    ensures acts { OnOk result (Grown course.old.size 25
        (UnansweredBack ∷ []) acts.old.items acts.new.items) }
{
    let node = receive(course, acts, client)?;
    add(acts, Act::Cut { client })?;
    emit_to_all(course, acts)?;
    course.take(node);
    add(acts, Act::Take { node })?;
    add(acts, Act::RecoverUnanswered { client, node })?;
    add(acts, Act::Cut { client })?;
    let cursor = course.cursor(node);
    course.move_to(client, Place::Away(cursor));
    Ok(())
}

/// A session of which the client is told nothing, and which is over at once.
fn leave_unanswered(
    course: &mut Course,
    acts: &mut Vec<Act>,
    client: usize,
) -> Result<(), AllocError>
    requires { IsUpTo course.old.size.clients client }
    ensures size { course.new.size ≡ course.old.size }
    ensures acts { OnOk result (Grown course.old.size 25
        (Unanswered ∷ []) acts.old.items acts.new.items) }
{
    disconnect(course, acts, client)?;
    let node = course.some_node();
    course.connect(client, node);
    add(acts, Act::ConnectUnanswered { client, node })?;
    course.set_session(client, None);
    add(acts, Act::Finish { client })?;
    Ok(())
}

/// A session of which the client is told another sid.
fn misname(course: &mut Course, acts: &mut Vec<Act>, client: usize) -> Result<(), AllocError>
    requires { IsUpTo course.old.size.clients client }
    ensures size { course.new.size ≡ course.old.size }
    ensures acts { OnOk result (Grown course.old.size 25
        (Misnamed ∷ []) acts.old.items acts.new.items) }
{
    disconnect(course, acts, client)?;
    let node = course.some_node();
    course.connect(client, node);
    add(acts, Act::ConnectMisnamed { client, node })?;
    Ok(())
}

/// A session whose `open` is lost.
fn lose_open(course: &mut Course, acts: &mut Vec<Act>, client: usize) -> Result<(), AllocError>
    requires { IsUpTo course.old.size.clients client }
    ensures size { course.new.size ≡ course.old.size }
    ensures acts { OnOk result (Grown course.old.size 25
        (LostOpen ∷ []) acts.old.items acts.new.items) }
{
    disconnect(course, acts, client)?;
    let node = course.some_node();
    course.connect(client, node);
    add_two(acts, Act::LoseLine, Act::Connect { client, node })?;
    Ok(())
}

/// A room that a session leaves and joins again, whose `join` is lost, and an event for the room; all that came before
/// was taken, so that this is the first that the record of the node does not tell of.
fn lose_join(course: &mut Course, acts: &mut Vec<Act>, client: usize) -> Result<(), AllocError>
    requires { IsUpTo course.old.size.clients client }
    ensures size { course.new.size ≡ course.old.size }
    ensures acts { OnOk result (Grown course.old.size 25
        (LostJoin ∷ []) acts.old.items acts.new.items) }
{
    let node = connect(course, acts, client)?;
    catch_up(course, acts, node)?;
    lose_room(course, acts, client)?;
    catch_up(course, acts, node)?;
    Ok(())
}

/// The acts of that room, up to the event.
fn lose_room(course: &mut Course, acts: &mut Vec<Act>, client: usize) -> Result<(), AllocError>
    requires { IsUpTo course.old.size.clients client }
    ensures size { course.new.size ≡ course.old.size }
    ensures acts { OnOk result (Grown course.old.size 4
        (LostJoin ∷ []) acts.old.items acts.new.items) }
{
    let alloc = course.alloc;
    let index = course.below(4);
    let room = Text::new(alloc, ROOMS[index as usize])?;
    add(acts, Act::Leave { client, room })?;
    let room = Text::new(alloc, ROOMS[index as usize])?;
    add_two(acts, Act::LoseLine, Act::Join { client, room })?;
    let rooms = 1u8 << index;
    course.hold_more(client, rooms);
    let act = emit(course, Audience { rooms, ..ALL })?;
    add(acts, act)?;
    Ok(())
}

/// An event that a client receives, and then its break, of which the `break` is lost, and its recovery.
fn lose_break(course: &mut Course, acts: &mut Vec<Act>, client: usize) -> Result<(), AllocError>
    requires { IsUpTo course.old.size.clients client }
    ensures size { course.new.size ≡ course.old.size }
    ensures acts { OnOk result (Grown course.old.size 25
        (LostBreak ∷ []) acts.old.items acts.new.items) }
{
    let node = receive(course, acts, client)?;
    add_two(acts, Act::LoseLine, Act::Cut { client })?;
    add(acts, Act::Recover { client, node })?;
    Ok(())
}

/// An event for everyone, and the node of a client takes its next one, of which the `take` is written twice.
fn repeat_take(course: &mut Course, acts: &mut Vec<Act>, client: usize) -> Result<(), AllocError>
    requires { IsUpTo course.old.size.clients client }
    ensures size { course.new.size ≡ course.old.size }
    ensures acts { OnOk result (Grown course.old.size 25
        (RepeatedTake ∷ []) acts.old.items acts.new.items) }
{
    let node = connect(course, acts, client)?;
    emit_to_all(course, acts)?;
    course.take(node);
    add_two(acts, Act::RepeatLine, Act::Take { node })?;
    Ok(())
}

/// The fault, once, and what makes it show.
pub fn inject(course: &mut Course, acts: &mut Vec<Act>, fault: Fault) -> Result<(), AllocError>
    requires { fault ≡ brought.Lag → 2 ≤ course.old.size.nodes }
    ensures size { course.new.size ≡ course.old.size }
    ensures acts { OnOk result (Grown course.old.size 25
        (kind_of fault ∷ []) acts.old.items acts.new.items) }
{
    let client = course.some_client();
    match fault {
        Fault::Drop => spoil(course, acts, client, Act::DropNext { client }),
        Fault::Double => spoil(course, acts, client, Act::DoubleNext { client }),
        Fault::Hold => spoil(course, acts, client, Act::HoldNext { client }),
        Fault::Alter => spoil(course, acts, client, Act::AlterNext { client }),
        Fault::Garble => spoil(course, acts, client, Act::GarbleNext { client }),
        Fault::LoseAttachment => lose_attachment(course, acts, client),
        Fault::Lag => lag(course, acts, client),
        Fault::UnknownOffset => ask_unknown(course, acts, client),
        Fault::CutBeforeReply => cut_before_reply(course, acts, client),
        Fault::NoReply => leave_unanswered(course, acts, client),
        Fault::OtherSid => misname(course, acts, client),
        Fault::NoOpen => lose_open(course, acts, client),
        Fault::NoJoin => lose_join(course, acts, client),
        Fault::NoBreak => lose_break(course, acts, client),
        Fault::TakeTwice => repeat_take(course, acts, client),
    }
}

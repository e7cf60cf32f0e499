//! The members that a line has, by its kind.
ghost use Rattle.std.specs.Prelude.{◌≡◌, IfOk};
ghost use Rattle.aud_json.specs.View.{view};
ghost use Rattle.aud_refusals.specs.Members.{first_unformed, members_of};

use crate::member::{Member, is_formed};
use aud_json::Fields;
use std::alloc::{AllocError, Global};

static HEADER: [Member; 2] = [Member::Version, Member::Of];

static EVENT: [Member; 6] = [
    Member::Off,
    Member::Nsp,
    Member::Text,
    Member::Rooms,
    Member::Except,
    Member::Bin,
];

static ENTRY: [Member; 1] = [Member::Off];

static START: [Member; 1] = [Member::OffOrNull];

static OPEN: [Member; 3] = [Member::Pid, Member::Sid, Member::Nsp];

static ROOM: [Member; 2] = [Member::Pid, Member::Room];

static TURN: [Member; 2] = [Member::Pid, Member::Turn];

static GONE: [Member; 1] = [Member::Pid];

static CONNECTION: [Member; 1] = [Member::Connection];

static MESSAGE: [Member; 1] = [Member::Message];

static BYTES: [Member; 1] = [Member::Bytes];

/// The members of a line of this kind, in the order in which they are looked at.
pub fn members_of(kind: &str) -> &'static [Member]
    ensures { result.now ≡ members_of kind.now }
{
    match kind {
        "tap" => &HEADER,
        "ev" => &EVENT,
        "other" | "take" | "takes" => &ENTRY,
        "start" => &START,
        "open" => &OPEN,
        "join" | "leave" => &ROOM,
        "break" | "back" => &TURN,
        "gone" => &GONE,
        "conn" => &CONNECTION,
        "in" | "poll" | "out" => &MESSAGE,
        "inb" => &BYTES,
        _ => &[],
    }
}

/// The first of these members that is missing, or not of its type or form.
pub fn first_unformed(
    alloc: Global,
    members: &[Member],
    d: &Fields<'_>,
) -> Result<Option<Member>, AllocError>
    ensures { IfOk result (λ m. m ≡ first_unformed members.now (view d.now)) }
{
    for member in members {
        if !is_formed(alloc, *member, d)? {
            return Ok(Some(*member));
        }
    }
    Ok(None)
}

//! Members that are outside their limits.
ghost use Rattle.std.specs.Prelude.{◌≡◌, ◌+◌, ◌<◌, Option, length, option_map};
ghost use Rattle.aud_json.specs.View.{list_view, view};
ghost use Rattle.aud_refusals.specs.Excess.{count_excess, excess_of, first_excess, items_excess, length_excess, rooms_excess};

use crate::member::{Member, number_at, text_at};
use aud_json::Fields;
use aud_tap::limits::{
    MAX_ATTACHMENTS, MAX_ID, MAX_NAMESPACE, MAX_OFFSET, MAX_ROOM, MAX_ROOMS, fits,
};

/// The greatest number of a turn.
const MAX_TURN: u64 = 65_535;

/// What of a member is outside its limits, and the limit. Lengths are in bytes, and items count from 1.
#[derive(Clone, Copy, Drop)]
pub enum Excess {
    /// A text is empty, or longer than it may be.
    Length {
        member: Member,
        length: usize,
        most: usize,
    },
    /// A list has more items than it may have.
    Count {
        member: Member,
        count: usize,
        most: usize,
    },
    /// An item of a list is empty, or longer than it may be.
    Item {
        member: Member,
        place: usize,
        length: usize,
        most: usize,
    },
    /// A number is greater than it may be.
    Number {
        member: Member,
        number: u64,
        most: u64,
    },
}

fn length_excess(member: Member, most: usize, text: Option<&str>) -> Option<Excess>
    ensures { result ≡ length_excess member most (option_map (λ s. s.now) text.entry) }
{
    let text = text?;
    if fits(most, text) {
        return None;
    }
    Some(Excess::Length {
        member,
        length: text.len(),
        most,
    })
}

/// The first item that is empty or too long.
fn items_excess(member: Member, most: usize, items: &[Option<&str>]) -> Option<Excess>
    ensures { result ≡ items_excess member 1 most (list_view items.now) }
{
    for (number, item) in items.iter().enumerate() {
        match item {
            Some(text) if !fits(most, text) => {
                return Some(Excess::Item {
                    member,
                    place: number + 1,
                    length: text.len(),
                    most,
                });
            }
            _ => {}
        }
    }
    None
}

fn count_excess(member: Member, most: usize, items: &[Option<&str>]) -> Option<Excess>
    ensures { result ≡ count_excess member most (list_view items.now) }
{
    let count = items.len();
    if count <= most {
        return None;
    }
    Some(Excess::Count {
        member,
        count,
        most,
    })
}

fn rooms_excess(member: Member, key: &str, d: &Fields<'_>) -> Option<Excess>
    ensures { result ≡ rooms_excess member key.now (view d.now) }
{
    let items = d.get(key)?.as_list()?;
    let count = count_excess(member, MAX_ROOMS, items);
    if count.is_some() {
        return count;
    }
    items_excess(member, MAX_ROOM, items)
}

/// What of a member is outside its limits.
fn excess_of(member: Member, d: &Fields<'_>) -> Option<Excess>
    ensures { result ≡ excess_of member (view d.now) }
{
    let key = member.key();
    match member {
        Member::Off | Member::OffOrNull => length_excess(member, MAX_OFFSET, text_at(key, d)),
        Member::Nsp => length_excess(member, MAX_NAMESPACE, text_at(key, d)),
        Member::Pid | Member::Sid => length_excess(member, MAX_ID, text_at(key, d)),
        Member::Room => length_excess(member, MAX_ROOM, text_at(key, d)),
        Member::Rooms | Member::Except => rooms_excess(member, key, d),
        Member::Bin => count_excess(member, MAX_ATTACHMENTS, d.get(key)?.as_list()?),
        Member::Turn => match number_at(key, d) {
            Some(number) if number > MAX_TURN => Some(Excess::Number {
                member,
                number,
                most: MAX_TURN,
            }),
            _ => None,
        },
        Member::Kind
        | Member::Version
        | Member::Of
        | Member::Text
        | Member::Connection
        | Member::Message
        | Member::Bytes => None,
    }
}

/// The first of these members that is outside its limits, and what of it.
pub fn first_excess(members: &[Member], d: &Fields<'_>) -> Option<Excess>
    ensures { result ≡ first_excess members.now (view d.now) }
{
    for member in members {
        let excess = excess_of(*member, d);
        if excess.is_some() {
            return excess;
        }
    }
    None
}

//! The limits of lines and fields. Lengths are in bytes.
ghost use Rattle.std.specs.Prelude.{◌≡◌};
ghost use Rattle.std.specs.List.{list_all};
ghost use Rattle.aud_tap.specs.Limits.{fits, fit_rooms};

use aud_base::Text;

/// The most bytes of a line, without its newline and without the carriage return that is dropped.
pub const MAX_LINE: usize = 4_194_304;

/// The most bytes of a tap's name.
pub const MAX_NAME: usize = 32;

/// The most bytes of a pid or a sid.
pub const MAX_ID: usize = 128;

/// The most bytes of an offset.
pub const MAX_OFFSET: usize = 64;

/// The most bytes of a room.
pub const MAX_ROOM: usize = 256;

/// The most bytes of a namespace.
pub const MAX_NAMESPACE: usize = 256;

/// The most rooms that an event is for, and the most that it excepts.
pub const MAX_ROOMS: usize = 256;

/// The most attachments of an event.
pub const MAX_ATTACHMENTS: usize = 64;

/// The text is not empty, and no longer than `most`.
pub fn fits(most: usize, text: &str) -> bool
    ensures { result ≡ fits most text.now }
{
    1 <= text.len() && text.len() <= most
}

fn all_fit(most: usize, texts: &[Text]) -> bool
    ensures { result ≡ list_all (fits most) texts.now }
{
    texts.iter().all(|text| fits(most, text.as_str()))
}

/// There are not too many rooms, and none is empty or too long.
pub fn fit_rooms(rooms: &[Text]) -> bool
    ensures { result ≡ fit_rooms rooms.now }
{
    rooms.len() <= MAX_ROOMS && all_fit(MAX_ROOM, rooms)
}

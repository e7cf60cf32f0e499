//! The members of where a line stands among several files.
ghost use Rattle.std.specs.Prelude.{◌≡◌, OnOk};
ghost use Rattle.serde_json.specs.View.{members_view};
ghost use Rattle.std.specs.Option.{option_map};
ghost use Rattle.aud_explanation.specs.Place.{with_place};

use crate::json_line::value::{put_numbers, put_texts};
use serde_json::{Map, Value};
use std::alloc::{AllocError, Global};

/// Puts the file in which a line stands, and the line's number there; both are `null` where none is told.
#[tactic(auto, unfolding(crate::specs::Place::with_place))]
pub(crate) fn put_place(
    alloc: Global,
    members: &mut Map<String, Value>,
    place: Option<(&str, u64)>,
) -> Result<(), AllocError>
    ensures { OnOk result (members_view members.new.entries
        ≡ with_place (option_map (λ place. (place.0.now, place.1)) place.entry)
        (members_view members.old.entries)) }
{
    let (file, line) = match place {
        Some((file, line)) => (Some(file), Some(line)),
        None => (None, None),
    };
    put_texts(alloc, members, &[("file", file)])?;
    put_numbers(alloc, members, &[("file_line", line)])
}

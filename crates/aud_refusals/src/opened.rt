//! A line taken apart, for help on it.
ghost use Rattle.std.specs.Prelude.{◌≡◌, IfOk, option_map};
ghost use Rattle.std.specs.Result.{result_ok};
ghost use Rattle.aud_json.specs.Shown.{shown};
ghost use Rattle.aud_json.specs.View.{view};
ghost use Rattle.aud_reader.specs.Record.{json_of};
ghost use Rattle.aud_refusals.specs.Opened.{opened};

use aud_json::{Fields, FieldsFault, Scratch};
use aud_reader::{cut_at_blank, tap_name};
use aud_tap::limits::MAX_LINE;
use std::alloc::{AllocError, Global};

/// The fields of JSON text, borrowed from it and from the scratch.
#[tactic(auto, unfolding(aud_reader::specs::Record::json_of))]
pub(crate) fn fields_of<'a>(
    alloc: Global,
    scratch: &'a mut Scratch,
    bytes: &'a [u8],
) -> Result<Option<Fields<'a>>, AllocError>
    ensures { IfOk result (λ o. option_map view o
        ≡ option_map shown (result_ok (json_of bytes.now))) }
{
    let Ok(text) = str::from_utf8(bytes) else {
        return Ok(None);
    };
    match Fields::read(alloc, text, scratch) {
        Ok(fields) => Ok(Some(fields)),
        Err(FieldsFault::Memory) => Err(AllocError),
        Err(FieldsFault::NotJson) => Ok(None),
    }
}

/// The fields of the value after a line's first blank, where the line has a tap's name and JSON.
#[tactic(auto, unfolding(aud_reader::specs::Record::opened_line))]
pub fn opened<'a>(
    alloc: Global,
    scratch: &'a mut Scratch,
    line: &'a [u8],
) -> Result<Option<Fields<'a>>, AllocError>
    ensures { IfOk result (λ o. option_map view o ≡ opened line.now) }
{
    if line.len() > MAX_LINE {
        return Ok(None);
    }
    let Some((name, text)) = cut_at_blank(line) else {
        return Ok(None);
    };
    if tap_name(name).is_none() {
        return Ok(None);
    }
    fields_of(alloc, scratch, text)
}

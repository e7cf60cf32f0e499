//! The header of a tap.
ghost use Rattle.std.specs.Prelude.{◌≡◌};
ghost use Rattle.aud_json.specs.View.{view};
ghost use Rattle.aud_reader.specs.Steps.{Gives};
ghost use Rattle.aud_reader.specs.Header.{tap_kind, version_numbered, header_of};

use super::fields::{number_at, text_at};
use crate::fault::{InputCode, LineFault, UNKNOWN_KIND};
use aud_json::Fields;
use aud_tap::{TapKind, Version};

const OTHER_VERSION: LineFault = LineFault::Code(InputCode::Version);

/// The kind of tap that a word names.
pub fn tap_kind(word: &str) -> Option<TapKind>
    ensures { result ≡ tap_kind word.now }
{
    match word {
        "stream" => Some(TapKind::Stream),
        "node" => Some(TapKind::Node),
        "client" => Some(TapKind::Client),
        _ => None,
    }
}

/// The version that a number names.
fn version_numbered(v: u64) -> Option<Version>
    ensures { result ≡ version_numbered v }
{
    match v {
        1 => Some(Version::One),
        2 => Some(Version::Two),
        _ => None,
    }
}

/// What the tap of a header was put on, and the version that it is written in.
#[tactic(auto, unfolding(crate::specs::Header::header_of))]
pub fn tap_header(d: &Fields<'_>) -> Result<(TapKind, Version), LineFault>
    ensures { Gives result (header_of (view d.now)) }
{
    let v = number_at("v", d)?;
    let of = text_at("of", d)?;
    let version = version_numbered(v).ok_or(OTHER_VERSION)?;
    let kind = tap_kind(of).ok_or(UNKNOWN_KIND)?;
    Ok((kind, version))
}

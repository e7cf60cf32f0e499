//! The count of attachments of a packet.
ghost use Rattle.std.specs.Prelude.{◌≡◌, ◌≢◌, ◌==◌, Err, Some, None, drop, if◌then◌else◌, option_map, slice_index};
ghost use Rattle.aud_sio.specs.Reading.{Gives};
ghost use Rattle.aud_sio.specs.Attachments.{attachments_at, count_at};

use crate::digits::{number_of, split_digits};
use crate::fault::SioFault;
use crate::kind::PacketKind;

/// The most attachments that a packet may have.
const MOST: u64 = 64;

/// How many attachments a text announces, and the rest: none where the kind is not binary.
#[tactic(auto, unfolding(crate::specs::Attachments::attachments_at))]
pub(crate) fn attachments_at(kind: PacketKind, text: &str) -> Result<(u8, &str), SioFault>
    ensures value { Gives (λ read. (read.0, read.1.now)) result (attachments_at kind text.now) }
    ensures memory { result ≢ Err SioFault.Memory }
{
    if kind.is_binary() {
        count_at(text)
    } else {
        Ok((0, text))
    }
}

#[tactic(auto, unfolding(crate::specs::Attachments::count_at))]
fn count_at(text: &str) -> Result<(u8, &str), SioFault>
    ensures value { Gives (λ read. (read.0, read.1.now)) result (count_at text.now) }
    ensures memory { result ≢ Err SioFault.Memory }
{
    let (digits, rest) = split_digits(text);
    if digits.is_empty() || digits.len() > 2 {
        return Err(SioFault::Attachments);
    }
    let Some(rest) = after_dash(rest) else {
        return Err(SioFault::Attachments);
    };
    let count = number_of(digits);
    if count > MOST {
        return Err(SioFault::Attachments);
    }
    Ok((count as u8, rest))
}

/// What follows a dash at the front.
fn after_dash(text: &str) -> Option<&str>
    ensures { option_map (λ rest. rest.now) result ≡
        (if slice_index text.now 0 == 45 then Some (drop 1 text.now) else None) }
{
    text.strip_prefix('-')
}

//! The acknowledgement id of a packet.
ghost use Rattle.std.specs.Prelude.{◌≢◌, Err};
ghost use Rattle.aud_sio.specs.Reading.{Gives};
ghost use Rattle.aud_sio.specs.AckId.{ack_id_at};

use crate::digits::{number_of, split_digits};
use crate::fault::SioFault;

/// The most digits of an acknowledgement id.
const MOST_DIGITS: usize = 18;

/// The id that the digits at the front write, if any stand there, and the rest.
#[tactic(auto, unfolding(crate::specs::AckId::ack_id_at))]
pub(crate) fn id_at(text: &str) -> Result<(Option<u64>, &str), SioFault>
    ensures value { Gives (λ read. (read.0, read.1.now)) result (ack_id_at text.now) }
    ensures memory { result ≢ Err SioFault.Memory }
{
    let (digits, rest) = split_digits(text);
    if digits.len() > MOST_DIGITS {
        return Err(SioFault::AckId);
    }
    if digits.is_empty() {
        return Ok((None, rest));
    }
    Ok((Some(number_of(digits)), rest))
}

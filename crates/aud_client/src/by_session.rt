//! Stays by the sessions that their replies name.
ghost use Rattle.std.specs.Prelude.{◌≡◌, IfOk, OnOk};
ghost use Rattle.std.specs.List.{list_any};
ghost use Rattle.aud_base.specs.Places.{noted, places_of};
ghost use Rattle.aud_node.specs.Stream.{Text};
ghost use Rattle.aud_client.specs.Received.{numbers_naming, stay_names_pid};

use crate::stay::Stay;
use aud_base::Places;
use std::alloc::{AllocError, Global};
use std::hash::RandomState;

/// Of each pid, the numbers of the stays whose reply names it. Stays count from 0; each is looked at once. Pids are
/// hashed with these keys.
pub fn by_session(
    alloc: Global,
    keys: RandomState,
    stays: &[Stay<'_>],
) -> Result<Places, AllocError>
    ensures { IfOk result (λ kept. (pid : Text)
        → places_of kept pid ≡ numbers_naming pid stays.now) }
{
    let mut kept = Places::new(alloc, keys);
    for (number, stay) in stays.iter().enumerate() {
        note_stay(&mut kept, number, stay)?;
    }
    Ok(kept)
}

/// Notes at the place the sessions that the replies of these stays name.
pub fn note_stays(naming: &mut Places, place: usize, stays: &[Stay<'_>]) -> Result<(), AllocError>
    ensures { OnOk result ((q : Text)
        → places_of naming.new q
        ≡ noted place (list_any (stay_names_pid q) stays.now) (places_of naming.old q)) }
{
    for stay in stays {
        note_stay(naming, place, stay)?;
    }
    Ok(())
}

/// Notes at the place the session that the stay's reply names, if it names one.
fn note_stay(naming: &mut Places, place: usize, stay: &Stay<'_>) -> Result<(), AllocError>
    ensures { OnOk result ((q : Text)
        → places_of naming.new q
        ≡ noted place (stay_names_pid q stay.now) (places_of naming.old q)) }
{
    let Some(reply) = &stay.reply else {
        return Ok(());
    };
    match &reply.pid {
        Some(pid) => naming.note(place, pid.as_str()),
        None => Ok(()),
    }
}

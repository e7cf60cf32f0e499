//! What happened to the client of a session.
ghost use Rattle.std.specs.Prelude.{◌≡◌, ◌++◌, IfOk, IfSome, OnOk};
ghost use Rattle.std.specs.Option.{option_copied};
ghost use Rattle.aud_client.specs.Replies.{naming_places};
ghost use Rattle.aud_findings.specs.ClientShown.{only_of};
ghost use Rattle.aud_rows.specs.ClientPlaces.{AreOf};
ghost use Rattle.aud_explain_app.specs.Events.{AreEvents, place_of, stays_unnamed};

use aud_client::Recording;
use aud_explanation::ClientEvent;
use aud_findings::{client_events, numbers_naming};
use aud_rows::{ClientPlaces, Sheet};
use aud_session_facts::{Recovery, stay_of};
use std::alloc::{AllocError, Global};

/// The place of the one client's tap with a reply that names the session, if there is just one.
pub(crate) fn only_client(recording: &Recording<'_>, pid: &str) -> Option<usize>
    ensures { result ≡ only_of (naming_places recording.now.taps pid.now) }
{
    match recording.naming(pid) {
        [place] => Some(*place),
        _ => None,
    }
}

/// What happened to the client of the session, for which these recoveries were asked; nothing where it has not just one
/// client.
pub(crate) fn events_of(
    alloc: Global,
    sheet: &Sheet<'_, '_>,
    tap: Option<&ClientPlaces>,
    pid: &str,
    asked: &[Recovery],
) -> Result<Vec<ClientEvent>, AllocError>
    requires { IfSome (option_copied tap) (AreOf sheet.now.recording.now) }
    ensures { IfOk result (λ events. AreEvents sheet.now.recording.now sheet.now.lines.now
        (place_of (option_copied tap.entry)) pid.now asked.now events.items) }
{
    let Some(tap) = tap else {
        return Ok(Vec::new(alloc));
    };
    let mut numbers = Vec::new(alloc);
    numbers.extend_from_slice(numbers_naming(sheet.recording, tap.place, pid))?;
    push_unnamed(sheet.recording, &mut numbers, tap.place, pid, asked)?;
    client_events(alloc, sheet, tap, pid, numbers.as_slice())
}

/// Adds the stays of those of the recoveries that are of the client at this place, where no reply names the session.
fn push_unnamed(
    recording: &Recording<'_>,
    numbers: &mut Vec<usize>,
    place: usize,
    pid: &str,
    asked: &[Recovery],
) -> Result<(), AllocError>
    ensures { OnOk result (numbers.new.items
        ≡ numbers.old.items ++ stays_unnamed recording.now place pid.now asked.now) }
{
    for recovery in asked {
        let named = match stay_of(recording, recovery) {
            Some(stay) => stay.names(pid),
            None => false,
        };
        if recovery.client == place && !named {
            numbers.push(recovery.stay)?;
        }
    }
    Ok(())
}

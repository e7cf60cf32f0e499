//! Events that go on with one another.
ghost use Rattle.std.specs.Prelude.{◌≡◌, IfOk, OnOk};
ghost use Rattle.aud_findings.specs.Runs.{extended, joined_events, joined_happens};

use aud_explanation::{ClientEvent, Happens};
use std::alloc::{AllocError, Global};

/// The events, with those joined that go on with one another.
pub fn joined_events(alloc: Global, events: &[ClientEvent]) -> Result<Vec<ClientEvent>, AllocError>
    ensures { IfOk result (λ all. all.items ≡ joined_events events.now) }
{
    let mut all = Vec::new(alloc);
    for event in events {
        extend(&mut all, *event)?;
    }
    Ok(all)
}

/// Adds the event: to the last one, where it goes on with that.
fn extend(events: &mut Vec<ClientEvent>, event: ClientEvent) -> Result<(), AllocError>
    ensures { OnOk result (events.new.items ≡ extended events.old.items event) }
{
    let Some(last) = events.pop() else {
        events.push(event)?;
        return Ok(());
    };
    match joined_happens(last.last == event.first, last.happens, event.happens) {
        Some(happens) => {
            events.push(ClientEvent {
                first: last.first,
                last: event.last,
                happens,
            })?;
        }
        None => {
            events.push(last)?;
            events.push(event)?;
        }
    }
    Ok(())
}

/// What happens as one.
fn joined_happens(one_line: bool, happens: Happens, next: Happens) -> Option<Happens>
    ensures { result ≡ joined_happens one_line happens next }
{
    match (happens, next) {
        (
            Happens::Got { from, to },
            Happens::Got {
                from: after,
                to: last,
            },
        ) => {
            if to.checked_add(1) == Some(after) {
                Some(Happens::Got { from, to: last })
            } else {
                None
            }
        }
        (Happens::Lost, Happens::Lost) if one_line => Some(Happens::Lost),
        _ => None,
    }
}

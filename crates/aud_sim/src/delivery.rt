//! Sending an entry to the sessions that it is addressed to.
ghost use Rattle.std.specs.Prelude.{◌≡◌, ◌-◌, OnOk, length, option_map};
ghost use Rattle.aud_sim.specs.Clients.{met, fault_after, last_after, is_for, session_sent};
ghost use Rattle.aud_sim.specs.Delivery.{sent_to, replayed, sent_to_guest, sent_to_guests};

use crate::bundle::Bundle;
use crate::client::{Client, Injected};
use crate::entry::Entry;
use crate::frames::sent;
use crate::node::Guest;
use crate::rooms::is_addressed;
use std::alloc::AllocError;

/// The fault that a frame of the entry meets, of the one that waits: of no attachments none is lost.
fn met(fault: Injected, entry: &Entry) -> Injected
    ensures { result ≡ met fault (length entry.now.event.bin) }
{
    match fault {
        Injected::ShortenNext if entry.event.bin.as_slice().is_empty() => Injected::Nothing,
        _ => fault,
    }
}

/// The position of the offset that the client received last, after a frame of the entry at a position.
fn last_after(fault: Injected, position: usize, last: Option<usize>) -> Option<usize>
    ensures { result ≡ last_after fault position last }
{
    match fault {
        Injected::DropNext | Injected::HoldNext | Injected::GarbleNext | Injected::ShortenNext =>
            last,
        Injected::Holds(held) => Some(held),
        _ => Some(position),
    }
}

/// Whether the entry is addressed to the client's session, if it has one.
fn is_for(entry: &Entry, client: &Client) -> bool
    ensures { result ≡ is_for entry.now client.now.session }
{
    match &client.session {
        Some(session) => is_addressed(&entry.event, &session.rooms),
        None => false,
    }
}

/// The client after a frame of the entry at a position, which met this fault.
fn note(client: &mut Client, fault: Injected, position: usize)
    ensures { client.new ≡ record client.old {
      injected = fault_after fault position;
      session = option_map (session_sent fault position) client.old.session;
    } }
{
    if let Some(session) = &mut client.session {
        session.last = last_after(fault, position, session.last);
    }
    client.injected = match fault {
        Injected::HoldNext => Injected::Holds(position),
        _ => Injected::Nothing,
    };
}

/// Sends the entry at a position to the client, where it is addressed to its session.
fn deliver(
    bundle: &mut Bundle,
    entries: &[Entry],
    position: usize,
    client: &mut Client,
) -> Result<(), AllocError>
    ensures { OnOk result (sent_to entries.now position
        (record { lines = bundle.old; client = client.old })
        ≡ record { lines = bundle.new; client = client.new }) }
{
    let Some(entry) = entries.get(position.saturating_sub(1)) else {
        return Ok(());
    };
    if !is_for(entry, client) {
        return Ok(());
    }
    let fault = met(client.injected, entry);
    sent(bundle, client.name.as_str(), entries, fault, entry)?;
    note(client, fault, position);
    Ok(())
}

/// Sends the entry at a position to the client with this index, where it is addressed to its session.
fn deliver_to(
    bundle: &mut Bundle,
    entries: &[Entry],
    position: usize,
    clients: &mut Vec<Client>,
    index: usize,
) -> Result<(), AllocError>
    ensures { OnOk result (sent_to_guest entries.now position index
        (record { lines = bundle.old; clients = clients.old.items })
        ≡ record { lines = bundle.new; clients = clients.new.items }) }
{
    match clients.get_mut(index) {
        Some(client) => deliver(bundle, entries, position, client),
        None => Ok(()),
    }
}

/// Sends the entry at a position to those of a node's sessions that it is addressed to, in their order.
pub fn deliver_to_all(
    bundle: &mut Bundle,
    entries: &[Entry],
    position: usize,
    clients: &mut Vec<Client>,
    guests: &[Guest],
) -> Result<(), AllocError>
    ensures { OnOk result (sent_to_guests entries.now position guests.now
        (record { lines = bundle.old; clients = clients.old.items })
        ≡ record { lines = bundle.new; clients = clients.new.items }) }
{
    for guest in guests {
        deliver_to(bundle, entries, position, clients, guest.client)?;
    }
    Ok(())
}

/// Sends a client the entries past one position up to another that are addressed to its session.
pub fn replay(
    bundle: &mut Bundle,
    entries: &[Entry],
    from: usize,
    to: usize,
    client: &mut Client,
) -> Result<(), AllocError>
    ensures { OnOk result (replayed entries.now from (to - from)
        (record { lines = bundle.old; client = client.old })
        ≡ record { lines = bundle.new; client = client.new }) }
{
    for before in from..to {
        deliver(bundle, entries, before + 1, client)?;
    }
    Ok(())
}

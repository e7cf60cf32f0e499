//! What is written where a client is sent an entry.
ghost use Rattle.std.specs.Prelude.{◌≡◌, OnOk};
ghost use Rattle.aud_sim.specs.Clients.{with_frame, with_sent};

use crate::bundle::Bundle;
use crate::client::Injected;
use crate::entry::Entry;
use aud_tap::{Bytes, ClientRec, Text};
use std::alloc::AllocError;

/// A frame of this text, and after it the attachments, each as a message of its own.
fn frame(bundle: &mut Bundle, name: &str, text: &Text, bin: &[Bytes]) -> Result<(), AllocError>
    ensures { OnOk result (bundle.new ≡ with_frame name.now text.now bin.now bundle.old) }
{
    let t = text.share()?;
    bundle.client(name, ClientRec::TextIn { t })?;
    for bytes in bin {
        let b = Bytes::new(Vec::from_slice(bundle.alloc, bytes.as_slice())?);
        bundle.client(name, ClientRec::BytesIn { b })?;
    }
    Ok(())
}

/// What is written where an entry is sent to a client, by the fault that its frame meets.
pub fn sent(
    bundle: &mut Bundle,
    name: &str,
    entries: &[Entry],
    fault: Injected,
    entry: &Entry,
) -> Result<(), AllocError>
    ensures { OnOk result (bundle.new ≡ with_sent name.now entries.now fault entry.now bundle.old) }
{
    let bin = entry.event.bin.as_slice();
    match fault {
        Injected::Nothing => frame(bundle, name, &entry.frame, bin),
        Injected::DropNext | Injected::HoldNext => Ok(()),
        Injected::DoubleNext => {
            frame(bundle, name, &entry.frame, bin)?;
            frame(bundle, name, &entry.frame, bin)
        }
        Injected::AlterNext => frame(bundle, name, &entry.altered, bin),
        Injected::GarbleNext => frame(bundle, name, &entry.garbled, bin),
        Injected::ShortenNext => match bin.split_first() {
            Some((_, rest)) => frame(bundle, name, &entry.frame, rest),
            None => frame(bundle, name, &entry.frame, &[]),
        },
        Injected::Holds(position) => {
            frame(bundle, name, &entry.frame, bin)?;
            match entries.get(position.saturating_sub(1)) {
                Some(held) => frame(bundle, name, &held.frame, held.event.bin.as_slice()),
                None => Ok(()),
            }
        }
    }
}

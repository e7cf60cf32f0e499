//! The text of a packet.
ghost use Rattle.std.specs.Prelude.{◌≡◌, ◌++◌, IfErr, IfOk, Ok, OnOk, string_bytes};
ghost use Rattle.aud_sio.specs.Packet.{IsSpelled, packet_of, packet_view};
ghost use Rattle.aud_sio.specs.Written.{packet_text, written_count, written_id, written_namespace};
ghost use Rattle.aud_sio.specs.declared.fault.SioFault.TheVariants.{Memory};

use crate::fault::SioFault;
use crate::kind::PacketKind;
use crate::namespace::MAIN;
use crate::packet::Packet;
use std::alloc::{AllocError, Global};

/// The text of a packet, by the section "Packet encoding" of the Socket.IO protocol 5: numbers
/// without leading zeros, no namespace where it is `/`, the payload as it is. `last` plays no part.
///
/// Each packet that `decode` gave may be written; of one built by hand the lemma `parts_spelled`
/// (proofs/RoundTrip.antt) shows that some text spells it. The one error is `Memory`.
#[tactic(auto, using(crate::proofs::RoundTrip::spelled_reads_back))]
pub fn encode(alloc: Global, packet: &Packet<'_>) -> Result<String, SioFault>
    requires spelled { IsSpelled (packet_view packet.now) }
    ensures form { IfOk result (λ text. string_bytes text ≡ packet_text (packet_view packet.now)) }
    ensures reads_back { IfOk result (λ text. packet_of (string_bytes text)
        ≡ Ok (packet_view packet.now)) }
    ensures memory { IfErr result (λ e. e ≡ Memory) }
{
    Ok(text_of(alloc, packet)?)
}

#[tactic(auto, unfolding(crate::specs::Written::packet_text))]
fn text_of(alloc: Global, packet: &Packet<'_>) -> Result<String, AllocError>
    ensures { IfOk result (λ text. string_bytes text ≡ packet_text (packet_view packet.now)) }
{
    let mut text = String::new(alloc);
    text.push(packet.kind.digit())?;
    push_count(&mut text, packet.kind, packet.attachments)?;
    push_namespace(&mut text, packet.nsp)?;
    push_id(&mut text, packet.id)?;
    if let Some(payload) = packet.payload {
        text.push_str(payload)?;
    }
    Ok(text)
}

/// Puts the count of attachments and a dash at the end, where the kind is binary.
fn push_count(text: &mut String, kind: PacketKind, count: u8) -> Result<(), AllocError>
    ensures { OnOk result (string_bytes text.new
        ≡ string_bytes text.old ++ written_count kind count) }
{
    if kind.is_binary() {
        write!(text, "{count}-")?;
    }
    Ok(())
}

/// Puts the namespace and a comma at the end, unless it is the main one.
fn push_namespace(text: &mut String, nsp: &str) -> Result<(), AllocError>
    ensures { OnOk result (string_bytes text.new
        ≡ string_bytes text.old ++ written_namespace nsp.now) }
{
    if nsp != MAIN {
        write!(text, "{nsp},")?;
    }
    Ok(())
}

/// Puts the acknowledgement id at the end, if there is one.
fn push_id(text: &mut String, id: Option<u64>) -> Result<(), AllocError>
    ensures { OnOk result (string_bytes text.new ≡ string_bytes text.old ++ written_id id) }
{
    if let Some(id) = id {
        write!(text, "{id}")?;
    }
    Ok(())
}

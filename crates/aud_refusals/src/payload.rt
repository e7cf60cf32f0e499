//! What is wrong with a payload that is refused.
ghost use Rattle.std.specs.Prelude.{◌≡◌, IfOk, option_map};
ghost use Rattle.std.specs.Option.{option_copied};
ghost use Rattle.aud_eio.specs.Packet.{engine_view};
ghost use Rattle.aud_sio.specs.Digits.{after_digits, digit_count};
ghost use Rattle.aud_sio.specs.Namespace.{leading_namespace};
ghost use Rattle.aud_refusals.specs.NoPacket.{after_type, message_in, message_of, payload_fault, payload_of, told, told_refusal};

use crate::no_json::{is_json, no_json};
use crate::no_packet::{NoPacket, PayloadFault, Refusal};
use aud_eio::Eio;
use aud_rows::packets_of;
use aud_sio::SioFault;
use aud_tap::ClientRec;
use std::alloc::{AllocError, Global};

/// What follows the type, and the count of attachments where the type has one.
fn after_type(text: &str) -> &str
    ensures { result.now ≡ after_type text.now }
{
    let Some(first) = text.as_bytes().first() else {
        return "";
    };
    if *first >= 128 {
        return "";
    }
    let rest = text.split_at(1).1;
    if *first == b'5' || *first == b'6' {
        return match rest.split_once('-') {
            Some((_, rest)) => rest,
            None => "",
        };
    }
    rest
}

#[tactic(auto, unfolding(aud_sio::specs::Namespace::leading_namespace))]
fn after_namespace(text: &str) -> &str
    ensures { result.now ≡ (leading_namespace text.now).1 }
{
    match text.as_bytes().first() {
        Some(b'/') => match text.split_once(',') {
            Some((_, rest)) => rest,
            None => "",
        },
        _ => text,
    }
}

fn digit_count(bytes: &[u8]) -> usize
    ensures { result ≡ digit_count bytes.now }
{
    bytes
        .iter()
        .take_while(|byte| byte.is_ascii_digit())
        .count()
}

fn after_digits(text: &str) -> &str
    ensures { result.now ≡ after_digits text.now }
{
    text.split_at(digit_count(text.as_bytes())).1
}

/// The payload of a packet.
fn payload_of(text: &str) -> &str
    ensures { result.now ≡ payload_of text.now }
{
    after_digits(after_namespace(after_type(text)))
}

/// Why a payload is not what the kind wants, where it is refused.
fn payload_fault(alloc: Global, payload: &str) -> Result<PayloadFault, AllocError>
    ensures { IfOk result (λ fault. fault ≡ payload_fault payload.now) }
{
    if payload.is_empty() {
        return Ok(PayloadFault::Missing);
    }
    if is_json(alloc, payload.as_bytes())? {
        return Ok(PayloadFault::NoList);
    }
    Ok(PayloadFault::NoJson(no_json(alloc, payload)?))
}

/// The message of the record's packet with this number.
fn message_of(alloc: Global, rec: &ClientRec, number: usize) -> Result<Option<&str>, AllocError>
    ensures { IfOk result (λ message. option_map (λ s. s.now) message ≡ message_of rec.now number) }
{
    let Some(packets) = packets_of(alloc, rec)? else {
        return Ok(None);
    };
    Ok(message_in(packets.get(number.saturating_sub(1))))
}

fn message_in<'a>(packet: Option<&Eio<'a>>) -> Option<&'a str>
    ensures { option_map (λ s. s.now) result
        ≡ message_in (option_map engine_view (option_copied packet.entry)) }
{
    match packet {
        Some(Eio::Message(text)) => Some(*text),
        _ => None,
    }
}

/// The refusal of a message; of its payload what is wrong with that.
fn told_refusal(
    alloc: Global,
    refusal: Refusal,
    message: Option<&str>,
) -> Result<Refusal, AllocError>
    ensures { IfOk result (λ told. told
        ≡ told_refusal refusal (option_map (λ s. s.now) message.entry)) }
{
    match (refusal, message) {
        (Refusal::Socket(SioFault::Payload), Some(message)) => {
            let fault = payload_fault(alloc, payload_of(message))?;
            Ok(Refusal::Payload(fault))
        }
        _ => Ok(refusal),
    }
}

/// The refusal of the record; of a payload what is wrong with it.
pub(crate) fn told(alloc: Global, rec: &ClientRec, found: NoPacket) -> Result<NoPacket, AllocError>
    ensures { IfOk result (λ said. said ≡ told rec.now found) }
{
    let message = match found.packet {
        Some(number) => message_of(alloc, rec, number)?,
        None => None,
    };
    let refusal = told_refusal(alloc, found.refusal, message)?;
    match rec {
        ClientRec::Poll { .. } => Ok(NoPacket {
            refusal,
            packet: found.packet,
        }),
        _ => Ok(NoPacket {
            refusal,
            packet: None,
        }),
    }
}

//! The packet of a text, and the text of a packet.
ghost use Rattle.std.specs.Prelude.{◌≡◌, ◌<◌, ◌++◌, ◌∷◌, OnSome, option_map, ok_or, slice_index, string_bytes, length, drop, IfOk, IfErr, OnOk};
ghost use Rattle.base64.specs.GeneralPurpose.{decode_of, encode_of};
ghost use Rattle.base64.specs.Engines.{standard};
ghost use Rattle.aud_eio.specs.Answer.{Gives};
ghost use Rattle.aud_eio.specs.Packet.{Packet, engine_view, control_of, digit_of, base64_bytes, engine_packet_of, engine_text, delivered};
ghost use Rattle.aud_eio.specs.Private.ReadBack.{ReadsBack};

use crate::{Control, Eio, EioFault};
use base64::DecodeAllocError;
use base64::engine::general_purpose::STANDARD;
use std::alloc::{AllocError, Global};

/// The packet of a text, which it lends (Engine.IO protocol 4, section "Packet encoding"). Over WebSocket each text
/// message is one packet. A `b` packet is read on either transport, and it alone takes memory: the other packets are
/// never refused as `Memory`.
pub fn decode_text(alloc: Global, text: &str) -> Result<Eio<'_>, EioFault>
    ensures packet { Gives engine_view result (engine_packet_of text.now) }
    ensures memory { result ≡ Err EioFault.Memory → slice_index text.now 0 ≡ 98 }
{
    let Some(first) = text.as_bytes().first() else {
        return Err(EioFault::Empty);
    };
    match *first {
        b'4' => Ok(Eio::Message(after_first(text))),
        b'b' => decode_base64(alloc, after_first(text)),
        digit => match control_of(digit) {
            Some(kind) => Ok(Eio::Control(kind, after_first(text))),
            None => Err(EioFault::UnknownType),
        },
    }
}

/// The packet of a binary message of WebSocket, which has no type digit. It lends the bytes.
pub fn decode_binary(bytes: &[u8]) -> Eio<'_>
    ensures { engine_view result ≡ Packet.Lent bytes.now }
{
    Eio::Lent(bytes)
}

/// The text of a packet; bytes are written as `b` and base64, and read back as own bytes. The one error is `Memory`.
pub fn encode_text(alloc: Global, packet: &Eio<'_>) -> Result<String, EioFault>
    ensures text { IfOk result (λ text. string_bytes text ≡ engine_text (engine_view packet.now)) }
    ensures reads_back { IfOk result (λ text. engine_packet_of (string_bytes text)
        ≡ Ok (delivered (engine_view packet.now))) }
    ensures memory { IfErr result (λ e. e ≡ EioFault.Memory) }
{
    let mut text = String::new(alloc);
    push_packet(packet, &mut text)?;
    Ok(text)
}

/// Writes a packet after a text, of which memory may leave a part.
pub(crate) fn push_packet(packet: &Eio<'_>, text: &mut String) -> Result<(), AllocError>
    ensures text { OnOk result (string_bytes text.new
        ≡ string_bytes text.old ++ engine_text (engine_view packet.now)) }
    ensures reads_back { ReadsBack (engine_view packet.now) }
{
    match packet {
        Eio::Control(kind, payload) => push_typed(digit_of(*kind), payload, text),
        Eio::Message(message) => push_typed('4', message, text),
        Eio::Lent(lent) => push_base64(lent, text),
        Eio::Own(own) => push_base64(own.as_slice(), text),
    }
}

fn push_typed(digit: char, payload: &str, text: &mut String) -> Result<(), AllocError>
    requires { digit < 128 }
    ensures { OnOk result (string_bytes text.new ≡ string_bytes text.old ++ digit ∷ payload.now) }
{
    text.push(digit)?;
    text.push_str(payload)
}

fn push_base64(bytes: &[u8], text: &mut String) -> Result<(), AllocError>
    ensures text { OnOk result (string_bytes text.new
        ≡ string_bytes text.old ++ 98 ∷ encode_of standard bytes.now) }
    ensures reads_back { decode_of standard (encode_of standard bytes.now) ≡ Ok bytes.now }
{
    text.push('b')?;
    STANDARD.encode_string(bytes, text)
}

fn decode_base64<'a>(alloc: Global, text: &str) -> Result<Eio<'a>, EioFault>
    ensures { Gives engine_view result (ok_or (option_map Packet.Own
        (base64_bytes text.now)) EioFault.BadBase64) }
{
    match STANDARD.decode(alloc, text.as_bytes()) {
        Ok(bytes) => Ok(Eio::Own(bytes)),
        Err(DecodeAllocError::OutOfMemory) => Err(EioFault::Memory),
        Err(_) => Err(EioFault::BadBase64),
    }
}

/// What follows the first byte, which is ASCII.
fn after_first(text: &str) -> &str
    requires there { 0 < length text.now }
    requires ascii { slice_index text.now 0 < 128 }
    ensures { result.now ≡ drop 1 text.now }
{
    text.split_at(1).1
}

fn control_of(digit: u8) -> Option<Control>
    ensures control { result ≡ control_of digit }
    ensures ascii { OnSome result (digit < 128) }
{
    match digit {
        b'0' => Some(Control::Opening),
        b'1' => Some(Control::Closing),
        b'2' => Some(Control::Ping),
        b'3' => Some(Control::Pong),
        b'5' => Some(Control::Upgrade),
        b'6' => Some(Control::Noop),
        _ => None,
    }
}

fn digit_of(kind: Control) -> char
    ensures digit { result ≡ digit_of kind }
    ensures ascii { result < 128 }
{
    match kind {
        Control::Opening => '0',
        Control::Closing => '1',
        Control::Ping => '2',
        Control::Pong => '3',
        Control::Upgrade => '5',
        Control::Noop => '6',
    }
}

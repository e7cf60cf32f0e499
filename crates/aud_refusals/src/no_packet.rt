//! A refusal, and its words.
ghost use Rattle.std.specs.Prelude.{◌≡◌, ◌++◌, OnOk, string_bytes};
ghost use Rattle.aud_refusals.specs.Words.{engine_text, payload_text, refusal_text, socket_text};

use crate::no_json::{NoJson, push_no_json};
use aud_eio::EioFault;
use aud_sio::SioFault;
use std::alloc::AllocError;

/// Why a record is no packet.
#[derive(Clone, Copy, Drop)]
pub enum Refusal {
    /// It, or a packet of its body, is no Engine.IO packet.
    Engine(EioFault),
    /// A message of it is no Socket.IO packet, or comes where none like it is awaited.
    Socket(SioFault),
    /// The payload of a message is not what the kind wants.
    Payload(PayloadFault),
}

/// Why a payload is not what the kind of its packet wants.
#[derive(Clone, Copy, Drop)]
pub enum PayloadFault {
    /// The kind wants a list, and there is no payload.
    Missing,
    /// The kind wants a list, and the payload is other JSON.
    NoList,
    /// It is no JSON that is read.
    NoJson(NoJson),
}

/// The refusal of a record.
#[derive(Clone, Copy, Drop)]
pub struct NoPacket {
    pub refusal: Refusal,
    /// Of a polling body: the number, from 1, of the packet that is refused.
    pub packet: Option<usize>,
}

fn engine_words(fault: EioFault) -> &'static str
    ensures { result.now ≡ engine_text fault }
{
    match fault {
        EioFault::Empty => "the Engine.IO packet has no byte",
        EioFault::UnknownType => "the first byte is no type of an Engine.IO packet",
        EioFault::BadBase64 => "what follows `b` is not base64",
        EioFault::Memory => "memory could not be had",
    }
}

fn socket_words(fault: SioFault) -> &'static str
    ensures { result.now ≡ socket_text fault }
{
    match fault {
        SioFault::TextWhileBinary => "a text comes where attachments are awaited",
        SioFault::StrayBinary => "bytes come where no attachment is awaited",
        SioFault::Empty => "the Socket.IO packet has no byte",
        SioFault::UnknownType => "the first byte of the message is no type of a Socket.IO packet",
        SioFault::Attachments => "no count of attachments from 0 to 64 follows the type",
        SioFault::AckId => "the acknowledgement id has more than 18 digits",
        SioFault::Payload => "the payload is not the JSON that the kind wants",
        SioFault::Memory => "memory could not be had",
    }
}

fn push_payload(out: &mut String, fault: PayloadFault) -> Result<(), AllocError>
    ensures { OnOk result (string_bytes out.new ≡ string_bytes out.old ++ payload_text fault) }
{
    match fault {
        PayloadFault::Missing => out.push_str("the payload is missing, and the kind wants a list"),
        PayloadFault::NoList => {
            out.push_str("the payload is JSON, and no list, which the kind wants")
        }
        PayloadFault::NoJson(why) => {
            out.push_str("the payload ")?;
            push_no_json(out, why)
        }
    }
}

impl Refusal {
    /// Puts what is refused at the end, in words that may follow a colon. Bytes of a payload count from 1.
    pub fn push_words(self, out: &mut String) -> Result<(), AllocError>
        ensures { OnOk result (string_bytes out.new ≡ string_bytes out.old ++ refusal_text self) }
    {
        match self {
            Refusal::Engine(fault) => out.push_str(engine_words(fault)),
            Refusal::Socket(fault) => out.push_str(socket_words(fault)),
            Refusal::Payload(fault) => push_payload(out, fault),
        }
    }
}

//! The kind of a packet: the digit at the front of its text.
ghost use Rattle.std.specs.Prelude.{◌≡◌, ◌≢◌, ◌<◌, Err, OnOk};
ghost use Rattle.aud_sio.specs.Reading.{Gives};
ghost use Rattle.aud_sio.specs.Kind.{is_binary, kind_at, kind_of_digit, type_digit, wants_array};

use crate::fault::SioFault;

/// The types of the protocol, in the order of their digits, from 0 (Socket.IO protocol 5, section "Packet encoding").
#[derive(Clone, Copy, Debug, PartialEq, Eq, Drop)]
pub enum PacketKind {
    /// Digit 0: a client asks for a namespace, or the server lets it in.
    Connect,
    /// Digit 1.
    Disconnect,
    /// Digit 2.
    Event,
    /// Digit 3: the answer to an event that has an acknowledgement id.
    Ack,
    /// Digit 4: the server doesn't let the client in.
    ConnectError,
    /// Digit 5: an event with attachments.
    BinaryEvent,
    /// Digit 6: an answer with attachments.
    BinaryAck,
}

/// The kind at the front of a text, and the rest.
#[tactic(auto, unfolding(crate::specs::Kind::kind_at))]
pub(crate) fn kind_at(text: &str) -> Result<(PacketKind, &str), SioFault>
    ensures value { Gives (λ read. (read.0, read.1.now)) result (kind_at text.now) }
    ensures memory { result ≢ Err SioFault.Memory }
{
    let Some(first) = text.as_bytes().first() else {
        return Err(SioFault::Empty);
    };
    let kind = kind_of(*first)?;
    Ok((kind, text.split_at(1).1))
}

fn kind_of(byte: u8) -> Result<PacketKind, SioFault>
    ensures value { result ≡ kind_of_digit byte }
    ensures ascii { OnOk result (byte < 128) }
    ensures memory { result ≢ Err SioFault.Memory }
{
    match byte {
        b'0' => Ok(PacketKind::Connect),
        b'1' => Ok(PacketKind::Disconnect),
        b'2' => Ok(PacketKind::Event),
        b'3' => Ok(PacketKind::Ack),
        b'4' => Ok(PacketKind::ConnectError),
        b'5' => Ok(PacketKind::BinaryEvent),
        b'6' => Ok(PacketKind::BinaryAck),
        _ => Err(SioFault::UnknownType),
    }
}

impl PacketKind {
    /// The ASCII digit of this kind.
    pub(crate) fn digit(self) -> char
        ensures value { result ≡ type_digit self }
        ensures ascii { result < 128 }
    {
        match self {
            PacketKind::Connect => '0',
            PacketKind::Disconnect => '1',
            PacketKind::Event => '2',
            PacketKind::Ack => '3',
            PacketKind::ConnectError => '4',
            PacketKind::BinaryEvent => '5',
            PacketKind::BinaryAck => '6',
        }
    }

    /// Whether binary messages follow a packet of this kind.
    pub(crate) fn is_binary(self) -> bool
        ensures { result ≡ is_binary self }
    {
        matches!(self, PacketKind::BinaryEvent | PacketKind::BinaryAck)
    }

    /// Whether the payload has to be there and to be an array.
    pub(crate) fn wants_array(self) -> bool
        ensures { result ≡ wants_array self }
    {
        matches!(
            self,
            PacketKind::Event | PacketKind::Ack | PacketKind::BinaryEvent | PacketKind::BinaryAck
        )
    }
}

//! A packet with its attachments.
ghost use Rattle.std.specs.Prelude.{◌≡◌};
ghost use Rattle.aud_sio.specs.Message.{blob_bytes};
ghost use Rattle.aud_sio.specs.Assembly.{blob_view};

use crate::packet::Packet;

/// An attachment.
#[derive(Drop)]
pub enum Blob<'a> {
    /// It came as bytes, which it lends.
    Lent(&'a [u8]),
    /// It came in base64: the bytes that this spells.
    Own(Vec<u8>),
}

impl<'a> Blob<'a> {
    /// The bytes, borrowed.
    pub fn as_slice(&self) -> &[u8]
        ensures { result.now ≡ blob_bytes (blob_view self.now) }
    {
        match self {
            Blob::Lent(bytes) => bytes,
            Blob::Own(bytes) => bytes.as_slice(),
        }
    }
}

/// A packet, its text, and its attachments in their order.
#[derive(Drop)]
pub struct Whole<'a> {
    /// The text that the packet was read from.
    pub text: &'a str,
    /// The packet, borrowed from that text.
    pub packet: Packet<'a>,
    /// As many as the packet's `attachments`.
    pub bin: Vec<Blob<'a>>,
}

//! A packet that awaits attachments.
ghost use Rattle.std.specs.Prelude.{◌≡◌, ◌<◌, Ok, length};
ghost use Rattle.aud_sio.specs.Packet.{packet_of, packet_view};

use crate::whole::Whole;

/// A packet that has the first of its attachments, and awaits the others.
#[derive(Drop)]
pub(crate) struct Half<'a> {
    pub(crate) whole: Whole<'a>,
    ghost read: { packet_of whole.text.now ≡ Ok (packet_view whole.packet) },
    ghost awaits: { length whole.bin.items < whole.packet.attachments },
}

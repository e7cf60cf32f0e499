//! What an assembler answers to a list of packets.
ghost use Rattle.aud_sio.specs.Calls.{AnswersAreWholes};

/// The answers of a new assembler to any Engine.IO packets are the whole packets of their messages, each at the
/// place of the last message that it consumed: a law of [`Assembler::feed`](crate::Assembler::feed).
pub fn answers_are_wholes()
    ensures { AnswersAreWholes }
{}

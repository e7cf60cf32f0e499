//! The answer on a certificate.
ghost use Rattle.std.specs.Prelude.{◌≡◌};

use aud_cert::CertFault;
use aud_check::{Accepted, Refusal};
use aud_tap::Text;

/// The answer on a certificate.
#[derive(Drop)]
pub enum Answer {
    /// All that this session received was due to it, in order, over the turns that are shown.
    Accepted { pid: Text, counts: Accepted },
    /// The line is not the text of a certificate over these logs.
    Unread(CertFault),
    /// Something that the certificate says is not so.
    Refused(Refusal),
}

/// A certificate by the number of its line, and the answer on it.
#[derive(Drop)]
pub struct Answered {
    pub line: u64,
    pub answer: Answer,
}

impl Answered {
    ghost use Rattle.aud_app.specs.Lines.{is_ok};

    pub fn is_ok(&self) -> bool
        ensures { result ≡ is_ok self.now }
    {
        matches!(&self.answer, Answer::Accepted { .. })
    }
}

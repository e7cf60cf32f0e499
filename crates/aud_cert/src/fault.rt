//! Why a session is not answered yes.
use aud_tap::Text;
use std::fmt;
use thiserror::Error;

/// Why a session is not answered yes: the first of these that holds. docs/MODEL.md says when each does.
#[derive(Drop, Error)]
pub enum Fault {
    /// No node opened the session.
    NoLog,
    /// The session's records in the node logs are not a chain of turns.
    Chain,
    /// A node on which the session was did not take the entries one after the other.
    Order,
    /// No client tap, or several, have a reply that names the session.
    Client,
    /// A reply has another sid or namespace than the session was opened with.
    Names,
    /// A record of the client's tap does not decode.
    Frame,
    /// The client's tap has an event in a stay of which nobody knows the session.
    Orphan,
    /// The event of this offset has another text or other attachments than the entry.
    Content(Text),
    /// The event of this offset was not due.
    Extra(Text),
    /// The event of this offset was received again.
    Doubled(Text),
    /// The event of this offset was received after a later one.
    Swapped(Text),
    /// The event of this offset was not received, though a later one was.
    Lost(Text),
    /// The recovery on the connection with this number asked for another position than it had to.
    Window(u64),
    /// So many events that were due, after the last one received, did not come. Only where the whole is asked for.
    Tail(u64),
}

impl fmt::Display for Fault {
    ghost use Rattle.std.specs.Prelude.{Some};
    ghost use Rattle.aud_cert.specs.Fault.{fault_text};

    ghost output = { λ f. Some (fault_text f) };

    fn fmt<W: fmt::Write>(&self, f: &mut fmt::Formatter<W>) -> fmt::Result {
        let (word, off) = match self {
            Fault::NoLog => return write!(f, "NOLOG"),
            Fault::Chain => return write!(f, "CHAIN"),
            Fault::Order => return write!(f, "ORDER"),
            Fault::Client => return write!(f, "CLIENT"),
            Fault::Names => return write!(f, "NAMES"),
            Fault::Frame => return write!(f, "FRAME"),
            Fault::Orphan => return write!(f, "ORPHAN"),
            Fault::Window(c) => return write!(f, "WINDOW {c}"),
            Fault::Tail(count) => return write!(f, "TAIL {count}"),
            Fault::Content(off) => ("CONTENT", off.as_str()),
            Fault::Extra(off) => ("EXTRA", off.as_str()),
            Fault::Doubled(off) => ("DOUBLED", off.as_str()),
            Fault::Swapped(off) => ("SWAPPED", off.as_str()),
            Fault::Lost(off) => ("LOST", off.as_str()),
        };
        write!(f, "{word} {off}")
    }
}

/// The same words.
impl fmt::Debug for Fault {
    fn fmt<W: fmt::Write>(&self, f: &mut fmt::Formatter<W>) -> fmt::Result {
        fmt::Display::fmt(self, f)
    }
}

//! The classes of faults.
ghost use Rattle.std.specs.Prelude.{◌≡◌};
ghost use Rattle.aud_cert.specs.Class.{class_of};

use crate::fault::Fault;
use std::fmt;

/// What a fault is about, and so who has to look at it.
#[derive(Clone, Copy, Debug, PartialEq, Eq, Drop)]
pub enum Class {
    /// The client did not receive what was due to it, or asked for another recovery than it had to.
    Delivery,
    /// The client's tap has a record that is no packet, or an event of which nobody knows the session.
    Packets,
    /// The taps contradict each other, or lack something: the delivery was not judged.
    Recording,
}

impl fmt::Display for Class {
    ghost use Rattle.std.specs.Prelude.{Some};
    ghost use Rattle.aud_cert.specs.Class.{class_text};

    ghost output = { λ class. Some (class_text class) };

    fn fmt<W: fmt::Write>(&self, f: &mut fmt::Formatter<W>) -> fmt::Result {
        match self {
            Class::Delivery => write!(f, "delivery"),
            Class::Packets => write!(f, "packets"),
            Class::Recording => write!(f, "recording"),
        }
    }
}

/// The class of the fault.
pub fn class_of(fault: &Fault) -> Class
    ensures { result ≡ class_of fault.now }
{
    match fault {
        Fault::NoLog => Class::Recording,
        Fault::Chain => Class::Recording,
        Fault::Order => Class::Recording,
        Fault::Client => Class::Recording,
        Fault::Names => Class::Recording,
        Fault::Frame => Class::Packets,
        Fault::Orphan => Class::Packets,
        _ => Class::Delivery,
    }
}

//! The words of faults.
ghost use Rattle.std.specs.Prelude.{◌≡◌};
ghost use Rattle.aud_cert.specs.FaultWord.{fault_word};

use crate::fault::Fault;

/// The fault's word, without the offset, the connection or the count that it is about.
pub fn fault_word(fault: &Fault) -> &'static str
    ensures { result.now ≡ fault_word fault.now }
{
    match fault {
        Fault::NoLog => "NOLOG",
        Fault::Chain => "CHAIN",
        Fault::Order => "ORDER",
        Fault::Client => "CLIENT",
        Fault::Names => "NAMES",
        Fault::Frame => "FRAME",
        Fault::Orphan => "ORPHAN",
        Fault::Content(_) => "CONTENT",
        Fault::Extra(_) => "EXTRA",
        Fault::Doubled(_) => "DOUBLED",
        Fault::Swapped(_) => "SWAPPED",
        Fault::Lost(_) => "LOST",
        Fault::Window(_) => "WINDOW",
        Fault::Tail(_) => "TAIL",
    }
}

//! What makes status 1.
ghost use Rattle.std.specs.Prelude.{◌≡◌};
ghost use Rattle.std.specs.List.{list_all};
ghost use Rattle.aud_cli.specs.FailOn.{fail_on_named, fails, is_finding};
ghost use Rattle.aud_cli.specs.Names.{names_in};

use crate::faults::{Faults, NO_FAULTS, faults_in, is_fault};
use crate::names::has_name;
use aud_cert::{Class, Fault, class_of};

/// The names that `--fail-on` may list.
pub const FINDINGS: [&str; 19] = [
    "delivery",
    "packets",
    "recording",
    "refused",
    "nothing",
    "NOLOG",
    "CHAIN",
    "ORDER",
    "CLIENT",
    "NAMES",
    "FRAME",
    "ORPHAN",
    "CONTENT",
    "EXTRA",
    "DOUBLED",
    "SWAPPED",
    "LOST",
    "WINDOW",
    "TAIL",
];

/// What makes the exit status 1.
#[derive(Clone, Copy, Drop)]
pub struct FailOn {
    /// A session that is answered no with a fault of the class *delivery*.
    pub delivery: bool,
    /// The same of the class *packets*.
    pub packets: bool,
    /// The same of the class *recording*.
    pub recording: bool,
    /// The same with one of these faults.
    pub faults: Faults,
    /// A recovery that was refused, also where all sessions are answered yes.
    pub refused: bool,
    /// That nothing could be judged: no session was recorded, or no entry that is sent again after a recovery.
    pub nothing: bool,
}

/// What makes status 1 where the arguments don't say: any session that is answered no, as for an audit.
pub const EVERY_CLASS: FailOn = FailOn {
    delivery: true,
    packets: true,
    recording: true,
    faults: NO_FAULTS,
    refused: false,
    nothing: false,
};

impl FailOn {
    /// Whether a session that is answered no with this fault makes status 1.
    pub fn fails(self, fault: &Fault) -> bool
        ensures { result ≡ fails self fault.now }
    {
        let of_class = match class_of(fault) {
            Class::Delivery => self.delivery,
            Class::Packets => self.packets,
            Class::Recording => self.recording,
        };
        of_class || self.faults.has(fault)
    }
}

/// Whether this names a class, or is the word of a fault, `refused` or `nothing`.
fn is_finding(name: &str) -> bool
    ensures { result ≡ is_finding name.now }
{
    is_fault(name)
        || matches!(
            name,
            "delivery" | "packets" | "recording" | "refused" | "nothing"
        )
}

/// Whether each name of the list is one of these.
fn are_findings(list: &str) -> bool
    ensures { result ≡ list_all is_finding (names_in list.now) }
{
    list.split(',').all(|part| is_finding(part))
}

/// What `--fail-on` says with this list.
pub fn fail_on_named(list: &str) -> Option<FailOn>
    ensures { result ≡ fail_on_named list.now }
{
    if !are_findings(list) {
        return None;
    }
    Some(FailOn {
        delivery: has_name(list, "delivery"),
        packets: has_name(list, "packets"),
        recording: has_name(list, "recording"),
        faults: faults_in(list),
        refused: has_name(list, "refused"),
        nothing: has_name(list, "nothing"),
    })
}

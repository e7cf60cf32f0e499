//! Which sessions are shown.
ghost use Rattle.std.specs.Prelude.{◌≡◌};
ghost use Rattle.aud_cli.specs.Only.{class_named, only_named, shows, shows_refused};

use crate::faults::{Faults, faults_in, is_fault};
use aud_cert::{Class, Fault, class_of};

/// What `--only` may say.
pub const SHOWN: [&str; 18] = [
    "no",
    "delivery",
    "packets",
    "recording",
    "NOLOG",
    "CHAIN",
    "ORDER",
    "CLIENT",
    "NAMES",
    "FRAME",
    "ORPHAN",
    "CONTENT",
    "EXTRA",
    "DOUBLED",
    "SWAPPED",
    "LOST",
    "WINDOW",
    "TAIL",
];

/// Which of the sessions that have something to explain are shown.
#[derive(Clone, Copy, Drop)]
pub enum Only {
    /// Those that are answered no.
    No,
    /// Those of this class.
    Of(Class),
    /// Those with one of these faults.
    With(Faults),
}

/// The class of this name.
pub fn class_named(name: &str) -> Option<Class>
    ensures { result ≡ class_named name.now }
{
    match name {
        "delivery" => Some(Class::Delivery),
        "packets" => Some(Class::Packets),
        "recording" => Some(Class::Recording),
        _ => None,
    }
}

/// What `--only` says with this value.
pub fn only_named(name: &str) -> Option<Only>
    ensures { result ≡ only_named name.now }
{
    if name == "no" {
        return Some(Only::No);
    }
    if is_fault(name) {
        return Some(Only::With(faults_in(name)));
    }
    let class = class_named(name)?;
    Some(Only::Of(class))
}

impl Only {
    /// Whether a session that is answered no with this fault is shown.
    pub fn shows(self, fault: &Fault) -> bool
        ensures { result ≡ shows self fault.now }
    {
        match self {
            Only::No => true,
            Only::Of(class) => class == class_of(fault),
            Only::With(faults) => faults.has(fault),
        }
    }

    /// Whether a session that is answered yes, and of which a recovery was refused, is shown: it is of the class
    /// *delivery*.
    pub fn shows_refused(self) -> bool
        ensures { result ≡ shows_refused self }
    {
        matches!(self, Only::Of(Class::Delivery))
    }
}

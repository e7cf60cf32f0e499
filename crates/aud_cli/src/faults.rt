//! Faults by their words.
ghost use Rattle.std.specs.Prelude.{◌≡◌};
ghost use Rattle.aud_cli.specs.Faults.{faults_in, has_fault, is_fault};
ghost use Rattle.aud_cli.specs.Names.{names_in};

use crate::names::has_name;
use aud_cert::Fault;

/// Some of the faults that an explanation can be of. A tail is one where the whole is asked for alone.
#[derive(Clone, Copy, Drop)]
pub struct Faults {
    pub no_log: bool,
    pub chain: bool,
    pub order: bool,
    pub client: bool,
    pub names: bool,
    pub frame: bool,
    pub orphan: bool,
    pub content: bool,
    pub extra: bool,
    pub doubled: bool,
    pub swapped: bool,
    pub lost: bool,
    pub window: bool,
    pub tail: bool,
}

/// None of them.
pub const NO_FAULTS: Faults = Faults {
    no_log: false,
    chain: false,
    order: false,
    client: false,
    names: false,
    frame: false,
    orphan: false,
    content: false,
    extra: false,
    doubled: false,
    swapped: false,
    lost: false,
    window: false,
    tail: false,
};

impl Faults {
    /// Whether this fault is one of them.
    pub fn has(self, fault: &Fault) -> bool
        ensures { result ≡ has_fault self fault.now }
    {
        match fault {
            Fault::NoLog => self.no_log,
            Fault::Chain => self.chain,
            Fault::Order => self.order,
            Fault::Client => self.client,
            Fault::Names => self.names,
            Fault::Frame => self.frame,
            Fault::Orphan => self.orphan,
            Fault::Content(_) => self.content,
            Fault::Extra(_) => self.extra,
            Fault::Doubled(_) => self.doubled,
            Fault::Swapped(_) => self.swapped,
            Fault::Lost(_) => self.lost,
            Fault::Window(_) => self.window,
            Fault::Tail(_) => self.tail,
        }
    }
}

/// Whether this is the word of one of them.
pub fn is_fault(name: &str) -> bool
    ensures { result ≡ is_fault name.now }
{
    matches!(name, "NOLOG" | "CHAIN" | "ORDER" | "CLIENT" | "NAMES")
        || matches!(name, "FRAME" | "ORPHAN")
        || matches!(
            name,
            "CONTENT" | "EXTRA" | "DOUBLED" | "SWAPPED" | "LOST" | "WINDOW" | "TAIL"
        )
}

/// Those whose words are in the list.
pub fn faults_in(list: &str) -> Faults
    ensures { result ≡ faults_in (names_in list.now) }
{
    Faults {
        no_log: has_name(list, "NOLOG"),
        chain: has_name(list, "CHAIN"),
        order: has_name(list, "ORDER"),
        client: has_name(list, "CLIENT"),
        names: has_name(list, "NAMES"),
        frame: has_name(list, "FRAME"),
        orphan: has_name(list, "ORPHAN"),
        content: has_name(list, "CONTENT"),
        extra: has_name(list, "EXTRA"),
        doubled: has_name(list, "DOUBLED"),
        swapped: has_name(list, "SWAPPED"),
        lost: has_name(list, "LOST"),
        window: has_name(list, "WINDOW"),
        tail: has_name(list, "TAIL"),
    }
}

//! Which logs wait for what.
ghost use Rattle.std.specs.Prelude.{◌≡◌, ◌++◌, ◌∷◌, [], ℕ, OnOk, Some, false, true, nat_eq};
ghost use Rattle.std.specs.List.{list_any};
ghost use Rattle.std.specs.Option.{option_map_or};
ghost use Rattle.aud_merge.specs.Private.Causes.{Cause, awaited, cause_seen, is_same};

use crate::cause::{Cause, awaited};
use crate::step::Step;
use aud_node::Logs;
use std::alloc::{AllocError, Global};
use std::collections::BTreeMap;

/// The logs that wait, by what they wait for; a log is named by its tap's place.
#[derive(Drop)]
pub(crate) struct Waiting<'a> {
    alloc: Global,
    by_cause: BTreeMap<(&'a str, u32), Vec<usize>>,
}

impl<'a> Waiting<'a> {
    ghost use Rattle.aud_merge.specs.Private.Waiting.{waiters};

    /// No log waits.
    pub(crate) fn new(alloc: Global) -> Waiting<'a>
        ensures { (cause : Cause) → waiters result cause ≡ [] }
    {
        Waiting {
            alloc,
            by_cause: BTreeMap::new(alloc),
        }
    }

    /// The log of the record, which isn't allowed, waits for what can make it so.
    pub(crate) fn wait(&mut self, logs: &Logs<'a>, step: Step) -> Result<(), AllocError>
        ensures waits { OnOk result ((cause : Cause) → awaited logs.now step ≡ Some cause
            → list_any (nat_eq step.log) (waiters self.new cause) ≡ true) }
        ensures more { OnOk result ((place : ℕ) (cause : Cause)
            → list_any (nat_eq place) (waiters self.old cause) ≡ true
            → list_any (nat_eq place) (waiters self.new cause) ≡ true) }
    {
        let Some(cause) = awaited(logs, step) else {
            return Ok(());
        };
        self.add(cause, step.log)?;
        Ok(())
    }

    /// The log waits for this too.
    fn add(&mut self, cause: Cause<'a>, place: usize) -> Result<(), AllocError>
        ensures added { OnOk result (waiters self.new (cause_seen cause.entry)
            ≡ waiters self.old (cause_seen cause.entry) ++ place ∷ []) }
        ensures others { OnOk result ((other : Cause)
            → is_same (cause_seen cause.entry) other ≡ false
            → waiters self.new other ≡ waiters self.old other) }
    {
        let mut places = match self.by_cause.remove(&cause) {
            Some(places) => places,
            None => Vec::new(self.alloc),
        };
        places.push(place)?;
        self.by_cause.insert(cause, places)?;
        Ok(())
    }

    /// The logs that wait for this, which wait no longer.
    pub(crate) fn remove(&mut self, cause: Cause<'a>) -> Option<Vec<usize>>
        ensures were { option_map_or (λ places. places.items) result []
            ≡ waiters self.old (cause_seen cause.entry) }
        ensures others { (other : Cause) → is_same (cause_seen cause.entry) other ≡ false
            → waiters self.new other ≡ waiters self.old other }
    {
        self.by_cause.remove(&cause)
    }
}

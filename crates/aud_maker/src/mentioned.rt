//! Sessions in the order of their first mentions.
ghost use Rattle.std.specs.Prelude.{◌≡◌, IfOk, OnOk, [], map, string_bytes};
ghost use Rattle.aud_base.specs.FirstTexts.{with_text};

use indexmap::IndexSet;
use std::alloc::{AllocError, Global};
use std::hash::RandomState;
use std::marker::Model;

/// The pids of sessions, each once, in the order of their first mentions; seen as their list.
#[derive(Drop)]
pub(crate) struct Mentioned {
    alloc: Global,
    pids: IndexSet<String, RandomState>,
}

impl Model for Mentioned {
    ghost use Rattle.std.specs.Prelude.{List, ℕ, map, string_bytes};

    ghost Value = { List (List ℕ) };

    ghost view = { λ m. map string_bytes m.pids.keys };
}

impl Mentioned {
    /// None yet; the pids will be hashed with these keys.
    pub(crate) fn new(alloc: Global, keys: RandomState) -> Mentioned
        ensures { result ≡ [] }
    {
        Mentioned {
            alloc,
            pids: IndexSet::with_hasher(alloc, keys),
        }
    }

    /// The session is mentioned; one that was before keeps its place.
    pub(crate) fn mention(&mut self, pid: &str) -> Result<(), AllocError>
        ensures { OnOk result (self.new ≡ with_text self.old pid.now) }
    {
        if self.pids.contains(pid) {
            return Ok(());
        }
        let owned = String::from_str(self.alloc, pid)?;
        self.pids.insert(owned)?;
        Ok(())
    }

    /// The pids.
    pub(crate) fn into_pids(self) -> Result<Vec<String>, AllocError>
        ensures { IfOk result (λ pids. map string_bytes pids.items ≡ self) }
    {
        Ok(self.pids.into_iter().collect(self.alloc)?)
    }
}

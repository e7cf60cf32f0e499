//! The choice of the next step, again and again.
ghost use Rattle.std.specs.Prelude.{◌≡◌, ◌<◌, ◌||◌, ℕ, true, false, IfNone, IfOk, IfSome, IsSome, OnOk, Some, length, nat_eq};
ghost use Rattle.std.specs.List.{list_any};
ghost use Rattle.std.specs.Ordering.{nat_cmp};
ghost use Rattle.std.specs.BTreeSet.{btree_set_len, contains};
ghost use Rattle.aud_merge.specs.Machine.{after, start};
ghost use Rattle.aud_merge.specs.Runs.{front};
ghost use Rattle.aud_merge.specs.Order.{first_allowed};
ghost use Rattle.aud_merge.specs.Private.Causes.{Cause, cause_seen, is_same};
ghost use Rattle.aud_merge.specs.Private.Waiting.{waiters};

use crate::cause::{Cause, told};
use crate::machine::{allowed, apply};
use crate::state::State;
use crate::step::Step;
use crate::waiting::Waiting;
use aud_node::Logs;
use std::alloc::{AllocError, Global};
use std::collections::BTreeSet;

/// A state of the cluster, and the logs whose next record may be allowed in it. Each other log's next record isn't, and
/// the log waits for what can make it so.
#[derive(Drop)]
pub(crate) struct Walk<'a> {
    pub(crate) state: State<'a>,
    /// The places of the logs whose next record may be allowed.
    awake: BTreeSet<usize>,
    waiting: Waiting<'a>,
}

impl<'a> Walk<'a> {
    ghost use Rattle.aud_merge.specs.Private.Asleep.{AreAsleep};

    /// Nothing was taken, and every log is to be looked at.
    pub(crate) fn new(alloc: Global, logs: &Logs<'a>) -> Result<Walk<'a>, AllocError>
        ensures state { IfOk result (λ walk. walk.state ≡ start logs.now) }
        ensures asleep { IfOk result (AreAsleep logs.now) }
    {
        let mut awake = BTreeSet::new(alloc);
        for place in 0..logs.taps().len() {
            awake.insert(place)?;
        }
        Ok(Walk {
            state: State::new(alloc, logs)?,
            awake,
            waiting: Waiting::new(alloc),
        })
    }

    /// The next record of the first log whose next record is allowed. Each log is tried once for each time that it was
    /// woken.
    pub(crate) fn choose(&mut self, logs: &Logs<'a>) -> Result<Option<Step>, AllocError>
        requires { AreAsleep logs.now self.old }
        ensures chosen { IfOk result (λ step. step
            ≡ first_allowed logs.now self.old.state 0 (length logs.now.taps)) }
        ensures state { self.new.state ≡ self.old.state }
        ensures asleep { OnOk result (AreAsleep logs.now self.new) }
    {
        while let Some(log) = self.first_awake() {
            let step = Step {
                log,
                index: self.state.taken(log),
            };
            if allowed(&self.state, logs, &step) {
                return Ok(Some(step));
            }
            self.sleep(logs, step)?;
        }
        Ok(None)
    }

    /// The first log that is to be looked at.
    fn first_awake(&self) -> Option<usize>
        ensures member { IfSome result (λ place. contains nat_cmp self.now.awake place ≡ true) }
        ensures least { IfSome result (λ place. (other : ℕ) → other < place
            → contains nat_cmp self.now.awake other ≡ false) }
        ensures none { IfNone result ((other : ℕ) → contains nat_cmp self.now.awake other ≡ false) }
    {
        self.awake.first().copied()
    }

    /// The log's next record isn't allowed: it waits.
    fn sleep(&mut self, logs: &Logs<'a>, step: Step) -> Result<(), AllocError>
        requires asleep { AreAsleep logs.now self.old }
        requires awake { contains nat_cmp self.old.awake step.log ≡ true }
        requires next { step ≡ front self.old.state step.log }
        requires blocked { after logs.now self.old.state step ≡ None }
        ensures state { self.new.state ≡ self.old.state }
        ensures asleep { OnOk result (AreAsleep logs.now self.new) }
        ensures fewer { OnOk result (btree_set_len self.new.awake < btree_set_len self.old.awake) }
    {
        self.waiting.wait(logs, step)?;
        self.awake.remove(&step.log);
        Ok(())
    }

    /// Takes the step, and wakes the logs that waited for what it tells.
    pub(crate) fn take(&mut self, logs: &Logs<'a>, step: Step) -> Result<(), AllocError>
        requires asleep { AreAsleep logs.now self.old }
        requires allowed { IsSome (after logs.now self.old.state step) }
        ensures state { OnOk result (after logs.now self.old.state step ≡ Some self.new.state) }
        ensures asleep { OnOk result (AreAsleep logs.now self.new) }
    {
        apply(&mut self.state, logs, &step)?;
        let Some(cause) = told(logs, step) else {
            return Ok(());
        };
        self.wake(cause)?;
        Ok(())
    }

    /// The logs that wait for this are to be looked at again.
    fn wake(&mut self, cause: Cause<'a>) -> Result<(), AllocError>
        ensures state { self.new.state ≡ self.old.state }
        ensures awake { OnOk result ((place : ℕ)
            → contains nat_cmp self.new.awake place
            ≡ (contains nat_cmp self.old.awake place
            || list_any (nat_eq place) (waiters self.old.waiting (cause_seen cause.entry)))) }
        ensures waiting { (other : Cause) → is_same (cause_seen cause.entry) other ≡ false
            → waiters self.new.waiting other ≡ waiters self.old.waiting other }
    {
        let Some(places) = self.waiting.remove(cause) else {
            return Ok(());
        };
        for place in &places {
            self.awake.insert(*place)?;
        }
        Ok(())
    }
}

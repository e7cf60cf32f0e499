//! The recoveries that clients asked for, by session.
ghost use Rattle.std.specs.Prelude.{◌≡◌, IfOk, false, slice_get};
ghost use Rattle.std.specs.List.{filter};
ghost use Rattle.std.specs.Option.{option_map, option_map_or};
ghost use Rattle.aud_base.specs.Places.{places_of};
ghost use Rattle.aud_node.specs.Cluster.{Cluster};
ghost use Rattle.aud_node.specs.Stream.{Text};
ghost use Rattle.aud_session_facts.specs.Recoveries.{is_refused};
ghost use Rattle.aud_explain_app.specs.Asked.{AreAsked, asked_for, has_refused, is_one_refused, numbers_for, pid_asked};

use aud_base::Places;
use aud_client::Recording;
use aud_session_facts::{Recovery, recoveries, stay_of};
use std::alloc::{AllocError, Global};
use std::hash::RandomState;

/// The recoveries that clients asked for.
#[derive(Drop)]
pub struct Asked {
    /// All of them, client after client.
    pub all: Vec<Recovery>,
    /// Of each session that was asked for, the numbers of these recoveries, from 0 on.
    pub numbers: Places,
}

impl Asked {
    /// Those of the recording. Sessions are looked up by these keys.
    pub fn read(
        alloc: Global,
        keys: RandomState,
        recording: &Recording<'_>,
    ) -> Result<Asked, AllocError>
        ensures { IfOk result (AreAsked recording.now) }
    {
        let all = recoveries(alloc, recording)?;
        let numbers = numbers_by_session(recording, alloc, keys, &all)?;
        Ok(Asked { all, numbers })
    }

    /// Whether a recovery of the session was refused.
    pub fn is_refused(&self, pid: &str) -> bool
        ensures { (c : Cluster) → AreAsked c self.now → result ≡ has_refused c pid.now }
    {
        is_one_refused(&self.all, self.numbers.of(pid))
    }

    /// The recoveries of the session.
    pub fn of(&self, alloc: Global, pid: &str) -> Result<Vec<Recovery>, AllocError>
        ensures { (c : Cluster) → AreAsked c self.now
            → IfOk result (λ found. found.items ≡ asked_for c pid.now) }
    {
        let mut found = Vec::new(alloc);
        for number in self.numbers.of(pid) {
            if let Some(recovery) = self.all.get(*number) {
                found.push(*recovery)?;
            }
        }
        Ok(found)
    }
}

/// Whether one of the recoveries with these numbers was refused.
fn is_one_refused(all: &[Recovery], numbers: &[usize]) -> bool
    ensures { result ≡ is_one_refused all.now numbers.now }
{
    for number in numbers {
        if is_refused_at(all, *number) {
            return true;
        }
    }
    false
}

fn is_refused_at(all: &[Recovery], number: usize) -> bool
    ensures { result ≡ option_map_or is_refused (slice_get all.now number) false }
{
    match all.get(number) {
        Some(recovery) => !recovery.granted,
        None => false,
    }
}

/// Those of the recoveries that were refused.
pub(crate) fn refused_among(alloc: Global, asked: &[Recovery]) -> Result<Vec<Recovery>, AllocError>
    ensures { IfOk result (λ found. found.items ≡ filter is_refused asked.now) }
{
    asked
        .iter()
        .copied()
        .filter(|recovery| !recovery.granted)
        .collect(alloc)
}

/// Of each session the numbers of those of the recoveries that are of it.
fn numbers_by_session(
    recording: &Recording<'_>,
    alloc: Global,
    keys: RandomState,
    all: &[Recovery],
) -> Result<Places, AllocError>
    ensures { IfOk result (λ numbers. (pid : Text)
        → places_of numbers pid ≡ numbers_for recording.now all.now pid) }
{
    let mut numbers = Places::new(alloc, keys);
    for (number, recovery) in all.iter().enumerate() {
        if let Some(pid) = asked_pid(recording, recovery) {
            numbers.note(number, pid)?;
        }
    }
    Ok(numbers)
}

/// The session that was asked for.
pub(crate) fn asked_pid<'r>(recording: &'r Recording<'_>, recovery: &Recovery) -> Option<&'r str>
    ensures { option_map (λ pid. pid.now) result ≡ pid_asked recording.now recovery.now }
{
    let asked = stay_of(recording, recovery)?.asked.as_ref()?;
    Some(asked.pid.as_str())
}

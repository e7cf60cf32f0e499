//! The sessions that clients asked for in vain and that no record names.
ghost use Rattle.std.specs.Prelude.{[], ◌∷◌, OnOk, option_to_list};
ghost use Rattle.aud_explain_app.specs.Chosen.{IsIndex};
ghost use Rattle.aud_explain_app.specs.Strangers.{AreAdded, asked_in_vain, pid_in_vain};

use crate::asked::asked_pid;
use crate::chosen::index_of;
use aud_base::Places;
use aud_client::Recording;
use aud_session_facts::Recovery;
use aud_tap::Text;
use aud_verdict::{SessionVerdict, decide};
use std::alloc::{AllocError, Global};
use std::hash::RandomState;

/// Adds the verdicts on those of these recoveries' sessions, with or without the whole, each once, in the order in which
/// they were first asked for. Sessions are looked up by these keys.
pub(crate) fn add_strangers(
    recording: &Recording<'_>,
    alloc: Global,
    keys: RandomState,
    whole: bool,
    recoveries: &[Recovery],
    sessions: &mut Vec<SessionVerdict>,
) -> Result<(), AllocError>
    ensures { OnOk result (AreAdded recording.now whole
        (asked_in_vain recording.now recoveries.now) sessions.old.items sessions.new.items) }
{
    let mut index = index_of(alloc, keys, sessions)?;
    for recovery in recoveries {
        add_stranger(recording, alloc, whole, &mut index, recovery, sessions)?;
    }
    Ok(())
}

/// Adds the verdict on the session that was asked for, if that was in vain and it has none yet.
fn add_stranger(
    recording: &Recording<'_>,
    alloc: Global,
    whole: bool,
    index: &mut Places,
    recovery: &Recovery,
    sessions: &mut Vec<SessionVerdict>,
) -> Result<(), AllocError>
    requires { IsIndex index.old sessions.old.items }
    ensures index { OnOk result (IsIndex index.new sessions.new.items) }
    ensures added { OnOk result (AreAdded recording.now whole
        (option_to_list (pid_in_vain recording.now recovery.now)) sessions.old.items
        sessions.new.items) }
{
    if recovery.granted {
        return Ok(());
    }
    match asked_pid(recording, recovery) {
        Some(pid) => add_unknown(recording, alloc, whole, index, pid, sessions),
        None => Ok(()),
    }
}

/// Adds the verdict on this session, if it has none yet.
fn add_unknown(
    recording: &Recording<'_>,
    alloc: Global,
    whole: bool,
    index: &mut Places,
    pid: &str,
    sessions: &mut Vec<SessionVerdict>,
) -> Result<(), AllocError>
    requires { IsIndex index.old sessions.old.items }
    ensures index { OnOk result (IsIndex index.new sessions.new.items) }
    ensures added { OnOk result (AreAdded recording.now whole
        (pid.now ∷ []) sessions.old.items sessions.new.items) }
{
    if !index.of(pid).is_empty() {
        return Ok(());
    }
    index.note(sessions.len(), pid)?;
    let name = Text::new(alloc, pid)?;
    let verdict = decide(alloc, recording, pid, whole)?;
    sessions.push(SessionVerdict { pid: name, verdict })?;
    Ok(())
}

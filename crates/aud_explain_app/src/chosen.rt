//! The sessions that are shown.
ghost use Rattle.std.specs.Prelude.{◌≡◌, ◌++◌, ℕ, IfOk, OnOk, Err, None, Some, [], map, not, if◌then◌else◌};
ghost use Rattle.std.specs.List.{list_any};
ghost use Rattle.std.specs.Option.{option_copied};
ghost use Rattle.std.specs.Str.{bytes_eq};
ghost use Rattle.aud_base.specs.FirstTexts.{with_text};
ghost use Rattle.aud_base.specs.Places.{texts_of};
ghost use Rattle.aud_node.specs.Cluster.{Cluster};
ghost use Rattle.aud_explain_app.specs.Asked.{AreAsked};
ghost use Rattle.aud_explain_app.specs.Chosen.{IsIndex, left_out_of, pids_left_out, session_of, sessions_chosen, sessions_named, sessions_told, within_of};
ghost use Rattle.aud_explain_app.specs.Missing.{first_missing};
ghost use Rattle.aud_explain_app.specs.Output.{pids_in};
ghost use Rattle.aud_explain_app.specs.Strangers.{pids_of};
ghost use Rattle.aud_explain_app.specs.declared.fault.Unexplained.TheVariants.{NoSession};

use crate::asked::Asked;
use crate::fault::Unexplained;
use crate::shown::{is_told, is_within};
use aud_base::Places;
use aud_cli::{ExplainOptions, Only};
use aud_tap::Text;
use aud_verdict::SessionVerdict;
use std::alloc::{AllocError, Global};
use std::hash::RandomState;

/// Which sessions are shown.
#[derive(Drop)]
pub(crate) struct ChosenSessions<'s, 'o> {
    pub(crate) shown: Vec<&'s SessionVerdict>,
    /// The pids of the words whose sessions aren't, since `--only` leaves them out.
    pub(crate) left_out: Vec<&'o str>,
}

/// Those of the sessions that are shown: those that the words name, each once, in their order, or all that have
/// something to explain. The first pid of no session is the fault. Sessions are looked up by these keys.
pub(crate) fn chosen<'s, 'o>(
    alloc: Global,
    keys: RandomState,
    options: &'o ExplainOptions,
    asked: &Asked,
    sessions: &'s [SessionVerdict],
) -> Result<ChosenSessions<'s, 'o>, Unexplained>
    ensures chosen { (c : Cluster) → AreAsked c asked.now
        → IfOk result (λ found. map (λ s. s.now) found.shown.items
        ≡ sessions_chosen c options.now.only options.now.pids sessions.now) }
    ensures left_out { (c : Cluster) → AreAsked c asked.now
        → IfOk result (λ found. pids_in found.left_out.items
        ≡ pids_left_out c options.now.only sessions.now options.now.pids) }
    ensures none_missing { OnOk result (first_missing (pids_of sessions.now) options.now.pids
        ≡ None) }
    ensures missing { (number : ℕ) → result ≡ Err (NoSession number)
        → first_missing (pids_of sessions.now) options.now.pids ≡ Some number }
{
    let pids = options.pids.as_slice();
    if pids.is_empty() {
        return Ok(ChosenSessions {
            shown: told(alloc, options.only, asked, sessions)?,
            left_out: Vec::new(alloc),
        });
    }
    let index = index_of(alloc, keys, sessions)?;
    named(alloc, keys, options.only, asked, &index, sessions, pids)
}

/// Those that have something to explain.
fn told<'s>(
    alloc: Global,
    only: Option<Only>,
    asked: &Asked,
    sessions: &'s [SessionVerdict],
) -> Result<Vec<&'s SessionVerdict>, AllocError>
    ensures { (c : Cluster) → AreAsked c asked.now
        → IfOk result (λ found. map (λ s. s.now) found.items ≡ sessions_told c only sessions.now) }
{
    let mut found = Vec::new(alloc);
    for session in sessions {
        if is_told(
            only,
            &session.verdict,
            asked.is_refused(session.pid.as_str()),
        ) {
            found.push(session)?;
        }
    }
    Ok(found)
}

/// The numbers of the sessions by their pids.
pub(crate) fn index_of(
    alloc: Global,
    keys: RandomState,
    sessions: &[SessionVerdict],
) -> Result<Places, AllocError>
    ensures { IfOk result (λ index. IsIndex index sessions.now) }
{
    let mut index = Places::new(alloc, keys);
    for (number, session) in sessions.iter().enumerate() {
        index.note(number, session.pid.as_str())?;
    }
    Ok(index)
}

/// The first of the sessions with this pid.
fn session_of<'s>(
    index: &Places,
    sessions: &'s [SessionVerdict],
    pid: &str,
) -> Option<&'s SessionVerdict>
    requires { IsIndex index.now sessions.now }
    ensures { option_copied result ≡ session_of sessions.now pid.now }
{
    match index.of(pid) {
        [] => None,
        [number, ..] => sessions.get(*number),
    }
}

/// Those with these pids, in their order; of a pid that stands several times, the first counts.
fn named<'s, 'o>(
    alloc: Global,
    keys: RandomState,
    only: Option<Only>,
    asked: &Asked,
    index: &Places,
    sessions: &'s [SessionVerdict],
    pids: &'o [Text],
) -> Result<ChosenSessions<'s, 'o>, Unexplained>
    requires { IsIndex index.now sessions.now }
    ensures named { (c : Cluster) → AreAsked c asked.now
        → IfOk result (λ found. map (λ s. s.now) found.shown.items
        ≡ sessions_named c only sessions.now pids.now) }
    ensures left_out { (c : Cluster) → AreAsked c asked.now
        → IfOk result (λ found. pids_in found.left_out.items
        ≡ pids_left_out c only sessions.now pids.now) }
    ensures none_missing { OnOk result (first_missing (pids_of sessions.now) pids.now ≡ None) }
    ensures missing { (number : ℕ) → result ≡ Err (NoSession number)
        → first_missing (pids_of sessions.now) pids.now ≡ Some number }
{
    let mut found = ChosenSessions {
        shown: Vec::new(alloc),
        left_out: Vec::new(alloc),
    };
    let mut seen = Places::new(alloc, keys);
    for (number, pid) in pids.iter().enumerate() {
        let text = pid.as_str();
        let Some(session) = session_of(index, sessions, text) else {
            return Err(Unexplained::NoSession { number });
        };
        push_once(&mut found, &mut seen, only, asked, session, text)?;
    }
    Ok(found)
}

/// Adds the session of this pid, if the pid was not seen before and the session is within what `--only` says; or the
/// pid, where it isn't.
fn push_once<'s, 'o>(
    found: &mut ChosenSessions<'s, 'o>,
    seen: &mut Places,
    only: Option<Only>,
    asked: &Asked,
    session: &'s SessionVerdict,
    pid: &'o str,
) -> Result<(), AllocError>
    ensures seen { OnOk result (texts_of seen.new ≡ with_text (texts_of seen.old) pid.now) }
    ensures found { (c : Cluster) → AreAsked c asked.now
        → OnOk result (map (λ s. s.now) found.new.shown.items
        ≡ map (λ s. s.now) found.old.shown.items
        ++ (if list_any (bytes_eq pid.now) (texts_of seen.old) then []
        else within_of c only (Some session.now))) }
    ensures left_out { (c : Cluster) → AreAsked c asked.now
        → OnOk result (pids_in found.new.left_out.items ≡ pids_in found.old.left_out.items
        ++ (if list_any (bytes_eq pid.now) (texts_of seen.old) then []
        else left_out_of c only pid.now (Some session.now))) }
{
    if !is_first(seen, pid)? {
        return Ok(());
    }
    if is_within(
        only,
        &session.verdict,
        asked.is_refused(session.pid.as_str()),
    ) {
        found.shown.push(session)?;
    } else {
        found.left_out.push(pid)?;
    }
    Ok(())
}

/// Notes the pid, and says whether it is seen for the first time.
fn is_first(seen: &mut Places, pid: &str) -> Result<bool, AllocError>
    ensures seen { OnOk result (texts_of seen.new ≡ with_text (texts_of seen.old) pid.now) }
    ensures first { IfOk result (λ first.
        first ≡ not (list_any (bytes_eq pid.now) (texts_of seen.old))) }
{
    let before = seen.len();
    seen.note(0, pid)?;
    Ok(seen.len() != before)
}

//! The stays whose reply names a session.
ghost use Rattle.std.specs.Prelude.{◌≡◌, ◌++◌, IfOk, OnOk, map};
ghost use Rattle.std.specs.List.{list_all};
ghost use Rattle.aud_check.specs.NamedStays.{are_of_session, has_sid, is_of_session};
ghost use Rattle.aud_check.specs.Frames.{frames_in};

use crate::session::ShownSession;
use aud_client::{Frame, Reply, Stay};
use std::alloc::{AllocError, Global};

/// Whether there are stays, and each is of the session's namespace and has a reply with the session's sid.
pub(crate) fn are_of_session(session: &ShownSession<'_, '_>, stays: &[&Stay<'_>]) -> bool
    ensures { result ≡ are_of_session session.now (map (λ stay. stay.now) stays.now) }
{
    if stays.is_empty() {
        return false;
    }
    all_are_of_session(session, stays)
}

fn all_are_of_session(session: &ShownSession<'_, '_>, stays: &[&Stay<'_>]) -> bool
    ensures { result ≡ list_all (λ stay. is_of_session session.now stay.now) stays.now }
{
    stays.iter().all(|stay| is_of_session(session, *stay))
}

/// Whether the stay is of the session's namespace, and its reply has the session's sid.
fn is_of_session(session: &ShownSession<'_, '_>, stay: &Stay<'_>) -> bool
    ensures { result ≡ is_of_session session.now stay.now }
{
    stay.nsp == session.nsp && has_sid(session.sid, &stay.reply)
}

/// Whether there is a reply, and it has this sid.
fn has_sid(sid: &str, reply: &Option<Reply>) -> bool
    ensures { result ≡ has_sid sid.now reply.now }
{
    match reply {
        Some(reply) => reply.sid.as_str() == sid,
        None => false,
    }
}

/// The frames of the stays, stay after stay, borrowed: over the stays whose reply names a session all that was received
/// of it.
pub fn frames_in<'s, 'a>(
    alloc: Global,
    stays: &[&'s Stay<'a>],
) -> Result<Vec<&'s Frame<'a>>, AllocError>
    ensures { IfOk result (λ frames. map (λ frame. frame.now) frames.items
        ≡ frames_in (map (λ stay. stay.now) stays.now)) }
{
    let mut frames = Vec::new(alloc);
    for stay in stays {
        push_frames(&mut frames, *stay)?;
    }
    Ok(frames)
}

/// Adds the frames of the stay.
fn push_frames<'s, 'a>(
    frames: &mut Vec<&'s Frame<'a>>,
    stay: &'s Stay<'a>,
) -> Result<(), AllocError>
    ensures { OnOk result (map (λ frame. frame.now) frames.new.items
        ≡ map (λ frame. frame.now) frames.old.items ++ stay.now.frames) }
{
    for frame in &stay.frames {
        frames.push(frame)?;
    }
    Ok(())
}

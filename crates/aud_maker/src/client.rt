//! The client tap of a session.
ghost use Rattle.std.specs.Prelude.{◌≡◌, length, MatchOption};
ghost use Rattle.aud_client.specs.Replies.{naming_places};
ghost use Rattle.aud_maker.specs.Made.{name_at, IsClient};

use aud_client::Recording;
use aud_node::Logs;

/// The name of the client tap that has a reply which names the pid; none where there is none, or several.
pub(crate) fn only_client<'a>(recording: &Recording<'a>, pid: &str) -> Option<&'a str>
    ensures { MatchOption result (length (naming_places recording.now.taps pid.now) ≡ 1
        → ⊥) (λ name. IsClient recording.now pid.now name.now) }
{
    let naming = recording.naming(pid);
    if naming.len() != 1 {
        return None;
    }
    Some(tap_name(recording.logs(), naming[0]))
}

/// The name of the tap at this place.
pub(crate) fn tap_name<'a>(logs: &Logs<'a>, place: usize) -> &'a str
    ensures { result.now ≡ name_at logs.now place }
{
    match logs.taps().get(place) {
        Some(tap) => tap.name.as_str(),
        None => "",
    }
}

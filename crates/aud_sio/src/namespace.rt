//! The namespace of a packet.
ghost use Rattle.std.specs.Prelude.{◌≡◌};
ghost use Rattle.std.specs.List.{after_first, before_first};
ghost use Rattle.aud_sio.specs.Namespace.{is_comma, leading_namespace};

/// The namespace of a packet that names none.
pub(crate) const MAIN: &str = "/";

/// The namespace at the front of a text, and the rest: `/` where none stands there.
#[tactic(auto, unfolding(crate::specs::Namespace::leading_namespace))]
pub(crate) fn namespace_at(text: &str) -> (&str, &str)
    ensures { (result.0.now, result.1.now) ≡ leading_namespace text.now }
{
    match text.as_bytes().first() {
        Some(b'/') => split_comma(text),
        _ => (MAIN, text),
    }
}

/// What stands before the first comma, and what follows it.
fn split_comma(text: &str) -> (&str, &str)
    ensures before { result.0.now ≡ before_first is_comma text.now }
    ensures after { result.1.now ≡ after_first is_comma text.now }
{
    match text.split_once(',') {
        Some(parts) => parts,
        None => (text, ""),
    }
}

//! The names of a desk's taps.
ghost use Rattle.std.specs.Prelude.{◌≡◌};
ghost use Rattle.std.specs.List.{list_any, list_all};
ghost use Rattle.std.specs.Str.{bytes_eq};
ghost use Rattle.aud_tap.specs.TapName.{is_tap_name};
ghost use Rattle.aud_book.specs.History.{texts};
ghost use Rattle.aud_book.specs.Names.{are_desk_names, is_tap_count, stand_once};

use aud_tap::is_tap_name;

/// The most taps of a bundle: a stream, 64 nodes and 4,096 clients.
const MAX_TAPS: usize = 4_161;

fn stands_in(names: &[&str], name: &str) -> bool
    ensures { result ≡ list_any (λ other. bytes_eq other.now name.now) names.now }
{
    names.iter().any(|other| *other == name)
}

/// Whether each name stands once: each is compared with those after it.
fn stand_once(names: &[&str]) -> bool
    ensures { result ≡ stand_once (texts names.now) }
{
    for i in 0..names.len() {
        if stands_in(&names[i + 1..], names[i]) {
            return false;
        }
    }
    true
}

fn all_tap_names(names: &[&str]) -> bool
    ensures { result ≡ list_all (λ name. is_tap_name name.now) names.now }
{
    names.iter().all(|name| is_tap_name(name))
}

/// Whether a bundle can have so many taps.
fn is_tap_count(count: usize) -> bool
    ensures { result ≡ is_tap_count count }
{
    1 <= count && count <= MAX_TAPS
}

/// Whether a desk can have taps of these names.
#[tactic(auto, using(crate::proofs::NameLemmas::text_count, crate::proofs::NameLemmas::tap_names))]
pub fn are_desk_names(names: &[&str]) -> bool
    ensures { result ≡ are_desk_names (texts names.now) }
{
    is_tap_count(names.len()) && all_tap_names(names) && stand_once(names)
}

//! Where two texts part.
ghost use Rattle.std.specs.Prelude.{◌≡◌, ◌↔◌, IsTrue, MatchOption, slice_get};
ghost use Rattle.aud_check.specs.Parting.{PartAt};

/// The index of the first byte at which the two part: they differ there, or one of them ends. Bytes count from 0; none
/// where they are the same. So it tells of an event that came where its text, or one of its attachments, isn't as in
/// the entry.
pub(crate) fn first_parting(one: &[u8], other: &[u8]) -> Option<usize>
    ensures { MatchOption result (one.now ≡ other.now) (PartAt one.now other.now) }
{
    // (most are the same, and that is seen many bytes at a time)
    if one == other {
        return None;
    }
    for i in 0..one.len() {
        if !is_same_at(one, other, i) {
            return Some(i);
        }
    }
    // (the other goes on, since they are not the same)
    Some(one.len())
}

/// Whether both have the same byte there, or neither has one.
fn is_same_at(one: &[u8], other: &[u8], place: usize) -> bool
    ensures { IsTrue result ↔ (slice_get one.now place ≡ slice_get other.now place) }
{
    byte_at(one, place) == byte_at(other, place)
}

fn byte_at(bytes: &[u8], place: usize) -> Option<u8>
    ensures { result ≡ slice_get bytes.now place }
{
    bytes.get(place).copied()
}

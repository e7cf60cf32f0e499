//! Where the frames of a session stand in the stays of its client's tap.
ghost use Rattle.std.specs.Prelude.{◌≡◌, length, slice_get};
ghost use Rattle.aud_session_facts.specs.FramePlaces.{frame_at, frames_of};

use aud_client::Stay;

/// A frame of a stay: the number of the stay in the client's tap, and of the frame in the stay. Both count from 0.
#[derive(Clone, Copy, Debug, PartialEq, Eq, Drop)]
pub struct FramePlace {
    pub stay: usize,
    pub frame: usize,
}

/// Where the frame with this number stands: frames count from 0 over all those of the stays with these numbers, stay
/// after stay. None where they have no more. It costs the stays.
pub fn frame_at(stays: &[Stay<'_>], numbers: &[usize], frame: usize) -> Option<FramePlace>
    ensures { result ≡ frame_at stays.now numbers.now frame }
{
    let mut left = frame;
    for number in numbers {
        let count = frame_count(stays, *number);
        if left < count {
            return Some(FramePlace {
                stay: *number,
                frame: left,
            });
        }
        left -= count;
    }
    None
}

/// How many frames the stay with this number has, 0 where there is none.
fn frame_count(stays: &[Stay<'_>], number: usize) -> usize
    ensures { result ≡ length (frames_of (slice_get stays.now number)) }
{
    match stays.get(number) {
        Some(stay) => stay.frames.len(),
        None => 0,
    }
}

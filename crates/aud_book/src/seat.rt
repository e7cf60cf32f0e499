//! The right to post the lines of one tap.
ghost use Rattle.std.specs.Prelude.{◌≡◌, ◌<◌, [], vec_len};

use crate::posts::Posts;
use std::alloc::Global;
use std::sync::ledger::Share;

/// The right to post the lines of one tap, with those that were posted, which are borrowed. It is a value of one owner:
/// a thread gives it to [`post`](crate::Desk::post) and gets it back.
#[derive(Drop)]
pub struct TapSeat<'a, L: Posts> {
    pub(crate) place: usize,
    pub(crate) name: &'a str,
    pub(crate) lines: Vec<&'a [u8]>,
    pub(crate) share: Share<L>,
    ghost here: { place < L.count },
    ghost one_part: { share.parts ≡ 1 },
    ghost counted: { share.amount ≡ vec_len lines },
}

/// A seat from which nothing was posted yet.
pub fn empty_seat<'a, L: Posts>(
    alloc: Global,
    place: usize,
    name: &'a str,
    share: Share<L>,
) -> TapSeat<'a, L>
    requires place { place < L.count }
    requires share { (share.parts ≡ 1) × (share.amount ≡ 0) }
    ensures place { result.place ≡ place }
    ensures name { result.name.now ≡ name.now }
    ensures lines { result.lines.items ≡ [] }
{
    TapSeat {
        place,
        name,
        lines: Vec::new(alloc),
        share,
    }
}

impl<'a, L: Posts> TapSeat<'a, L> {
    ghost use Rattle.aud_book.specs.History.{texts};
    ghost use Rattle.aud_book.specs.Seats.{lines_of};

    /// The name of its tap, borrowed.
    pub fn name(&self) -> &'a str
        ensures { result.now ≡ self.now.name.now }
    {
        self.name
    }

    /// The lines that were posted from it, in their order.
    pub fn lines(&self) -> &[&'a [u8]]
        ensures { texts result.now ≡ lines_of self.now }
    {
        self.lines.as_slice()
    }
}

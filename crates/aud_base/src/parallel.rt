//! Work on the items of a slice that is shared out among threads.

ghost use Rattle.std.specs.Prelude.{◌≡◌, ◌<◌, ◌≤◌, All, IfOk, Ok};
ghost use Rattle.std.specs.Fn.{FnReturnsAt};
ghost use Rattle.std.specs.List.{AllZip};
ghost use Rattle.aud_base.specs.Calls.{TakesAt};
ghost use Rattle.aud_base.specs.Lists.{numbers_from};

use rayon::prelude::*;
use std::alloc::{AllocError, Global};
use std::thread::Threads;

/// The fewest items that a piece may have, where rayon halves a piece only if both halves have as many: so the pieces
/// of so many items are at most so many, and of about the same length. For one thread all items are one piece.
fn least_piece(items: usize, threads: usize) -> usize
    ensures some { 0 < result }
    ensures one { threads < 2 → items ≤ result }
{
    if threads < 2 {
        return items.max(1);
    }
    if items <= threads {
        return 1;
    }
    // Pieces of one item would be more than so many.
    (items >> threads.ilog2()).max(2)
}

/// What `f` gives at each item, in the order of the items; where `f` has no memory at one of them, or there is none for
/// the list, that alone. The items are cut by halves into at most `threads` pieces of about the same length (into 2 for
/// 3 threads, into 4 for up to 7), and at most two for each processor that the process has, and 64. Each piece has a
/// thread of its own, one of them the caller's: so where there is one piece, as with `threads` 1 or 0, none is started.
/// How many pieces there are changes nothing in what is given.
pub fn try_map<
    H: Threads + Sync,
    T: Sync,
    U: Send + Drop,
    F: Fn(&T) -> Result<U, AllocError> + Copy + Send + Sync,
>(rt: &H, alloc: Global, threads: usize, items: &[T], f: F) -> Result<Vec<U>, AllocError>
    requires { All (TakesAt F.Fn f) items.now }
    ensures { IfOk result (λ all. AllZip (λ x y. FnReturnsAt F.Fn f x (Ok y)) items.now all.items) }
{
    let given = items
        .par_iter()
        .with_min_len(least_piece(items.len(), threads))
        .map(f)
        .collect::<Result<Vec<U>, AllocError>>(rt, alloc);
    match given {
        Ok(all) => all,
        Err(_) => Err(AllocError),
    }
}

/// The most by which a thread's heap is to grow at once.
const MOST_ROOM: usize = 8_388_608;

/// Asks for a block of so many bytes, 8 MiB at most, and gives it back, so that this thread's heap has room for what
/// comes next, where there is memory for it. A heap of glibc's that many small blocks are asked of grows by one page a
/// time, and each time all threads are interrupted; and what they give back goes to the system in small steps, unless a
/// block of a few MiB was given back. So who asks for more than comes next keeps memory from the system.
pub fn make_room(alloc: Global, bytes: usize) {
    if let Ok(block) = Vec::<u8>::with_capacity(alloc, bytes.min(MOST_ROOM)) {
        drop(block);
    }
}

/// The numbers from 0 on, so many: the items where work is shared out by places.
pub fn numbers_to(alloc: Global, count: usize) -> Result<Vec<usize>, AllocError>
    ensures { IfOk result (λ numbers. numbers.items ≡ numbers_from 0 count) }
{
    let mut numbers = Vec::with_capacity(alloc, count)?;
    for number in 0..count {
        numbers.push(number)?;
    }
    Ok(numbers)
}

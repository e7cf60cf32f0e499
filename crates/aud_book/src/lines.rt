//! Lists of borrowed lines.
ghost use Rattle.std.specs.Prelude.{◌≡◌, ◌≢◌, true, false, IfOk};
ghost use Rattle.aud_book.specs.History.{texts};

use std::alloc::{AllocError, Global};

/// Whether two lists have the same lines.
pub fn same_lines(left: &[&[u8]], right: &[&[u8]]) -> bool
    ensures same { result ≡ true → texts left.now ≡ texts right.now }
    ensures other { result ≡ false → texts left.now ≢ texts right.now }
{
    if left.len() != right.len() {
        return false;
    }
    for i in 0..left.len() {
        if !is_line(left[i], right[i]) {
            return false;
        }
    }
    true
}

/// The same lines, borrowed as they were, in a list of their own.
pub fn copied<'a>(alloc: Global, lines: &[&'a [u8]]) -> Result<Vec<&'a [u8]>, AllocError>
    ensures { IfOk result (λ v. v.items ≡ lines.now) }
{
    let mut copy = Vec::with_capacity(alloc, lines.len())?;
    for line in lines {
        copy.push(*line)?;
    }
    Ok(copy)
}

/// Whether two lines are the same.
fn is_line(left: &[u8], right: &[u8]) -> bool
    ensures same { result ≡ true → left.now ≡ right.now }
    ensures other { result ≡ false → left.now ≢ right.now }
{
    left == right
}

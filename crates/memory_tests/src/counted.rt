//! Where the call that is tried begins and ends: `tests/refuse-memory.c` counts the allocations in between. It is told
//! by allocations that no machine grants, so that without it they do nothing.
use std::alloc::Global;

const BEGIN: usize = 1 << 62;

const END: usize = BEGIN + 1;

/// The call begins.
pub fn begin(alloc: Global) {
    let _ = Vec::<u8>::with_capacity(alloc, BEGIN);
}

/// The call has ended.
pub fn end(alloc: Global) {
    let _ = Vec::<u8>::with_capacity(alloc, END);
}

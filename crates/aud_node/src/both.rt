//! Two pieces of work side by side.
ghost use Rattle.std.specs.Fn.{FnReturnsAt};
ghost use Rattle.aud_base.specs.Calls.{TakesAt};

use std::thread::{Threads, join};

/// What `f` and `g` give at the value. A thread is started that calls `f`, while this one calls `g`; where none can be
/// started, this one calls both.
pub fn both<
    H: Threads,
    T: Sync,
    A: Send,
    B,
    F: Fn(&T) -> A + Copy + Send + Sync,
    G: Fn(&T) -> B + Copy,
>(rt: &H, value: &T, f: F, g: G) -> (A, B)
    requires first { TakesAt F.Fn f value.now }
    requires second { TakesAt G.Fn g value.now }
    ensures first { FnReturnsAt F.Fn f value.now result.0 }
    ensures second { FnReturnsAt G.Fn g value.now result.1 }
{
    join(
        rt,
        || -> A
            requires { TakesAt F.Fn f value.now }
            ensures { FnReturnsAt F.Fn f value.entry.now result }
        { f(value) },
        || -> B
            requires { TakesAt G.Fn g value.now }
            ensures { FnReturnsAt G.Fn g value.entry.now result }
        { g(value) },
    )
}

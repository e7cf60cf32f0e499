//! What a worker calls round each index that it decides.
use std::sync::Wait;
use std::time::Clock;

/// What workers pass through, each for itself, round each index. A worker waits where its gate does.
pub trait Gate {
    /// Called before the session with this index is decided.
    fn before<R: Wait + Clock>(&self, rt: &R, index: usize);

    /// Called after its entry is kept.
    fn after<R: Wait + Clock>(&self, rt: &R, index: usize);
}

/// The gate that does nothing.
#[derive(Clone, Copy)]
pub struct OpenGate;

impl Gate for OpenGate {
    fn before<R: Wait + Clock>(&self, _rt: &R, _index: usize) {}

    fn after<R: Wait + Clock>(&self, _rt: &R, _index: usize) {}
}

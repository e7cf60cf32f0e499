//! The calls on the taps of a bundle.
ghost use Rattle.aud_tap.specs.Names.{AreNamedOnce};

use crate::counted::{begin, end};
use crate::given::Given;
use aud_client::Recording;
use aud_node::Logs;
use aud_reader::ReadFault;
use aud_tap::Taps;
use aud_writer::write_bundle;
use std::alloc::Global;
use std::hash::RandomState;
use std::mem::ManuallyDrop;
use std::thread::Threads;

/// A call on the taps.
pub enum OnTaps {
    Build,
    Write,
    /// With so many threads.
    Read(usize),
}

/// Makes the call.
pub fn given<R: Threads + Sync>(
    taps: &Taps,
    rt: &R,
    alloc: Global,
    keys: RandomState,
    call: &OnTaps,
) -> Given
    requires { AreNamedOnce taps.now }
{
    match call {
        OnTaps::Build => build(taps, alloc, keys),
        OnTaps::Write => write(taps, alloc),
        OnTaps::Read(threads) => read(taps, rt, alloc, keys, *threads),
    }
}

fn build(taps: &Taps, alloc: Global, keys: RandomState) -> Given {
    begin(alloc);
    let built = ManuallyDrop::new(Logs::build(alloc, keys, taps));
    end(alloc);
    match &*built {
        Ok(logs) => Given::Answer("nodes", logs.nodes_of("P").len()),
        Err(_) => Given::Memory,
    }
}

fn write(taps: &Taps, alloc: Global) -> Given {
    begin(alloc);
    let written = ManuallyDrop::new(write_bundle(alloc, taps));
    end(alloc);
    match &*written {
        Ok(bytes) => Given::Answer("bytes", bytes.len()),
        Err(ReadFault::Memory) => Given::Memory,
        Err(_) => Given::Wrong("a line is too long"),
    }
}

fn read<R: Threads + Sync>(
    taps: &Taps,
    rt: &R,
    alloc: Global,
    keys: RandomState,
    threads: usize,
) -> Given
    requires { AreNamedOnce taps.now }
{
    begin(alloc);
    let read = ManuallyDrop::new(Recording::read(rt, alloc, keys, threads, taps));
    end(alloc);
    match &*read {
        Ok(recording) => Given::Answer("clients", recording.naming("P").len()),
        Err(_) => Given::Memory,
    }
}

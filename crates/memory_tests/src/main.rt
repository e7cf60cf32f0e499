//! A program that makes each call of the library that asks for memory, and prints what it gives: a line a call, the
//! call's name and its answer. Words of the command line choose calls by their names.
//!
//! `tests/refuse-memory` runs it with each allocation of each call refused in turn. A line is then the call's memory
//! fault or the same answer, and says where what the call leaves isn't as promised.
//!
//! What a call gives is looked at and not dropped, since the program ends soon.
#![tactic(auto)]

ghost use Rattle.aud_tap.specs.Names.{AreNamedOnce};

mod bundle;
mod calls;
mod certificates;
mod counted;
mod desk;
mod given;
mod lines;
mod logs;
mod rooms;
mod taps;
mod workers;

use crate::calls::{CALLS, given};
use anyhow::Result;
use aud_client::Recording;
use aud_maker::sessions;
use aud_reader::Lines;
use aud_tap::Taps;
use std::alloc::Global;
use std::env;
use std::hash::RandomState;
use std::mem::ManuallyDrop;
use std::sync::Wait;
use std::thread::Threads;
use std::time::Clock;

/// Whether the call is asked for: its name is one of the words, or there is none.
fn is_asked(words: &[String], name: &str) -> bool {
    for word in words {
        if word.as_str() == name {
            return true;
        }
    }
    words.is_empty()
}

/// Makes the calls that are asked for, over these taps, and prints what each of them gives.
fn make_calls<R: Print + Threads + Wait + Clock + Sync>(
    taps: &Taps,
    rt: &R,
    alloc: Global,
    keys: RandomState,
    lines: &Lines,
    words: &[String],
) -> Result<()>
    requires { AreNamedOnce taps.now }
{
    let recording = ManuallyDrop::new(Recording::read(rt, alloc, keys, 1, taps)?);
    let pids = ManuallyDrop::new(sessions(alloc, &recording)?);
    for (name, call) in &CALLS {
        if is_asked(words, name) {
            let given = given(&recording, taps, rt, alloc, keys, lines, &pids, call);
            println!(rt; "{name}: {given}")?;
        }
    }
    Ok(())
}

fn main(rt: HostRuntime) -> Result<()> {
    let alloc = rt.alloc();
    let keys = RandomState::new(&rt)?;
    let words = env::args(&rt)?.skip(1).collect::<Vec<String>>(alloc)?;
    let lines = ManuallyDrop::new(bundle::lines(alloc)?);
    let taps = bundle::taps(alloc, keys, &lines)?;
    let outcome = make_calls(&taps, &rt, alloc, keys, &lines, words.as_slice());
    let _kept = ManuallyDrop::new(taps);
    outcome
}

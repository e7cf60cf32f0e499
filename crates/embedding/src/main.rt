//! A service in small that embeds the auditor: it posts the lines of three taps from threads of its own, and prints the
//! report on them. docs/EMBED.md goes through it.
#![tactic(auto)]

mod fault;
mod lines;
mod service;

use std::hash::RandomState;
use std::process::ExitCode;

fn main(rt: HostRuntime) -> ExitCode {
    let Ok(keys) = RandomState::new(&rt) else {
        let _ = eprintln!(rt; "embedding: no random bytes");
        return ExitCode::FAILURE;
    };
    match service::report(&rt, rt.alloc(), keys) {
        Ok(text) => match print!(rt; "{text}") {
            Ok(()) => ExitCode::SUCCESS,
            Err(_) => ExitCode::FAILURE,
        },
        Err(fault) => {
            let _ = eprintln!(rt; "embedding: {fault}");
            ExitCode::FAILURE
        }
    }
}

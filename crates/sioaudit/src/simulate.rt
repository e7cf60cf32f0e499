//! The command `simulate`.
use crate::failure::Failure;
use crate::refusal::refuse;
use aud_app::{RunFault, Watched};
use aud_base::write_out;
use aud_schedule::{plan_asked, simulated};
use aud_sim::SimFault;
use std::alloc::{AllocError, Global};
use std::io::Write;
use std::process::ExitCode;

/// Why there is no bundle.
fn unsimulated(alloc: Global, fault: SimFault) -> Result<Failure, AllocError> {
    Ok(match fault {
        SimFault::Memory => Failure::from(RunFault::Memory),
        SimFault::Act(_) => Failure::Line(format!(in alloc; "sioaudit: {fault}")?, 3),
    })
}

/// Writes the bundle that the arguments ask for.
pub fn simulation<W: Write + Drop>(
    rt: &(impl Print + Eprint),
    alloc: Global,
    words: &[&str],
    output: W,
) -> Result<ExitCode, Failure> {
    let plan = match plan_asked(alloc, words) {
        Ok(plan) => plan,
        Err(_) => return refuse(rt, alloc, words),
    };
    let bundle = match simulated(alloc, &plan) {
        Ok(bundle) => bundle,
        Err(fault) => return Err(unsimulated(alloc, fault)?),
    };
    let mut output = Watched::new(output);
    match write_out(&mut output, bundle.as_slice()) {
        Ok(()) => Ok(ExitCode::SUCCESS),
        Err(fault) => Err(Failure::Fault(fault, output.os_error())),
    }
}

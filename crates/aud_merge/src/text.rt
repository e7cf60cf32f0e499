//! The text of what is shown.
ghost use Rattle.std.specs.Prelude.{◌≡◌, ◌++◌, IfOk, OnOk, flat_map, string_bytes};
ghost use Rattle.aud_merge.specs.Text.{name_at, order_text, step_line};

use crate::answer::Order;
use crate::step::Step;
use aud_node::Logs;
use aud_tap::Tap;
use std::alloc::{AllocError, Global};

/// The name of the tap at this place; empty where there is none.
fn name_at(taps: &[Tap], place: usize) -> &str
    ensures { result.now ≡ name_at taps.now place }
{
    match taps.get(place) {
        Some(tap) => tap.name.as_str(),
        None => "",
    }
}

/// Puts a step's line, which begins so, at the end.
fn push_step(out: &mut String, beginning: &str, taps: &[Tap], step: Step) -> Result<(), AllocError>
    ensures { OnOk result (string_bytes out.new
        ≡ string_bytes out.old ++ step_line beginning.now taps.now step) }
{
    let name = name_at(taps, step.log);
    let index = step.index;
    writeln!(out, "{beginning}{name} {index}")
}

/// The lines of steps, each of which begins so.
fn step_lines(
    alloc: Global,
    beginning: &str,
    taps: &[Tap],
    steps: &[Step],
) -> Result<String, AllocError>
    ensures { IfOk result (λ text. string_bytes text
        ≡ flat_map (step_line beginning.now taps.now) steps.now) }
{
    let mut out = String::new(alloc);
    for step in steps {
        push_step(&mut out, beginning, taps, *step)?;
    }
    Ok(out)
}

/// A line for each step of a run and how many there are, or a line for each record that blocks and how many there are.
/// Taps are named; records count from 0, the header not counted.
pub fn order_text(alloc: Global, logs: &Logs<'_>, order: &Order) -> Result<String, AllocError>
    ensures { IfOk result (λ text. string_bytes text ≡ order_text logs.now.taps order.now) }
{
    match order {
        Order::Run(steps) => {
            let mut out = step_lines(alloc, "", logs.taps(), steps)?;
            let count = steps.len();
            writeln!(&mut out, "steps={count}")?;
            Ok(out)
        }
        Order::Blocked(fronts) => {
            let mut out = step_lines(alloc, "blocked ", logs.taps(), fronts)?;
            let count = fronts.len();
            writeln!(&mut out, "blocked={count}")?;
            Ok(out)
        }
    }
}

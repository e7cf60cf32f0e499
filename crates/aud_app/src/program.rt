//! A whole run: bytes in, the report on them out.
ghost use Rattle.std.specs.Prelude.{◌≡◌, ◌≤◌, ◌<◌, ◌⊎◌, true, IfOk, OnOk, Err};
ghost use Rattle.aud_base.specs.Watched.{inner_of, calls_of, has_failed};
ghost use Rattle.aud_app.specs.Headline.{ReportHoldsOf, WholeReportHoldsOf};
ghost use Rattle.aud_app.specs.Output.{IsOutputOf, Writes, WritesFront};

use crate::output::{layout_of, output_of};
use crate::written::Written;
use aud_base::{RunFault, Watched, write_out};
use aud_cli::{Mode, Options};
use aud_input::{READ_LIMIT, read_input};
use aud_verdict::Status;
use std::alloc::Global;
use std::hash::RandomState;
use std::io::{Read, Write};
use std::sync::Wait;
use std::thread::Threads;
use std::time::Clock;

/// Reads the input to its end, decides, and only then writes. The input is read in pieces of at most 65,536 bytes, or
/// for more than one thread of at most 4 MiB, and each line is dropped once it was read, but for certificates; it is
/// read to its end where a line is refused too. An audit starts `options.workers` workers, each in a thread of its own;
/// all else is shared out among at most so many threads, this one among them, as `aud_base::try_map` says, but that one
/// more cuts the next piece into lines. How many they are changes nothing in what is written, and nor do the keys, by
/// which names are looked up: whoever picked the names of the input is not to know them.
///
/// The process is to end after it: memory of what was read, and of what was made of it, isn't given back. A service
/// calls the crates below instead (docs/EMBED.md).
#[tactic(auto, using(crate::proofs::Pieces::output_read))]
pub fn run<H: Threads + Wait + Clock + Sync, R: Read, W: Write>(
    rt: &H,
    alloc: Global,
    keys: RandomState,
    input: &mut Watched<R>,
    output: &mut Watched<W>,
    options: Options,
) -> Result<Status, RunFault>
    requires unread { calls_of input.old ≡ 0 }
    requires workers { (0 < options.workers) × (options.workers ≤ 64) }

    // What was written is the mode's output over what the reader had left, whole, and the run ends as that output does.
    ensures ok { IfOk result (Writes (W.contents (inner_of output.old))
        (W.contents (inner_of output.new)) (IsOutputOf options.mode options.whole
        (R.remaining (inner_of input.old)))) }
    // Each line of an audit holds in every run: after a yes, the client received what was due to its session; after a
    // no for an event that was extra, doubled, swapped or lost, it did not; after a no for a tail, so many events are
    // missing at the end.
    ensures every_run { options.mode ≡ Mode.Audit
        → IfOk result (Writes (W.contents (inner_of output.old)) (W.contents (inner_of output.new))
        (ReportHoldsOf (R.remaining (inner_of input.old)))) }
    // Where the whole is asked for, a yes also has tail 0: the client received all that was due.
    ensures whole { options.mode ≡ Mode.Audit → options.whole ≡ true
        → IfOk result (Writes (W.contents (inner_of output.old)) (W.contents (inner_of output.new))
        (WholeReportHoldsOf (R.remaining (inner_of input.old)))) }
    // No read or write that failed was tried again.
    ensures unfailed { OnOk result ((has_failed input.new ≡ has_failed input.old)
        × (has_failed output.new ≡ has_failed output.old)) }
    // After a failed write a front of that output was written.
    ensures front { result ≡ Err RunFault.Write
        → WritesFront (W.contents (inner_of output.old)) (W.contents (inner_of output.new))
        (IsOutputOf options.mode options.whole (R.remaining (inner_of input.old))) }
    // After every other fault nothing was.
    ensures nothing { (result ≡ Err RunFault.Memory) ⊎ (result ≡ Err RunFault.Read)
        ⊎ (result ≡ Err RunFault.Spawn) → output.new ≡ output.old }
    ensures read { result ≡ Err RunFault.Read
        → (has_failed input.new ≡ true) ⊎ (READ_LIMIT ≤ calls_of input.new) }
    ensures write { result ≡ Err RunFault.Write → has_failed output.new ≡ true }
{
    let threads = options.workers as usize;
    let read = read_input(rt, threads, alloc, keys, layout_of(options.mode), input)?;
    let Written { status, bytes } = output_of(rt, alloc, keys, options, read)?;
    write_out(output, bytes.as_slice())?;
    Ok(status)
}

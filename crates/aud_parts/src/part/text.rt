//! The parts of a recording, as they are written.
ghost use Rattle.std.specs.Prelude.{◌≡◌, ◌++◌, ℕ, List, IfOk, OnOk, Some};
ghost use Rattle.std.specs.Io.KnownBytes.{Appends};
ghost use Rattle.std.specs.List.{All, AllByRecursion};
ghost use Rattle.aud_base.specs.Watched.{inner_of};
ghost use Rattle.aud_input.specs.LineRuns.{lines_of_runs};
ghost use Rattle.aud_parts.specs.PartLines.{numbers_of_parts, part_of_client, part_of_server, parts_of_taps, text_of_parts};
ghost use Rattle.aud_parts.specs.TapRuns.{IsReadable, MayBeRead};

use crate::clients::measured::MeasuredClient;
use crate::part::lines::server_lines;
use crate::part::part_taps;
use crate::part::server_text::ServerText;
use crate::plan::Plan;
use crate::tap_index::run_lines::RunLines;
use crate::tap_index::tap_lines::{client_header, lines_past, push_ended, push_numbers};
use crate::tap_index::tap_runs::{IndexedTaps, RunSource, TapRuns};
use aud_base::{RunFault, Watched, try_map, write_out};
use aud_input::LineRuns;
use aud_node::Logs;
use aud_reader::ReadFault;
use std::alloc::{AllocError, Global};
use std::io::Write;
use std::thread::Threads;

/// A recording, borrowed: the logs of the stream and of the nodes, and what its clients' taps tell; and a plan of its
/// parts.
#[derive(Drop)]
pub struct Planned<'a> {
    alloc: Global,
    logs: &'a Logs<'a>,
    clients: &'a [MeasuredClient],
    plan: &'a Plan,
}

impl<'a> Planned<'a> {
    /// A plan of the parts of this recording.
    pub fn new(
        alloc: Global,
        logs: &'a Logs<'a>,
        clients: &'a [MeasuredClient],
        plan: &'a Plan,
    ) -> Planned<'a> {
        Planned {
            alloc,
            logs,
            clients,
            plan,
        }
    }

    /// The lines of the part's taps of the stream and of the nodes, and those that they come from, where these are those
    /// of the logs' taps. Parts count from 0.
    pub fn servers(&self, part: usize, lines: &[LineRuns]) -> Result<ServerText, ReadFault> {
        let pids = self.plan.pids_in(self.alloc, part)?;
        let came = self.plan.came_in(self.alloc, self.clients, part)?;
        let taps = part_taps(self.alloc, self.logs, &pids, &came)?;
        let lines = server_lines(self.alloc, self.logs.taps(), lines, taps.as_slice())?;
        ServerText::of(self.alloc, &taps, lines)
    }

    /// Those of each of these parts, which are made by at most so many threads.
    pub fn servers_of<H: Threads + Sync>(
        &self,
        rt: &H,
        threads: usize,
        lines: &[LineRuns],
        parts: &[usize],
    ) -> Result<Vec<Result<ServerText, ReadFault>>, AllocError> {
        try_map(
            rt,
            self.alloc,
            threads,
            parts,
            |part: &usize| -> Result<Result<ServerText, ReadFault>, AllocError> {
                Ok(self.servers(*part, lines))
            },
        )
    }

    /// How many bytes the part has, of which the taps of the stream and of the nodes have these lines.
    pub fn bytes(&self, part: usize, servers: &ServerText) -> u64 {
        let mut bytes = servers.len();
        for (number, client) in self.clients.iter().enumerate() {
            if self.plan.has_client(part, number) {
                bytes = bytes.saturating_add(client.bytes);
            }
        }
        bytes
    }

    /// Writes the part, of which the taps of the stream and of the nodes have these lines: its taps in the order of the
    /// index. Those of the clients are read again. It gives the lines that those of the part come from.
    pub fn write<S: RunSource, W: Write>(
        &self,
        part: usize,
        servers: &ServerText,
        indexed: &IndexedTaps<'_>,
        source: &mut S,
        output: &mut Watched<W>,
    ) -> Result<LineRuns, RunFault>
        ensures text { (files : List (List ℕ)) → S.files source.old ≡ Some files
            → All (MayBeRead files) indexed.now.taps.now → OnOk result (Appends
            (W.contents (inner_of output.old)) (W.contents (inner_of output.new))
            (text_of_parts (parts_of_taps files servers.now self.now.plan.now part
            indexed.now.kinds.now indexed.now.taps.now))) }
        ensures lines { (files : List (List ℕ)) → S.files source.old ≡ Some files
            → All (MayBeRead files) indexed.now.taps.now
            → IfOk result (λ runs. lines_of_runs runs ≡ numbers_of_parts (parts_of_taps files
            servers.now self.now.plan.now part indexed.now.kinds.now indexed.now.taps.now)) }
        ensures source { S.files source.new ≡ S.files source.old }
    {
        let mut runs = LineRuns::new(Vec::new(self.alloc));
        let mut buffer = Vec::new(self.alloc);
        let mut client = 0usize;
        for (place, tap) in indexed.taps.iter().enumerate() {
            if indexed.is_server(place) {
                write_server(servers, tap.name(), output, &mut runs)?;
            } else {
                if self.plan.has_client(part, client) {
                    write_client(self.alloc, tap, source, &mut buffer, output, &mut runs)?;
                }
                client += 1;
            }
        }
        Ok(runs)
    }
}

/// Writes the lines that were made of the tap of this name, if there are any, and adds the lines that they come from.
fn write_server<W: Write>(
    servers: &ServerText,
    name: &str,
    output: &mut Watched<W>,
    runs: &mut LineRuns,
) -> Result<(), RunFault>
    ensures text { OnOk result (Appends (W.contents (inner_of output.old))
        (W.contents (inner_of output.new)) (part_of_server servers.now name.now).text) }
    ensures lines { OnOk result (lines_of_runs runs.new
        ≡ lines_of_runs runs.old ++ (part_of_server servers.now name.now).numbers) }
{
    let Some(number) = servers.number_named(name) else {
        return Ok(());
    };
    write_out(output, servers.text(number))?;
    Ok(servers.push_lines(number, runs)?)
}

/// Writes a client's tap as a part has it: its header in version 2, and then its other lines as they stand. Adds the
/// numbers of all of them.
fn write_client<S: RunSource, W: Write>(
    alloc: Global,
    tap: &TapRuns,
    source: &mut S,
    buffer: &mut Vec<u8>,
    output: &mut Watched<W>,
    runs: &mut LineRuns,
) -> Result<(), RunFault>
    ensures text { (files : List (List ℕ)) → S.files source.old ≡ Some files
        → AllByRecursion (IsReadable files) tap.now.runs
        → OnOk result (Appends (W.contents (inner_of output.old))
        (W.contents (inner_of output.new)) (part_of_client files tap.now).text) }
    ensures lines { (files : List (List ℕ)) → S.files source.old ≡ Some files
        → AllByRecursion (IsReadable files) tap.now.runs → OnOk result (lines_of_runs runs.new
        ≡ lines_of_runs runs.old ++ (part_of_client files tap.now).numbers) }
    ensures source { S.files source.new ≡ S.files source.old }
{
    let mut text = client_header(alloc, tap.name())?;
    write_out(output, text.as_slice())?;
    // (the first line is the header)
    let mut skipped = 1usize;
    let mut left = RunLines::of(None, tap.runs());
    'pieces: while let Some(lines) = left.next_lines(alloc, source, buffer)? {
        push_numbers(runs, &lines)?;
        text.clear();
        push_ended(&mut text, lines_past(&lines, skipped))?;
        write_out(output, text.as_slice())?;
        skipped = skipped.saturating_sub(lines.len());
    }
    Ok(())
}

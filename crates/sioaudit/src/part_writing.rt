//! The files of the parts, as `split` writes them.
use crate::failure::Failure;
use crate::part_files::{
    create, lines_name, part_name, path_in, remove_split, unwritten_at, write_file, write_sessions,
    write_text,
};
use crate::run_files::RunFiles;
use crate::split::unplanned;
use aud_app::RunFault;
use aud_input::{LineRuns, PartLines, Size};
use aud_parts::{IndexedTaps, Plan, Planned, ServerText, SizedFault, lines_text};
use aud_reader::ReadFault;
use std::alloc::{AllocError, Global};
use std::thread::Threads;

/// What is written, and into which folder.
#[derive(Drop)]
pub struct Splitting<'a, H> {
    pub rt: &'a H,
    pub host: &'a HostRuntime,
    pub alloc: Global,
    pub folder: &'a str,
    pub threads: usize,
    pub plan: &'a Plan,
    pub planned: Planned<'a>,
    pub indexed: &'a IndexedTaps<'a>,
    /// The text of which part has which session.
    pub sessions: &'a str,
}

impl<H: Threads + Sync> Splitting<'_, H> {
    /// Puts the line of a part, which is in the file of this name, at the end.
    fn push_line(
        &self,
        lines: &mut String,
        name: &str,
        part: usize,
        bytes: u64,
    ) -> Result<(), AllocError> {
        let sessions = self.plan.session_count(part);
        let clients = self.plan.client_count(part);
        writeln!(
            lines,
            "{name} sessions={sessions} clients={clients} bytes={bytes}"
        )
    }

    /// Writes the file of this name, which is that of a part of which the taps of the stream and of the nodes have these
    /// lines; gives the lines that those of the part come from.
    fn write_lines_of(
        &self,
        files: &mut RunFiles<'_>,
        name: &str,
        part: usize,
        servers: &ServerText,
    ) -> Result<LineRuns, Failure> {
        let path = path_in(self.alloc, self.folder, name)?;
        let mut output = create(self.host, self.alloc, path.as_str())?;
        match self
            .planned
            .write(part, servers, self.indexed, files, &mut output)
        {
            Ok(runs) => Ok(runs),
            Err(RunFault::Write) => {
                files.clear();
                Err(unwritten_at(self.alloc, path.as_str(), output.os_error())?)
            }
            Err(fault) => Err(files.fault(fault)?),
        }
    }

    /// Writes the file beside a part of so many bytes, which says from which lines of the files those of the part come.
    fn write_names(
        &self,
        files: &RunFiles<'_>,
        part: usize,
        bytes: u64,
        runs: LineRuns,
    ) -> Result<(), Failure> {
        let lines = runs.count();
        let named = PartLines {
            size: Size { lines, bytes },
            runs,
            files: files.input_files()?,
        };
        let name = lines_name(self.alloc, part)?;
        let text = lines_text(self.alloc, &named)?;
        write_file(
            self.host,
            self.alloc,
            self.folder,
            name.as_str(),
            text.as_str(),
        )
    }

    /// Writes a part, of which the taps of the stream and of the nodes have these lines, and the file beside it, and puts
    /// its line at the end.
    fn write_part(
        &self,
        files: &mut RunFiles<'_>,
        lines: &mut String,
        part: usize,
        servers: &ServerText,
    ) -> Result<(), Failure> {
        let name = part_name(self.alloc, part)?;
        let name = name.as_str();
        let runs = self.write_lines_of(files, name, part, servers)?;
        let bytes = self.planned.bytes(part, servers);
        files.clear();
        self.write_names(files, part, bytes, runs)?;
        self.push_line(lines, name, part, bytes)?;
        Ok(())
    }

    /// Writes these parts: what they have of the stream and of the nodes is made side by side.
    fn write_some(
        &self,
        files: &mut RunFiles<'_>,
        lines: &mut String,
        parts: &[usize],
    ) -> Result<(), Failure> {
        let made = self
            .planned
            .servers_of(self.rt, self.threads, self.indexed.lines, parts)?;
        for (part, servers) in parts.iter().zip(made) {
            match servers {
                Ok(servers) => self.write_part(files, lines, *part, &servers)?,
                Err(ReadFault::Memory) => return Err(Failure::from(RunFault::Memory)),
                Err(ReadFault::Input(_, _)) => {
                    return Err(unplanned(self.alloc, SizedFault::LineTooLong)?);
                }
            }
        }
        Ok(())
    }

    /// Writes the parts; gives their lines.
    fn write_parts(&self, files: &mut RunFiles<'_>) -> Result<String, Failure> {
        let mut lines = String::new(self.alloc);
        let parts = (0..self.plan.weights.len()).collect::<Vec<usize>>(self.alloc)?;
        for some in parts.chunks(self.threads.max(1)) {
            self.write_some(files, &mut lines, some)?;
        }
        files.clear();
        Ok(lines)
    }

    /// Writes the parts, then which of them has which session, and then their lines, and how many parts and sessions there
    /// are.
    fn write(&self, files: &mut RunFiles<'_>) -> Result<(), Failure> {
        let mut lines = self.write_parts(files)?;
        let (parts, sessions) = (self.plan.weights.len(), self.plan.sessions.len());
        writeln!(&mut lines, "parts={parts} sessions={sessions}")?;
        write_sessions(self.host, self.alloc, self.folder, self.sessions)?;
        write_text(self.host, lines.as_bytes())
    }
}

/// Writes a split. Where that fails, no file of it is left, as far as they can be removed.
pub fn write_split<H: Threads + Sync>(
    splitting: &Splitting<'_, H>,
    files: &mut RunFiles<'_>,
) -> Result<(), Failure> {
    let outcome = splitting.write(files);
    if outcome.is_err() {
        let count = splitting.plan.weights.len();
        remove_split(splitting.host, splitting.alloc, splitting.folder, count);
    }
    outcome
}

//! The bytes of a bundle: its taps in their order, each its header and then its records.
ghost use Rattle.std.specs.Prelude.{◌≡◌, ◌≢◌, ◌∷◌, [], true, None, IfOk, IfErr, Ok, Err, map as list_map};
ghost use Rattle.std.specs.List.{All};
ghost use Rattle.serde_json.specs.View.{view};
ghost use Rattle.aud_tap.specs.declared.records.Rec.{Rec};
ghost use Rattle.aud_tap.specs.declared.records.Rec.TheVariants.{Header, Stream, Node, Client};
ghost use Rattle.aud_tap.specs.TapName.{is_tap_name};
ghost use Rattle.aud_reader.specs.Bundle.{kind_of_tap};
ghost use Rattle.aud_reader.specs.Lines.{lines_of};
ghost use Rattle.aud_reader.specs.OwnLines.{recs_in};
ghost use Rattle.aud_writer.specs.Written.{record_data};
ghost use Rattle.aud_writer.specs.OfABundle.{AreOfABundle};
ghost use Rattle.aud_writer.specs.WrittenBundle.{AreReadAs, ReadsBack, line_texts, named, named_recs, numbered, recs_of_taps, written_bundle};
ghost use Rattle.aud_writer.specs.BytesBack.{DecodeBack, blobs_of};
ghost use Rattle.aud_writer.specs.Private.SoFar.{AreWritten, AreRefused, Puts};

use super::client::client_value;
use super::line::{header_value, value_line};
use super::node::node_value;
use super::stream::stream_value;
use aud_reader::{InputCode, ReadFault};
use aud_tap::limits::MAX_LINE;
use aud_tap::{
    ClientRec, NodeRec, NodeRecs, Records, StreamRec, StreamRecs, Tap, TapKind, Taps, Version,
};
use serde_json::Value;
use std::alloc::Global;

/// The lines so far, each ended by a newline, and how many they are.
#[derive(Drop)]
struct Lines {
    alloc: Global,
    bytes: Vec<u8>,
    count: u64,
}

impl Lines {
    fn new(alloc: Global) -> Lines
        ensures { AreWritten result [] }
    {
        Lines {
            alloc,
            bytes: Vec::new(alloc),
            count: 0,
        }
    }

    /// Adds the line of a value, in the tap of this name.
    fn put(&mut self, name: &str, value: &Value) -> Result<(), ReadFault>
        ensures { (rec : Rec) → view value.now ≡ record_data rec → DecodeBack (blobs_of rec)
            → Puts result self.old self.new ((name.now, rec) ∷ []) }
    {
        let line = value_line(self.alloc, name, value)?;
        let Some(number) = self.count.checked_add(1) else {
            return Err(ReadFault::Memory);
        };
        if line.len() > MAX_LINE {
            return Err(ReadFault::Input(number, InputCode::LineTooLong));
        }
        self.bytes.extend_from_slice(line.as_slice())?;
        self.bytes.push(b'\n')?;
        self.count = number;
        Ok(())
    }

    fn put_header(&mut self, name: &str, of: TapKind, version: Version) -> Result<(), ReadFault>
        ensures { Puts result self.old self.new ((name.now, Header of version) ∷ []) }
    {
        let value = header_value(self.alloc, of, version)?;
        self.put(name, &value)
    }

    fn put_entry(&mut self, name: &str, entry: &StreamRec) -> Result<(), ReadFault>
        ensures { Puts result self.old self.new ((name.now, Stream entry.now) ∷ []) }
    {
        let value = stream_value(self.alloc, entry)?;
        self.put(name, &value)
    }

    fn put_node_record(&mut self, name: &str, rec: &NodeRec) -> Result<(), ReadFault>
        ensures { Puts result self.old self.new ((name.now, Node rec.now) ∷ []) }
    {
        let value = node_value(self.alloc, rec)?;
        self.put(name, &value)
    }

    fn put_client_record(&mut self, name: &str, rec: &ClientRec) -> Result<(), ReadFault>
        ensures { Puts result self.old self.new ((name.now, Client rec.now) ∷ []) }
    {
        let value = client_value(self.alloc, rec)?;
        self.put(name, &value)
    }

    fn put_entries(&mut self, name: &str, entries: &StreamRecs) -> Result<(), ReadFault>
        ensures { Puts result self.old self.new (named name.now (list_map Stream entries.now)) }
    {
        for number in 0..entries.len() {
            self.put_entry(name, &entries[number])?;
        }
        Ok(())
    }

    fn put_node_records(&mut self, name: &str, records: &NodeRecs) -> Result<(), ReadFault>
        ensures { Puts result self.old self.new (named name.now (list_map Node records.now)) }
    {
        for number in 0..records.len() {
            self.put_node_record(name, &records[number])?;
        }
        Ok(())
    }

    fn put_client_records(&mut self, name: &str, records: &[ClientRec]) -> Result<(), ReadFault>
        ensures { Puts result self.old self.new (named name.now (list_map Client records.now)) }
    {
        for rec in records {
            self.put_client_record(name, rec)?;
        }
        Ok(())
    }

    fn put_records(&mut self, name: &str, records: &Records) -> Result<(), ReadFault>
        ensures { Puts result self.old self.new (named name.now (recs_in records.now)) }
    {
        match records {
            Records::Stream(entries) => self.put_entries(name, entries),
            Records::Node(records) => self.put_node_records(name, records),
            Records::Client(records) => self.put_client_records(name, records.as_slice()),
        }
    }

    /// Adds the lines of a tap: its header, and then its records.
    fn put_tap(&mut self, tap: &Tap) -> Result<(), ReadFault>
        ensures { Puts result self.old self.new (named_recs tap.now) }
    {
        let name = tap.name.as_str();
        self.put_header(name, kind_of(&tap.records), tap.version)?;
        self.put_records(name, &tap.records)
    }
}

/// What a tap was put on.
fn kind_of(records: &Records) -> TapKind
    ensures { result ≡ kind_of_tap records.now }
{
    match records {
        Records::Stream(_) => TapKind::Stream,
        Records::Node(_) => TapKind::Node,
        Records::Client(_) => TapKind::Client,
    }
}

fn all_lines(alloc: Global, taps: &[Tap]) -> Result<Lines, ReadFault>
    ensures written { IfOk result (λ lines. AreWritten lines (recs_of_taps taps.now)) }
    ensures refused { IfErr result (λ e. AreRefused e (recs_of_taps taps.now)) }
{
    let mut lines = Lines::new(alloc);
    for tap in taps {
        lines.put_tap(tap)?;
    }
    Ok(lines)
}

/// The bytes of a bundle: the taps in their order, each its header and then its records, as `write_line` writes them,
/// and each line ended by a newline. The first line that would be longer than 4,194,304 bytes is refused as
/// `LineTooLong`, by its number, which counts from 1; the other error is `Memory`.
///
/// The bytes of taps that a bundle can tell are read as those taps, by `Splitter` and `read_bundle`.
pub fn write_bundle(alloc: Global, taps: &Taps) -> Result<Vec<u8>, ReadFault>
    ensures written { IfOk result (λ bytes. written_bundle taps.now ≡ Ok bytes.items) }
    ensures refused { IfErr result (λ e. e ≢ ReadFault.Memory → written_bundle taps.now ≡ Err e) }
    ensures lines { All (λ t. is_tap_name t.name ≡ true) taps.now
        → IfOk result (λ bytes. lines_of bytes.items
        ≡ record { lines = numbered 1 (line_texts (recs_of_taps taps.now)); fault = None }) }
    ensures reads_back { IfOk result (λ bytes. All ReadsBack (recs_of_taps taps.now)) }
    ensures read_back { AreOfABundle taps.now
        → IfOk result (λ bytes. AreReadAs bytes.items taps.now) }
{
    let lines = all_lines(alloc, taps.as_slice())?;
    Ok(lines.bytes)
}

//! A tap, while it is read.
ghost use Rattle.std.specs.Prelude.{◌≡◌, ◌++◌, List, ℕ, IfOk, OnOk};
ghost use Rattle.aud_json.specs.View.{view};
ghost use Rattle.aud_reader.specs.Private.Changes.{Becomes};
ghost use Rattle.aud_tap.specs.Forms.{is_text};
ghost use Rattle.aud_reader.specs.Bundle.{no_records, pids_in, with_tap_record};
ghost use Rattle.aud_reader.specs.Private.NewRecord.{with_new_record};
ghost use Rattle.aud_reader.specs.Private.Packed.{rec_of};
ghost use Rattle.aud_reader.specs.Private.Texts.{HasPids};

use super::client_log::ClientLog;
use super::node_log::{add_node_record, push_node_record};
use super::packed::PackedRec;
use super::stream_log::StreamLog;
use crate::fault::{HEADER_TWICE, LineFault, UNKNOWN_KIND};
use aud_base::TextPool;
use aud_json::Fields;
use aud_tap::{NodeRecs, Rec, Records, Tap, TapKind, Text, Version};
use std::alloc::{AllocError, Global};
use std::collections::HashSet;
use std::hash::RandomState;

/// The records of a tap so far.
#[derive(Drop)]
pub enum OpenLog {
    Stream(StreamLog),
    Node(NodeRecs),
    Client(ClientLog),
}

impl OpenLog {
    ghost use Rattle.aud_reader.specs.SoFar.{records_so_far};

    fn new(alloc: Global, keys: RandomState, of: TapKind) -> OpenLog
        ensures { records_so_far result ≡ no_records of }
    {
        match of {
            TapKind::Stream => OpenLog::Stream(StreamLog::new(alloc, keys)),
            TapKind::Node => OpenLog::Node(NodeRecs::new(alloc)),
            TapKind::Client => OpenLog::Client(ClientLog::new(alloc)),
        }
    }

    /// Adds the record of a line in a tap of this version, of which the texts are shared with the pool. The pids are
    /// those of all node records.
    fn add(
        &mut self,
        version: Version,
        pool: &mut TextPool,
        pids: &mut HashSet<Text, RandomState>,
        kind: &str,
        d: &Fields<'_>,
    ) -> Result<(), LineFault>
        ensures records { (before after : List (List ℕ))
            → HasPids pids.old (before ++ pids_in (records_so_far self.old) ++ after)
            → Becomes result (records_so_far self.new) (with_tap_record version
            (before ++ pids_in (records_so_far self.old) ++ after)
            (records_so_far self.old) kind.now (view d.now)) }
        ensures pids { (before after : List (List ℕ))
            → HasPids pids.old (before ++ pids_in (records_so_far self.old) ++ after)
            → OnOk result (HasPids pids.new (before ++ pids_in (records_so_far self.new)
            ++ after)) }
    {
        match self {
            OpenLog::Stream(entries) => entries.add(pool, kind, d),
            OpenLog::Node(records) => add_node_record(version, pool, records, pids, kind, d),
            OpenLog::Client(records) => records.add(pool, kind, d),
        }
    }

    /// Adds a record to those of a tap of this version. The pids are those of all node records.
    fn push(
        &mut self,
        version: Version,
        pids: &mut HashSet<Text, RandomState>,
        rec: PackedRec,
    ) -> Result<(), LineFault>
        ensures records { (before after : List (List ℕ))
            → HasPids pids.old (before ++ pids_in (records_so_far self.old) ++ after)
            → Becomes result (records_so_far self.new) (with_new_record version
            (before ++ pids_in (records_so_far self.old) ++ after) (records_so_far self.old)
            (rec_of rec)) }
        ensures pids { (before after : List (List ℕ))
            → HasPids pids.old (before ++ pids_in (records_so_far self.old) ++ after)
            → OnOk result (HasPids pids.new (before ++ pids_in (records_so_far self.new)
            ++ after)) }
    {
        match (self, rec.unpacked()) {
            (OpenLog::Stream(entries), Rec::Stream(entry)) => entries.push(entry),
            (OpenLog::Node(records), Rec::Node(rec)) => {
                push_node_record(version, records, pids, rec)
            }
            (OpenLog::Client(records), Rec::Client(rec)) => records.push(rec),
            (_, Rec::Header { .. }) => Err(HEADER_TWICE),
            _ => Err(UNKNOWN_KIND),
        }
    }

    fn close(self) -> Result<Records, AllocError>
        ensures { IfOk result (λ records. records ≡ records_so_far self) }
    {
        match self {
            OpenLog::Stream(entries) => Ok(Records::Stream(entries.close())),
            OpenLog::Node(records) => Ok(Records::Node(records)),
            OpenLog::Client(records) => Ok(Records::Client(records.close()?)),
        }
    }
}

/// A tap so far.
#[derive(Drop)]
pub struct OpenTap {
    name: Text,
    version: Version,
    log: OpenLog,
}

impl OpenTap {
    ghost use Rattle.aud_reader.specs.SoFar.{records_so_far, tap_so_far};

    /// A tap without records. Offsets are hashed with these keys.
    pub fn new(
        alloc: Global,
        keys: RandomState,
        name: Text,
        of: TapKind,
        version: Version,
    ) -> OpenTap
        ensures { tap_so_far result
            ≡ record { name = name; version = version; records = no_records of } }
    {
        OpenTap {
            name,
            version,
            log: OpenLog::new(alloc, keys, of),
        }
    }

    /// Whether these bytes are the tap's name.
    pub fn is_named(&self, name: &[u8]) -> bool
        ensures { result ≡ is_text self.now.name name.now }
    {
        self.name.as_str().as_bytes() == name
    }

    /// Adds the record of a line, of which the texts are shared with the pool. The pids are those of all node records.
    pub fn add(
        &mut self,
        pool: &mut TextPool,
        pids: &mut HashSet<Text, RandomState>,
        kind: &str,
        d: &Fields<'_>,
    ) -> Result<(), LineFault>
        ensures name { self.new.name ≡ self.old.name }
        ensures version { self.new.version ≡ self.old.version }
        ensures records { (before after : List (List ℕ))
            → HasPids pids.old (before ++ pids_in (records_so_far self.old.log) ++ after)
            → Becomes result (records_so_far self.new.log) (with_tap_record self.old.version
            (before ++ pids_in (records_so_far self.old.log) ++ after)
            (records_so_far self.old.log) kind.now (view d.now)) }
        ensures pids { (before after : List (List ℕ))
            → HasPids pids.old (before ++ pids_in (records_so_far self.old.log) ++ after)
            → OnOk result (HasPids pids.new (before ++ pids_in (records_so_far self.new.log)
            ++ after)) }
    {
        self.log.add(self.version, pool, pids, kind, d)
    }

    /// Adds a record. The pids are those of all node records.
    pub fn push(
        &mut self,
        pids: &mut HashSet<Text, RandomState>,
        rec: PackedRec,
    ) -> Result<(), LineFault>
        ensures name { self.new.name ≡ self.old.name }
        ensures version { self.new.version ≡ self.old.version }
        ensures records { (before after : List (List ℕ))
            → HasPids pids.old (before ++ pids_in (records_so_far self.old.log) ++ after)
            → Becomes result (records_so_far self.new.log) (with_new_record self.old.version
            (before ++ pids_in (records_so_far self.old.log) ++ after)
            (records_so_far self.old.log) (rec_of rec)) }
        ensures pids { (before after : List (List ℕ))
            → HasPids pids.old (before ++ pids_in (records_so_far self.old.log) ++ after)
            → OnOk result (HasPids pids.new (before ++ pids_in (records_so_far self.new.log)
            ++ after)) }
    {
        self.log.push(self.version, pids, rec)
    }

    /// The tap, at the end.
    pub fn close(self) -> Result<Tap, AllocError>
        ensures { IfOk result (λ tap. tap ≡ tap_so_far self) }
    {
        let OpenTap { name, version, log } = self;
        Ok(Tap {
            name,
            version,
            records: log.close()?,
        })
    }
}

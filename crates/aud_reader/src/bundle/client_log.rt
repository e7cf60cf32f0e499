//! The records of a client tap, while they are read.
ghost use Rattle.std.specs.Prelude.{◌≡◌, ◌∷◌, ◌++◌, [], IfOk, Ok};
ghost use Rattle.aud_json.specs.View.{view};
ghost use Rattle.aud_reader.specs.Connections.{may_follow};
ghost use Rattle.aud_reader.specs.Private.Connected.{Connected};
ghost use Rattle.aud_reader.specs.Steps.{Gives};
ghost use Rattle.aud_reader.specs.Bundle.{client_room, with_client_record};
ghost use Rattle.aud_reader.specs.Private.NewRecord.{with_new_client_record};

use crate::fault::{FIELD, LIMIT, LineFault};
use crate::limits::MAX_RECORDS;
use crate::read::client::client_record;
use aud_base::{Paged, TextPool};
use aud_json::Fields;
use aud_tap::{ClientRec, ClientRecs};
use std::alloc::{AllocError, Global};
use std::marker::Model;

/// The records so far, in pages, the number of the connection that began last, and whether one is open.
#[derive(Drop)]
pub struct ClientLog {
    alloc: Global,
    records: Paged<ClientRec>,
    last: Option<u64>,
    is_open: bool,
}

impl Model for ClientLog {
    ghost use Rattle.std.specs.Prelude.{List};
    ghost use Rattle.aud_tap.specs.declared.records.ClientRec.{ClientRec};
    ghost use Rattle.aud_reader.specs.Private.Connected.{Connected};

    ghost Value = { List ClientRec };

    ghost view = { λ s. s.records };

    ghost invariant = { λ s. Connected s.records s.last s.is_open };
}

impl ClientLog {
    ghost use Rattle.aud_reader.specs.Private.Changes.{Becomes};

    pub fn new(alloc: Global) -> ClientLog
        ensures { result ≡ [] }
    {
        ClientLog {
            alloc,
            records: Paged::new(alloc),
            last: None,
            is_open: false,
        }
    }

    /// A connection may begin with a greater number than the one before; all else needs one that is open.
    fn may_follow(&self, rec: &ClientRec) -> bool
        ensures { result ≡ may_follow self.now rec.now }
    {
        match rec {
            ClientRec::Conn { c } => match self.last {
                Some(last) => last < *c,
                None => true,
            },
            _ => self.is_open,
        }
    }

    /// The connection after one more record.
    fn connection_after(&self, rec: &ClientRec) -> (Option<u64>, bool)
        ensures { Connected (self.now ++ rec.now ∷ []) result.0 result.1 }
    {
        match rec {
            ClientRec::Conn { c } => (Some(*c), true),
            ClientRec::Lost => (self.last, false),
            ClientRec::TextIn { .. }
            | ClientRec::BytesIn { .. }
            | ClientRec::Poll { .. }
            | ClientRec::TextOut { .. } => (self.last, self.is_open),
        }
    }

    /// Whether a record may follow, and there is room for it.
    fn admit(&self, rec: &ClientRec) -> Result<(), LineFault>
        ensures { Gives result (client_room self.now rec.now) }
    {
        if !self.may_follow(rec) {
            return Err(FIELD);
        }
        if self.records.len() >= MAX_RECORDS {
            return Err(LIMIT);
        }
        Ok(())
    }

    fn append(&mut self, rec: ClientRec) -> Result<(), LineFault>
        ensures { Becomes result self.new (Ok (self.old ++ rec ∷ [])) }
    {
        let (last, is_open) = self.connection_after(&rec);
        self.records.push(rec)?;
        self.last = last;
        self.is_open = is_open;
        Ok(())
    }

    /// Adds a record, if it may follow, and there is room for it.
    pub fn push(&mut self, rec: ClientRec) -> Result<(), LineFault>
        ensures { Becomes result self.new (with_new_client_record self.old rec) }
    {
        self.admit(&rec)?;
        self.append(rec)
    }

    /// Adds the record of a line, of which the texts are shared with the pool.
    #[tactic(auto, unfolding(crate::specs::Bundle::with_client_record))]
    pub fn add(&mut self, pool: &mut TextPool, kind: &str, d: &Fields<'_>) -> Result<(), LineFault>
        ensures { Becomes result self.new (with_client_record self.old kind.now (view d.now)) }
    {
        let rec = client_record(self.alloc, pool, kind, d)?;
        self.push(rec)
    }

    /// The records, at the end, moved out of their pages.
    pub fn close(self) -> Result<ClientRecs, AllocError>
        ensures { IfOk result (λ records. records ≡ self) }
    {
        Ok(ClientRecs::new(self.records.into_vec()?))
    }
}

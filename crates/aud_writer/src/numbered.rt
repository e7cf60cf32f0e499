//! The JSON of a record by its number.
ghost use Rattle.std.specs.Prelude.{◌≡◌, false, IfOk, IfSome, slice_get};
ghost use Rattle.std.specs.Option.{option_map};
ghost use Rattle.serde_json.specs.View.{view};
ghost use Rattle.serde_json.specs.Written.{has_float};
ghost use Rattle.aud_reader.specs.OwnLines.{recs_in};
ghost use Rattle.aud_writer.specs.Written.{client_data, node_data, record_data, stream_data};

use super::client::client_value;
use super::node::node_value;
use super::stream::stream_value;
use aud_tap::{ClientRec, NodeRecs, Records, StreamRecs};
use serde_json::Value;
use std::alloc::{AllocError, Global};

fn entry_at(alloc: Global, entries: &StreamRecs, number: usize) -> Result<Option<Value>, AllocError>
    ensures { IfOk result (λ value. option_map (λ v. view v) value
        ≡ option_map stream_data (slice_get entries.now number)) }
{
    match entries.get(number) {
        Some(entry) => Ok(Some(stream_value(alloc, entry)?)),
        None => Ok(None),
    }
}

fn node_record_at(
    alloc: Global,
    records: &NodeRecs,
    number: usize,
) -> Result<Option<Value>, AllocError>
    ensures { IfOk result (λ value. option_map (λ v. view v) value
        ≡ option_map node_data (slice_get records.now number)) }
{
    match records.get(number) {
        Some(rec) => Ok(Some(node_value(alloc, rec)?)),
        None => Ok(None),
    }
}

fn client_record_at(
    alloc: Global,
    records: &[ClientRec],
    number: usize,
) -> Result<Option<Value>, AllocError>
    ensures { IfOk result (λ value. option_map (λ v. view v) value
        ≡ option_map client_data (slice_get records.now number)) }
{
    match records.get(number) {
        Some(rec) => Ok(Some(client_value(alloc, rec)?)),
        None => Ok(None),
    }
}

/// The JSON of the record with this number of a tap, as its line has it; none where the tap has no such record. Records
/// count from 0, without the tap's header.
pub fn value_at(
    alloc: Global,
    records: &Records,
    number: usize,
) -> Result<Option<Value>, AllocError>
    ensures data { IfOk result (λ value. option_map (λ v. view v) value
        ≡ option_map record_data (slice_get (recs_in records.now) number)) }
    ensures plain { IfOk result (λ value. IfSome value (λ v. has_float (view v) ≡ false)) }
{
    match records {
        Records::Stream(entries) => entry_at(alloc, entries, number),
        Records::Node(records) => node_record_at(alloc, records, number),
        Records::Client(records) => client_record_at(alloc, records.as_slice(), number),
    }
}

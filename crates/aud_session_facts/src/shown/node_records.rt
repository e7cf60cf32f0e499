//! The rows of nodes' records.
ghost use Rattle.std.specs.Prelude.{◌≡◌, IfOk, map};
ghost use Rattle.aud_rows.specs.Seen.{row_seen};
ghost use Rattle.aud_session_facts.specs.NodeRows.{node_rows};
ghost use Rattle.aud_session_facts.specs.RowLists.{AreTrueRows};

use crate::place::RecordPlace;
use crate::shown::pushed::push_row;
use aud_rows::{Role, Row, Sheet};
use std::alloc::{AllocError, Global};

/// A record of a node, and what it is shown for.
#[derive(Clone, Copy, Drop)]
pub struct NodeRecord {
    pub place: RecordPlace,
    pub role: Role,
}

/// The rows of these records, in their order. A record whose line isn't known has no row.
pub fn node_rows<'r>(
    alloc: Global,
    sheet: &Sheet<'r, '_>,
    records: &[NodeRecord],
) -> Result<Vec<Row<'r>>, AllocError>
    ensures rows { IfOk result (λ rows. map row_seen rows.items
        ≡ node_rows sheet.now.recording.now sheet.now.lines.now records.now) }
    ensures truth { IfOk result (λ rows.
        AreTrueRows sheet.now.recording.now sheet.now.lines.now rows.items) }
{
    let mut rows = Vec::new(alloc);
    for shown in records {
        let place = shown.place;
        push_row(
            &mut rows,
            sheet.node_row(place.node, place.number, shown.role),
        )?;
    }
    Ok(rows)
}

//! The rows of long evidence.
ghost use Rattle.std.specs.Prelude.{◌≡◌, IfOk, find};
ghost use Rattle.aud_explanation.specs.LongRows.{is_earlier_row, is_fault_row, kept_rows, rows_left};

use crate::long::{front, left_out, past};
use aud_rows::{Role, Row};
use std::alloc::{AllocError, Global};

/// The first of the rows at which the fault shows.
fn first_fault<'r>(rows: &[Row<'r>]) -> Option<Row<'r>>
    ensures { result ≡ find is_fault_row rows.now }
{
    rows.iter()
        .copied()
        .find(|row| matches!(row.role, Role::Fault))
}

/// The first of the rows whose record the fault contradicts.
fn first_earlier<'r>(rows: &[Row<'r>]) -> Option<Row<'r>>
    ensures { result ≡ find is_earlier_row rows.now }
{
    rows.iter()
        .copied()
        .find(|row| matches!(row.role, Role::Earlier))
}

/// Those of the rows between the first 100 and the last 100 that are shown all the same: two at most.
#[tactic(auto, unfolding(crate::specs::LongRows::kept_rows, crate::specs::LongRows::rows_between))]
pub(crate) fn kept_rows<'r>(alloc: Global, rows: &[Row<'r>]) -> Result<Vec<Row<'r>>, AllocError>
    ensures { IfOk result (λ kept. kept.items ≡ kept_rows rows.now) }
{
    let between = front(past(rows, 100), left_out(rows));
    let mut kept = Vec::new(alloc);
    if let Some(row) = first_earlier(between) {
        kept.push(row)?;
    }
    if let Some(row) = first_fault(between) {
        kept.push(row)?;
    }
    Ok(kept)
}

/// How many rows are left out, where these are kept.
#[tactic(auto, unfolding(crate::specs::LongRows::rows_left))]
pub(crate) fn rows_left(rows: &[Row<'_>], kept: &[Row<'_>]) -> usize
    requires { kept.now ≡ kept_rows rows.now }
    ensures { result ≡ rows_left rows.now }
{
    left_out(rows).saturating_sub(kept.len())
}

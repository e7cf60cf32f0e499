//! Rows that are collected.
ghost use Rattle.std.specs.Prelude.{◌≡◌, ◌++◌, List, IfSome, OnOk, map, option_map, option_to_list};
ghost use Rattle.aud_node.specs.Cluster.{Cluster};
ghost use Rattle.aud_input.specs.TapLines.{TapLines};
ghost use Rattle.aud_rows.specs.Seen.{row_seen};
ghost use Rattle.aud_rows.specs.TrueRow.{IsTrueRow};
ghost use Rattle.aud_session_facts.specs.RowLists.{AreTrueRows};

use aud_rows::Row;
use std::alloc::AllocError;

/// Adds the row, if there is one.
pub fn push_row<'r>(rows: &mut Vec<Row<'r>>, row: Option<Row<'r>>) -> Result<(), AllocError>
    ensures rows { OnOk result (map row_seen rows.new.items
        ≡ map row_seen rows.old.items ++ option_to_list (option_map row_seen row.entry)) }
    ensures truth { (c : Cluster) (lines : List TapLines) → AreTrueRows c lines rows.old.items
        → IfSome row.entry (IsTrueRow c lines) → OnOk result (AreTrueRows c lines rows.new.items) }
{
    if let Some(row) = row {
        rows.push(row)?;
    }
    Ok(())
}

/// Adds the rows.
pub fn push_rows<'r>(rows: &mut Vec<Row<'r>>, more: &[Row<'r>]) -> Result<(), AllocError>
    ensures rows { OnOk result (map row_seen rows.new.items
        ≡ map row_seen rows.old.items ++ map row_seen more.now) }
    ensures truth { (c : Cluster) (lines : List TapLines) → AreTrueRows c lines rows.old.items
        → AreTrueRows c lines more.now → OnOk result (AreTrueRows c lines rows.new.items) }
{
    for row in more {
        rows.push(*row)?;
    }
    Ok(())
}

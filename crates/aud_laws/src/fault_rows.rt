//! The record at which a fault shows is among the rows that are written of it.
ghost use Rattle.std.specs.Prelude.{◌≡◌, ◌≤◌, ℕ, Bool, true, List, Option};
ghost use Rattle.std.specs.List.{All};
ghost use Rattle.aud_tap.specs.declared.taps.Tap.{Tap};
ghost use Rattle.aud_node.specs.Cluster.{Cluster};
ghost use Rattle.aud_node.specs.Stream.{Text};
ghost use Rattle.aud_cert.specs.declared.fault.Fault.{Fault};
ghost use Rattle.aud_cert.specs.declared.fault.Fault.TheVariants.{Tail};
ghost use Rattle.aud_input.specs.declared.line_runs.LineRun.{LineRun};
ghost use Rattle.aud_input.specs.declared.reading.Recorded.{Recorded};
ghost use Rattle.aud_input.specs.Files.{AreRecorded};
ghost use Rattle.aud_input.specs.LineRuns.{AreKnown, taps_named};
ghost use Rattle.aud_input.specs.TapLines.{TapLines, max_numbered};
ghost use Rattle.aud_rows.specs.Seen.{RowSeen};
ghost use Rattle.aud_laws.specs.FaultRows.{AreWrittenOf, HasReceived, KnowsEachRecord, has_fault_row, shows_at_record};

use aud_input::{lines_are_named, lines_of_files, records_have_their_lines};
use aud_session_facts::verdict_is_found;

/// Of files of no more than 4,294,967,294 lines that were read as one input, as by
/// [`read_files`](aud_input::read_files), a line is kept for each record; and where they are a part of a recording, and
/// the line of the recording that each line of a tap comes from is kept, so it is of the lines that are named as those.
pub fn records_have_kept_lines()
    ensures read { (lefts : List (Option (List ℕ))) (read : Recorded) → AreRecorded lefts read
        → read.size.lines ≤ max_numbered → KnowsEachRecord read.taps read.lines }
    ensures named { (runs : List LineRun) (taps : List Tap) (lines : List TapLines)
        → All (AreKnown runs) lines → KnowsEachRecord taps lines
        → KnowsEachRecord taps (taps_named runs lines) }
{
    records_have_their_lines();
    lines_of_files();
    lines_are_named();
}

/// Where a line is kept for each record, the record at which a fault shows is among the rows that
/// [`explain`](aud_explain_app::explain) writes of it: one of them is marked by `<-`. It is so of each fault but
/// `NOLOG`, `CLIENT` and `TAIL`; of a tail the last event that came is, if any came.
pub fn fault_has_its_row()
    ensures row { (c : Cluster) (lines : List TapLines) (whole : Bool) (pid : Text)
        (fault : Fault) (rows : List RowSeen) → AreWrittenOf c lines whole pid fault rows
        → shows_at_record fault ≡ true → has_fault_row rows ≡ true }
    ensures tail { (c : Cluster) (lines : List TapLines) (whole : Bool) (pid : Text)
        (count : ℕ) (rows : List RowSeen) → AreWrittenOf c lines whole pid (Tail count) rows
        → HasReceived c pid → has_fault_row rows ≡ true }
{
    verdict_is_found();
}

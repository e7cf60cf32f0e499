//! What a merge gives, in the words of the verdicts.
ghost use Rattle.aud_parts.specs.MergeLaws.{MergesReports, MergesLines};

/// Of the reports on the parts, [`merge`](crate::merge) gives the report on the whole.
///
/// For whatever verdicts on the sessions of a listing whose texts are of one line each, and the reports on the parts in
/// whatever order: the report is byte for byte that on all verdicts, and it says whether all of them are yes.
pub fn merges_reports()
    ensures { MergesReports }
{}

/// Where [`merge`](crate::merge) gives a report, it is of the lines of the reports.
///
/// There is a line for each session, in the order of the listing; the lines of a part's sessions are those of the
/// part's report, in their order; and the last line has their counts.
pub fn merges_lines()
    ensures { MergesLines }
{}

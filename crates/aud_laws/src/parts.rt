//! A part of a recording tells the same of its sessions, so the reports on the parts make the report on the whole.
ghost use Rattle.std.specs.Prelude.{◌≡◌, ℕ, Bool, true, List, filter};
ghost use Rattle.aud_tap.specs.declared.taps.Tap.{Tap};
ghost use Rattle.aud_node.specs.Stream.{Text};
ghost use Rattle.aud_node.specs.Cluster.{cluster_of};
ghost use Rattle.aud_maker.specs.Sessions.{sessions_of};
ghost use Rattle.aud_writer.specs.OfABundle.{AreOfABundle};
ghost use Rattle.aud_verdict.specs.declared.verdict.SessionVerdict.{SessionVerdict};
ghost use Rattle.aud_verdict.specs.Verdicts.{AreVerdicts};
ghost use Rattle.aud_parts.specs.LeftOut.{IsJudgedAlike};
ghost use Rattle.aud_parts.specs.declared.listing.Listing.{Listing};
ghost use Rattle.aud_parts.specs.declared.clients.measured.MeasuredClient.{MeasuredClient};
ghost use Rattle.aud_parts.specs.declared.plan.Plan.{Plan};
ghost use Rattle.aud_parts.specs.Merged.{merged};
ghost use Rattle.aud_parts.specs.Together.{IsPlanOf};
ghost use Rattle.aud_parts.specs.Part.{is_among, part_for, KeepsClients, KeepsFirsts};
ghost use Rattle.aud_laws.specs.Parts.{AreFormed, AreFew, IsListed, IsListingOf, AreReportsOn, IsReportOfWhole, whole_of};

use aud_parts::{merges_reports, plans_keep_together};
use aud_upgrade::upgrades_keep_verdicts;

/// A session of a part has the same verdict over the part and over the whole recording, with `--whole` and without.
///
/// In the logs that tell of a session of the part no `start` may come to stand first.
pub fn part_is_judged_alike()
    ensures { (taps : List Tap) (pids : List Text) (pid : Text) → is_among pids pid ≡ true
        → KeepsFirsts pids taps
        → IsJudgedAlike (cluster_of taps) (cluster_of (part_for pids taps)) pid }
{
    upgrades_keep_verdicts();
}

/// The sessions of a part are those of the whole recording that it is made for, in their order there, where no client's
/// tap that names one of them names another session.
pub fn part_has_its_sessions()
    ensures { (taps : List Tap) (pids : List Text) → KeepsClients pids taps
        → sessions_of (cluster_of (part_for pids taps))
        ≡ filter (is_among pids) (sessions_of (cluster_of taps)) }
{
    upgrades_keep_verdicts();
}

/// The answers in the report on a part are those on its sessions in the report on the whole recording, in their order
/// there.
pub fn part_is_reported_alike()
    ensures { (taps : List Tap) (whole : Bool) (pids : List Text)
        (entries its : List SessionVerdict)
        → KeepsClients pids taps → KeepsFirsts pids taps
        → AreVerdicts (cluster_of taps) whole (sessions_of (cluster_of taps)) entries
        → let part = cluster_of (part_for pids taps) in
        AreVerdicts part whole (sessions_of part) its
        → its ≡ filter (λ (entry : SessionVerdict). is_among pids entry.pid) entries }
{
    upgrades_keep_verdicts();
}

/// The listing of a plan that was made of a recording's taps is one of that recording: it has the sessions of it in
/// their order, and those of each part may make one.
pub fn plan_is_listed()
    ensures { (taps : List Tap) (told : List MeasuredClient) (plan : Plan) (listing : Listing)
        → IsPlanOf taps told plan → IsListed plan listing → IsListingOf taps listing }
{
    plans_keep_together();
}

/// Of the reports on the parts of a listing, in whatever order, [`merge`](aud_parts::merge) gives the report of the
/// verdicts on the sessions of the whole recording, where the taps of that are well formed. A session has one verdict:
/// so this is the report on the whole, byte for byte.
pub fn reports_are_merged()
    ensures verdicts { (taps : List Tap) (whole : Bool) (listing : Listing)
        (reports : List (List ℕ)) → AreFormed taps → IsListingOf taps listing
        → AreReportsOn taps whole listing reports
        → IsReportOfWhole taps whole (merged listing reports) }
    ensures report { (taps : List Tap) (whole : Bool) (listing : Listing)
        (reports : List (List ℕ)) (entries : List SessionVerdict) → AreFormed taps
        → IsListingOf taps listing → AreReportsOn taps whole listing reports
        → AreVerdicts (cluster_of taps) whole (sessions_of (cluster_of taps)) entries
        → merged listing reports ≡ whole_of entries }
{
    upgrades_keep_verdicts();
    merges_reports();
}

/// A part is a bundle in version 2, where the taps of the whole recording are well formed, each by itself and in their
/// names, and the part has no more taps and pids than a bundle may have. The whole may have more.
///
/// So the bytes that [`write_bundle`](aud_writer::write_bundle) writes of it are read as it.
pub fn part_is_of_a_bundle()
    ensures { (taps : List Tap) (pids : List Text) → AreFormed taps → AreFew (part_for pids taps)
        → AreOfABundle (part_for pids taps) }
{}

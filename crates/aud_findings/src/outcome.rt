//! What is found of a session.
ghost use Rattle.std.specs.Prelude.{◌≡◌, IfOk, IfSome, is_some, map, option_map};
ghost use Rattle.aud_session_facts.specs.Account.{IsAccountOf};
ghost use Rattle.aud_rows.specs.Seen.{row_seen};
ghost use Rattle.aud_session_facts.specs.RowLists.{AreTrueRows};
ghost use Rattle.aud_findings.specs.Prepared.{IsPreparedOf};
ghost use Rattle.aud_findings.specs.Also.{IsAlsoShown, others_seen};
ghost use Rattle.aud_findings.specs.Received.{IsReceivedShown};
ghost use Rattle.aud_findings.specs.ClientShown.{client_of, client_seen, fault_conn};
ghost use Rattle.aud_findings.specs.Evidence.{IsEvidence};

use crate::account::received_shown;
use crate::also::also_found;
use crate::evidence::evidence_of;
use crate::prepared::Prepared;
use aud_explanation::{Account as Received, Client};
use aud_rows::{Role, Row, Says, Sheet};
use aud_session_facts::Account;
use aud_verdict::Verdict;
use std::alloc::{AllocError, Global};

/// Other entries, one after the other in the stream, that have the fault too.
#[derive(Drop)]
pub struct AlsoShown {
    /// The first of them; positions count from 1.
    pub position: u64,
    /// The last of them.
    pub to: u64,
    /// The lines that show it, which count from 1: of one entry all of them; of more the first line of the first entry
    /// and the last line of the last one.
    pub lines: Vec<u64>,
}

/// The other entries that have the fault too.
#[derive(Drop)]
pub struct OthersShown {
    /// The first hundred ranges of them at most, ascending.
    pub ranges: Vec<AlsoShown>,
    /// How many entries past these ranges have it.
    pub left: u64,
}

/// What is found of a session. Rows and names are borrowed from the sheet alone.
#[derive(Drop)]
pub struct Outcome<'r> {
    /// The client that had it; none where no tap of a client names it, or several do. Its connection is the one on
    /// which the fault shows.
    pub client: Option<Client<'r>>,
    /// What was received of what was due; none where the delivery was not judged.
    pub account: Option<Received>,
    /// The records that show the fault.
    pub evidence: Vec<Row<'r>>,
    /// The other entries with the same fault: of one that wasn't due those that came and weren't due either; of one that
    /// came twice, too late or never those due that did so too; of a frame that isn't its entry those of which a frame
    /// isn't either; of a tail those after its first one. None of other faults.
    pub also: OthersShown,
}

/// What is found of the session with this pid, on which this is the verdict and of which this is the account. What was
/// prepared is of the same recording; a tap that wasn't asked for there is read here.
pub fn outcome_of<'r, 'a>(
    alloc: Global,
    sheet: Sheet<'r, 'a>,
    prepared: &Prepared,
    pid: &str,
    verdict: &Verdict,
    account: Option<&Account<'r, 'a>>,
) -> Result<Outcome<'r>, AllocError>
    requires prepared { IsPreparedOf sheet.recording.now prepared.now }
    requires account { IfSome account (λ a. IsAccountOf sheet.recording.now pid.now a.now) }
    ensures evidence { IfOk result (λ found.
        IsEvidence sheet.entry.recording.now sheet.entry.lines.now pid.now
        (is_some account.entry) verdict.now (map row_seen found.evidence.items)) }
    ensures truth { IfOk result (λ found.
        AreTrueRows sheet.entry.recording.now sheet.entry.lines.now found.evidence.items) }
    ensures client { IfOk result (λ found. option_map client_seen found.client
        ≡ client_of sheet.entry.recording.now pid.now (map row_seen found.evidence.items)) }
    ensures account { IfOk result (λ found. IsReceivedShown sheet.entry.recording.now pid.now
        (is_some account.entry) verdict.now found.account) }
    ensures also { IfOk result (λ found.
        IsAlsoShown sheet.entry.recording.now sheet.entry.lines.now pid.now
        (is_some account.entry) verdict.now (others_seen found.also)) }
{
    let evidence = evidence_of(alloc, &sheet, prepared, pid, verdict, account)?;
    let client = client_of(alloc, &sheet, pid, &evidence)?;
    let received = received_shown(alloc, account, verdict)?;
    let also = also_found(alloc, &sheet, prepared, pid, verdict, account)?;
    Ok(Outcome {
        client,
        account: received,
        evidence,
        also,
    })
}

/// The client of the one tap with a reply that names the session, and the connection on which these rows show the
/// fault; none where there is no such tap, or several.
#[tactic(auto, using(crate::proofs::Told::told_some, crate::proofs::Told::told_none))]
fn client_of<'r>(
    alloc: Global,
    sheet: &Sheet<'r, '_>,
    pid: &str,
    rows: &[Row<'_>],
) -> Result<Option<Client<'r>>, AllocError>
    ensures { IfOk result (λ client. option_map client_seen client
        ≡ client_of sheet.now.recording.now pid.now (map row_seen rows.now)) }
{
    let [place] = sheet.recording.naming(pid) else {
        return Ok(None);
    };
    let Some(tap) = sheet.recording.logs().taps().get(*place) else {
        return Ok(None);
    };
    let Some(client) = sheet.recording.client(*place) else {
        return Ok(None);
    };
    let stays = client.naming(alloc, pid)?;
    let Some(stay) = stays.first().copied() else {
        return Ok(None);
    };
    Ok(Some(Client {
        tap: tap.name.as_str(),
        nsp: stay.nsp,
        conn: fault_conn(rows),
    }))
}

/// The connection of the first of the rows at which the fault shows, if that is of a client's record.
fn fault_conn(rows: &[Row<'_>]) -> Option<u64>
    ensures { result ≡ fault_conn (map row_seen rows.now) }
{
    for row in rows {
        if matches!(row.role, Role::Fault) {
            return match row.says {
                Says::Asks { conn, .. }
                | Says::Reply { conn, .. }
                | Says::Got { conn, .. }
                | Says::Lost { conn }
                | Says::NoPacket { conn } => Some(conn),
                _ => None,
            };
        }
    }
    None
}

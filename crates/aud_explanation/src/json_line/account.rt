//! The members of the client, and of what it received.
ghost use Rattle.std.specs.Prelude.{◌≡◌, OnOk};
ghost use Rattle.serde_json.specs.View.{members_view};
ghost use Rattle.aud_explanation.specs.JsonAccount.{with_account, with_client};

use crate::client::{Account, Client};
use crate::json_line::value::{number_or_null, put_numbers, put_texts};
use crate::tail::shown_tail;
use aud_verdict::Verdict;
use serde_json::{Map, Value, put};
use std::alloc::{AllocError, Global};

/// Puts the tap, the namespace and the connection of the client.
#[tactic(auto, unfolding(crate::specs::JsonAccount::with_client))]
pub(crate) fn put_client(
    alloc: Global,
    members: &mut Map<String, Value>,
    client: Option<Client<'_>>,
) -> Result<(), AllocError>
    ensures { OnOk result (members_view members.new.entries
        ≡ with_client client.entry (members_view members.old.entries)) }
{
    let (tap, nsp, conn) = match client {
        Some(client) => (Some(client.tap), Some(client.nsp), client.conn),
        None => (None, None, None),
    };
    put_texts(alloc, members, &[("client", tap), ("nsp", nsp)])?;
    put(members, alloc, "conn", number_or_null(conn))
}

/// Puts what was received of what was due; the tail is `null` where it isn't shown.
#[tactic(auto, unfolding(crate::specs::JsonAccount::with_account))]
pub(crate) fn put_account(
    alloc: Global,
    members: &mut Map<String, Value>,
    verdict: &Verdict,
    account: Option<Account>,
) -> Result<(), AllocError>
    ensures { OnOk result (members_view members.new.entries
        ≡ with_account verdict.now account (members_view members.old.entries)) }
{
    let (got, due, tail, at_frame) = match account {
        Some(account) => (
            Some(account.got),
            Some(account.due),
            shown_tail(verdict, account.tail),
            account.at_frame,
        ),
        None => (None, None, None, None),
    };
    let numbers = [
        ("got", got),
        ("due", due),
        ("tail", tail),
        ("at_frame", at_frame),
    ];
    put_numbers(alloc, members, &numbers)
}

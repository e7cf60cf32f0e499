//! The line of the client.
ghost use Rattle.std.specs.Prelude.{◌≡◌, ◌++◌, OnOk, string_bytes};
ghost use Rattle.aud_explanation.specs.Client.{account_words, client_text, client_words};

use crate::client::{Account, Client};
use crate::name::{Names, push_name};
use crate::tail::shown_tail;
use crate::text::page::push_line;
use crate::text::span::push_known;
use aud_verdict::Verdict;
use std::alloc::{AllocError, Global};

/// Puts the words for the client at the end: its tap, the namespace, and the connection, where there is one.
fn push_words(
    alloc: Global,
    line: &mut String,
    client: Option<Client<'_>>,
) -> Result<(), AllocError>
    ensures { OnOk result (string_bytes line.new
        ≡ string_bytes line.old ++ client_words client.entry) }
{
    match client {
        Some(client) => {
            let tap = client.tap;
            write!(line, "client {tap}, namespace ")?;
            push_name(alloc, line, Names::Short, client.nsp)?;
            push_known(line, ", connection ", client.conn)
        }
        None => write!(line, "no one client"),
    }
}

/// Puts what was received of what was due at the end, where the delivery was judged.
fn push_account(
    line: &mut String,
    verdict: &Verdict,
    account: Option<Account>,
) -> Result<(), AllocError>
    ensures { OnOk result (string_bytes line.new
        ≡ string_bytes line.old ++ account_words verdict.now account) }
{
    match account {
        Some(account) => {
            let (got, due) = (account.got, account.due);
            write!(line, ", got {got}, due {due}")?;
            push_known(line, ", tail ", shown_tail(verdict, account.tail))?;
            push_known(line, ", differs at frame ", account.at_frame)
        }
        None => write!(line, ", delivery not judged"),
    }
}

/// Puts the line of the client at the end: its tap, how many turns the session had, and what was received.
pub(crate) fn push_client(
    alloc: Global,
    out: &mut String,
    verdict: &Verdict,
    client: Option<Client<'_>>,
    turns: usize,
    account: Option<Account>,
) -> Result<(), AllocError>
    ensures { OnOk result (string_bytes out.new
        ≡ string_bytes out.old ++ client_text verdict.now client.entry turns account) }
{
    let mut line = String::new(alloc);
    push_words(alloc, &mut line, client)?;
    write!(&mut line, ", turns {turns}")?;
    push_account(&mut line, verdict, account)?;
    push_line(out, line.as_str())
}

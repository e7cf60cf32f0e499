//! Which acts the state allows.
ghost use Rattle.std.specs.Prelude.{◌≡◌};
ghost use Rattle.std.specs.Option.{option_copied};
ghost use Rattle.std.specs.List.{list_all};
ghost use Rattle.aud_sim.specs.Cluster.{seen};
ghost use Rattle.aud_sim.specs.Possible.{numbered, is_letter, is_word, has_connection, is_connected, has_no_fault, break_of, lag, can_take, can_connect, can};

use crate::act::Act;
use crate::bundle::LogFault;
use crate::client::{At, Client, Injected};
use crate::cluster::Cluster;
use crate::node::Node;

/// The most entries of a stream.
const MAX_ENTRIES: usize = 1_000_000;

/// The most sessions.
const MAX_SESSIONS: usize = 65_536;

fn is_letter(b: u8) -> bool
    ensures { result ≡ is_letter b }
{
    matches!(b, b'A'..=b'Z' | b'a'..=b'z')
}

fn are_letters(word: &[u8]) -> bool
    ensures { result ≡ list_all is_letter word.now }
{
    word.iter().all(|b| is_letter(*b))
}

/// Whether the text can be a word: 1 to 32 letters of ASCII.
fn is_word(word: &str) -> bool
    ensures { result ≡ is_word word.now }
{
    1 <= word.len() && word.len() <= 32 && are_letters(word.as_bytes())
}

/// The client of this number, from 1.
fn client_numbered(clients: &[Client], number: usize) -> Option<&Client>
    ensures { option_copied result ≡ numbered clients.now number }
{
    if number == 0 {
        return None;
    }
    clients.get(number - 1)
}

/// The node of this number, from 1.
fn node_numbered(nodes: &[Node], number: usize) -> Option<&Node>
    ensures { option_copied result ≡ numbered nodes.now number }
{
    if number == 0 {
        return None;
    }
    nodes.get(number - 1)
}

fn has_connection(client: &Client) -> bool
    ensures { result ≡ has_connection client.now }
{
    match &client.session {
        Some(session) => match session.at {
            At::Node(_) => true,
            At::Away(_) => false,
        },
        None => false,
    }
}

/// Whether there is such a client, and it has a connection.
fn is_connected(clients: &[Client], number: usize) -> bool
    ensures { result ≡ is_connected clients.now number }
{
    match client_numbered(clients, number) {
        Some(client) => has_connection(client),
        None => false,
    }
}

/// Whether there is such a client, and no fault waits for its next frame or holds it.
fn has_no_fault(clients: &[Client], number: usize) -> bool
    ensures { result ≡ has_no_fault clients.now number }
{
    match client_numbered(clients, number) {
        Some(client) => match client.injected {
            Injected::Nothing => true,
            _ => false,
        },
        None => false,
    }
}

/// The cursor at which the client's session broke, where there is such a client and its session may begin another turn.
fn break_of(clients: &[Client], number: usize) -> Option<usize>
    ensures { result ≡ break_of clients.now number }
{
    let session = client_numbered(clients, number)?.session.as_ref()?;
    match session.at {
        At::Away(cursor) if session.last.is_some() && session.turn < u16::MAX => Some(cursor),
        _ => None,
    }
}

/// Whether the node has taken less than that of the break had, where there is such a node and the client's session may
/// begin another turn.
fn lag(cluster: &Cluster, client: usize, node: usize) -> Option<bool>
    ensures { result ≡ lag (seen cluster.now) client node }
{
    let cursor = break_of(&cluster.clients, client)?;
    let node = node_numbered(&cluster.nodes, node)?;
    Some(node.cursor < cursor)
}

fn can_take(cluster: &Cluster, node: usize) -> bool
    ensures { result ≡ can_take (seen cluster.now) node }
{
    match node_numbered(&cluster.nodes, node) {
        Some(node) => node.cursor < cluster.entries.len(),
        None => false,
    }
}

fn can_connect(cluster: &Cluster, client: usize, node: usize) -> bool
    ensures { result ≡ can_connect (seen cluster.now) client node }
{
    let Some(client) = client_numbered(&cluster.clients, client) else {
        return false;
    };
    !has_connection(client)
        && node_numbered(&cluster.nodes, node).is_some()
        && cluster.sessions < MAX_SESSIONS
}

/// Whether the state allows the act. That each of its lines can be a bundle's shows when they are written.
pub fn can(act: &Act, cluster: &Cluster) -> bool
    ensures { result ≡ can act.now (seen cluster.now) }
{
    let clients = cluster.clients.as_slice();
    match act {
        Act::Emit { word, .. } => is_word(word.as_str()) && cluster.entries.len() < MAX_ENTRIES,
        Act::Volatile { client, word } => is_word(word.as_str()) && is_connected(clients, *client),
        Act::Take { node } => can_take(cluster, *node),
        Act::Connect { client, node }
        | Act::ConnectUnanswered { client, node }
        | Act::ConnectMisnamed { client, node } => can_connect(cluster, *client, *node),
        Act::Join { client, .. }
        | Act::Leave { client, .. }
        | Act::Cut { client }
        | Act::Finish { client } => is_connected(clients, *client),
        Act::Recover { client, node }
        | Act::RecoverUnknown { client, node }
        | Act::RecoverUnanswered { client, node } => match lag(cluster, *client, *node) {
            Some(lags) => !lags,
            None => false,
        },
        Act::RecoverLagging { client, node } => match lag(cluster, *client, *node) {
            Some(lags) => lags,
            None => false,
        },
        Act::DropNext { client }
        | Act::DoubleNext { client }
        | Act::HoldNext { client }
        | Act::AlterNext { client }
        | Act::GarbleNext { client }
        | Act::ShortenNext { client } => has_no_fault(clients, *client),
        Act::LoseLine | Act::RepeatLine => match cluster.bundle.fault {
            LogFault::Nothing => true,
            _ => false,
        },
    }
}

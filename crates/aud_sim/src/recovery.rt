//! Recoveries.
ghost use Rattle.std.specs.Prelude.{◌≡◌, OnOk};
ghost use Rattle.aud_sim.specs.Acts.{lines_asked, break_cursor, replied, replay, recovered_on, node_recovered, lines_recovered, client_recovered, nodes_recovered};
ghost use Rattle.aud_sim.specs.Nodes.{node_joined};
ghost use Rattle.aud_sim.specs.Sessions.{asked_position, with_asking, session_back, client_connected};

use crate::bundle::Bundle;
use crate::client::{Asked, At, Client, Reply, Session};
use crate::delivery;
use crate::entry::Entry;
use crate::node::{Guest, Node};
use crate::sessions::{begin, reply};
use crate::texts::asking_text;
use aud_tap::{ClientRec, NodeRec};
use std::alloc::AllocError;

/// The position of the entry after which a client asks to go on.
fn asked_position(asked: Asked, last: Option<usize>) -> Option<usize>
    ensures { result ≡ asked_position asked last }
{
    match asked {
        Asked::LastReceived => last,
        Asked::Unknown => Some(0),
    }
}

/// The client asks for its session.
fn ask(bundle: &mut Bundle, asked: Asked, name: &str, session: &Session) -> Result<(), AllocError>
    ensures { OnOk result (bundle.new ≡ with_asking asked name.now session.now bundle.old) }
{
    match asked_position(asked, session.last) {
        Some(position) => {
            let t = asking_text(bundle.alloc, session.pid.as_str(), position)?;
            bundle.client(name, ClientRec::TextOut { t })
        }
        None => Ok(()),
    }
}

/// What is written before a replay: the connection, the client's CONNECT, and that the session is back.
fn write_asking(
    bundle: &mut Bundle,
    asked: Asked,
    client: &mut Client,
    node: &Node,
    session: &Session,
) -> Result<(), AllocError>
    ensures lines { OnOk result (bundle.new
        ≡ lines_asked asked client.old node.now session.now bundle.old) }
    ensures client { OnOk result (client.new ≡ client_connected client.old) }
{
    begin(bundle, client)?;
    ask(bundle, asked, client.name.as_str(), session)?;
    let pid = session.pid.share()?;
    let turn = session.turn;
    bundle.node(node.name.as_str(), NodeRec::Back { pid, turn })
}

/// The cursor of the break.
fn break_cursor(at: At, node: &Node) -> usize
    ensures { result ≡ break_cursor at node.now }
{
    match at {
        At::Away(cursor) => cursor,
        At::Node(_) => node.cursor,
    }
}

/// What a client that has its session back is told of it.
fn answer(bundle: &mut Bundle, told: Reply, client: &Client) -> Result<(), AllocError>
    ensures { OnOk result (bundle.new
        ≡ replied told (record { lines = bundle.old; client = client.now })) }
{
    match &client.session {
        Some(session) => reply(bundle, told, client.name.as_str(), session),
        None => Ok(()),
    }
}

/// The session of a client, given apart, is recovered on a node: it is sent the entries past the cursor of the break up
/// to that of the node that are addressed to it.
fn recover(
    bundle: &mut Bundle,
    asked: Asked,
    entries: &[Entry],
    client: &mut Client,
    mut session: Session,
    client_index: usize,
    node: &mut Node,
    node_index: usize,
) -> Result<(), AllocError>
    ensures lines { OnOk result (bundle.new
        ≡ (replay asked entries.now client.old node.old session
        (session_back node_index session) bundle.old).lines) }
    ensures client { OnOk result (client.new
        ≡ (replay asked entries.now client.old node.old session
        (session_back node_index session) bundle.old).client) }
    ensures node { OnOk result (node.new
        ≡ node_joined (record { session = session.number; client = client_index }) node.old) }
{
    let from = break_cursor(session.at, node);
    let number = session.number;
    session.turn = session.turn.saturating_add(1);
    session.at = At::Node(node_index);
    write_asking(bundle, asked, client, node, &session)?;
    client.session = Some(session);
    delivery::replay(bundle, entries, from, node.cursor, client)?;
    node.join(Guest {
        session: number,
        client: client_index,
    })
}

/// The session of a client, if it has one, is recovered on a node.
fn recover_session(
    bundle: &mut Bundle,
    asked: Asked,
    entries: &[Entry],
    client: &mut Client,
    client_index: usize,
    node: &mut Node,
    index: usize,
) -> Result<(), AllocError>
    ensures lines { OnOk result (bundle.new
        ≡ (recovered_on asked entries.now index node.old client.old bundle.old).lines) }
    ensures client { OnOk result (client.new
        ≡ (recovered_on asked entries.now index node.old client.old bundle.old).client) }
    ensures node { OnOk result (node.new ≡ node_recovered client_index client.old node.old) }
{
    match client.session.take() {
        Some(session) => recover(
            bundle,
            asked,
            entries,
            client,
            session,
            client_index,
            node,
            index,
        ),
        None => Ok(()),
    }
}

/// The session of a client is recovered on the node with an index, if there is one, and the client is told this of it.
pub fn recover_on(
    bundle: &mut Bundle,
    told: Reply,
    asked: Asked,
    entries: &[Entry],
    client: &mut Client,
    client_index: usize,
    nodes: &mut Vec<Node>,
    index: usize,
) -> Result<(), AllocError>
    ensures lines { OnOk result (bundle.new
        ≡ lines_recovered told asked entries.now index nodes.old.items client.old bundle.old) }
    ensures client { OnOk result (client.new
        ≡ client_recovered asked entries.now index nodes.old.items client.old bundle.old) }
    ensures nodes { OnOk result (nodes.new.items
        ≡ nodes_recovered client_index index client.old nodes.old.items) }
{
    match nodes.get_mut(index) {
        Some(node) => {
            recover_session(bundle, asked, entries, client, client_index, node, index)?;
            answer(bundle, told, client)
        }
        None => Ok(()),
    }
}

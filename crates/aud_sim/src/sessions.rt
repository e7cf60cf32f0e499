//! Sessions: opened, joining and leaving rooms, broken, over.
ghost use Rattle.std.specs.Prelude.{◌≡◌, IfOk, OnOk, slice_get};
ghost use Rattle.std.specs.Option.{option_copied};
ghost use Rattle.aud_sim.specs.Acts.{lines_opened, lines_connected, client_connected_to, nodes_joined, lines_joined, lines_parted, lines_cut, lines_finished, client_opened, client_joined, client_parted, nodes_after_leaving};
ghost use Rattle.aud_sim.specs.Clients.{fault_after_connection, next_number};
ghost use Rattle.aud_sim.specs.Nodes.{host, node_joined, node_left, nodes_left, place_after_break};
ghost use Rattle.aud_sim.specs.Sessions.{with_connection, with_reply_of, with_reply, with_departure, with_left, with_change, first_session, session_joined, session_parted, session_cut, client_connected, client_cut, client_finished};

use crate::bundle::Bundle;
use crate::client::{At, Client, Injected, Reply, Session};
use crate::node::{Guest, Node};
use crate::rooms::HeldRooms;
use crate::texts::name_of;
use aud_tap::{ClientRec, NodeRec, Text};
use std::alloc::{AllocError, Global};

/// The fault once a connection is over: a held frame is not written any more.
fn fault_after_connection(fault: Injected) -> Injected
    ensures { result ≡ fault_after_connection fault }
{
    match fault {
        Injected::Holds(_) => Injected::Nothing,
        _ => fault,
    }
}

/// That a connection of the client begins.
pub fn begin(bundle: &mut Bundle, client: &mut Client) -> Result<(), AllocError>
    ensures client { OnOk result (client.new ≡ client_connected client.old) }
    ensures lines { OnOk result (bundle.new
        ≡ with_connection client.old.name (next_number client.old.connections) bundle.old) }
{
    client.connections = client.connections.saturating_add(1);
    let c = client.connections;
    bundle.client(client.name.as_str(), ClientRec::Conn { c })
}

/// The server's answer to the client's CONNECT, with this sid.
fn reply_of(bundle: &mut Bundle, name: &str, sid: &str, session: &Session) -> Result<(), AllocError>
    ensures { OnOk result (bundle.new ≡ with_reply_of name.now sid.now session.now bundle.old) }
{
    let pid = session.pid.as_str();
    let text = format!(in bundle.alloc; "40{{\"sid\":\"{sid}\",\"pid\":\"{pid}\"}}")?;
    let t = Text::new(bundle.alloc, text.as_str())?;
    bundle.client(name, ClientRec::TextIn { t })
}

/// The server's answer to the client's CONNECT.
pub fn reply(
    bundle: &mut Bundle,
    reply: Reply,
    name: &str,
    session: &Session,
) -> Result<(), AllocError>
    ensures { OnOk result (bundle.new ≡ with_reply reply name.now session.now bundle.old) }
{
    match reply {
        Reply::Own => reply_of(bundle, name, session.sid.as_str(), session),
        Reply::OtherSid => {
            let sid = name_of(bundle.alloc, "x", session.number)?;
            reply_of(bundle, name, sid.as_str(), session)
        }
        Reply::Missing => Ok(()),
    }
}

/// The session of a number, opened on the node with an index.
fn first_session(alloc: Global, number: usize, node: usize) -> Result<Session, AllocError>
    ensures { IfOk result (λ session. session ≡ first_session number node) }
{
    let sid = name_of(alloc, "s", number)?;
    let pid = name_of(alloc, "p", number)?;
    let rooms = HeldRooms::own(alloc, sid.as_str())?;
    Ok(Session {
        number,
        pid,
        sid,
        rooms,
        turn: 0,
        last: None,
        at: At::Node(node),
    })
}

/// A client opens this session on a node: what is written.
fn write_opening(
    bundle: &mut Bundle,
    answer: Reply,
    client: &mut Client,
    node: &Node,
    session: &Session,
) -> Result<(), AllocError>
    ensures lines { OnOk result (bundle.new
        ≡ lines_opened answer client.old node.now session.now bundle.old) }
    ensures client { OnOk result (client.new ≡ client_connected client.old) }
{
    let pid = session.pid.share()?;
    let sid = session.sid.share()?;
    let nsp = Text::new(bundle.alloc, "/")?;
    bundle.node(node.name.as_str(), NodeRec::Opened { pid, sid, nsp })?;
    begin(bundle, client)?;
    reply(bundle, answer, client.name.as_str(), session)
}

/// A client opens the session of a number on a node, and is told this of it.
fn open(
    bundle: &mut Bundle,
    answer: Reply,
    client: &mut Client,
    client_index: usize,
    node: &mut Node,
    node_index: usize,
    number: usize,
) -> Result<(), AllocError>
    ensures lines { OnOk result (bundle.new
        ≡ lines_opened answer client.old node.old (first_session number node_index) bundle.old) }
    ensures client { OnOk result (client.new
        ≡ client_opened (first_session number node_index) client.old) }
    ensures node { OnOk result (node.new
        ≡ node_joined (record { session = number; client = client_index }) node.old) }
{
    let session = first_session(bundle.alloc, number, node_index)?;
    write_opening(bundle, answer, client, node, &session)?;
    client.session = Some(session);
    node.join(Guest {
        session: number,
        client: client_index,
    })
}

/// A client opens the session of a number on the node with an index, if there is one, and is told this of it.
pub fn open_on(
    bundle: &mut Bundle,
    answer: Reply,
    client: &mut Client,
    client_index: usize,
    nodes: &mut Vec<Node>,
    index: usize,
    number: usize,
) -> Result<(), AllocError>
    ensures lines { OnOk result (bundle.new
        ≡ lines_connected answer (slice_get nodes.old.items index)
        (first_session number index) client.old bundle.old) }
    ensures client { OnOk result (client.new
        ≡ client_connected_to (slice_get nodes.old.items index)
        (first_session number index) client.old) }
    ensures nodes { OnOk result (nodes.new.items
        ≡ nodes_joined number client_index index nodes.old.items) }
{
    match nodes.get_mut(index) {
        Some(node) => open(bundle, answer, client, client_index, node, index, number),
        None => Ok(()),
    }
}

/// The node that a session is on.
fn host(nodes: &[Node], at: At) -> Option<&Node>
    ensures { option_copied result ≡ host nodes.now at }
{
    match at {
        At::Node(index) => nodes.get(index),
        At::Away(_) => None,
    }
}

/// The session joins a room, where it is on a node.
fn join_here(
    bundle: &mut Bundle,
    nodes: &[Node],
    session: &mut Session,
    room: &str,
) -> Result<(), AllocError>
    ensures lines { OnOk result (bundle.new
        ≡ with_change (host nodes.now session.old.at)
        (NodeRec.Join session.old.pid room.now) bundle.old) }
    ensures session { OnOk result (session.new
        ≡ session_joined (host nodes.now session.old.at) room.now session.old) }
{
    let Some(node) = host(nodes, session.at) else {
        return Ok(());
    };
    let pid = session.pid.share()?;
    let own = Text::new(bundle.alloc, room)?;
    bundle.node(node.name.as_str(), NodeRec::Join { pid, room: own })?;
    session.rooms.join(room)
}

/// The session leaves a room, where it is on a node.
fn leave_here(
    bundle: &mut Bundle,
    nodes: &[Node],
    session: &mut Session,
    room: &str,
) -> Result<(), AllocError>
    ensures lines { OnOk result (bundle.new
        ≡ with_change (host nodes.now session.old.at)
        (NodeRec.Leave session.old.pid room.now) bundle.old) }
    ensures session { OnOk result (session.new
        ≡ session_parted (host nodes.now session.old.at) room.now session.old) }
{
    let Some(node) = host(nodes, session.at) else {
        return Ok(());
    };
    let pid = session.pid.share()?;
    let own = Text::new(bundle.alloc, room)?;
    bundle.node(node.name.as_str(), NodeRec::Leave { pid, room: own })?;
    session.rooms.leave(room);
    Ok(())
}

/// The session of a client joins a room.
pub fn join(
    bundle: &mut Bundle,
    nodes: &[Node],
    client: &mut Client,
    room: &str,
) -> Result<(), AllocError>
    ensures lines { OnOk result (bundle.new
        ≡ lines_joined nodes.now room.now client.old bundle.old) }
    ensures client { OnOk result (client.new ≡ client_joined nodes.now room.now client.old) }
{
    match &mut client.session {
        Some(session) => join_here(bundle, nodes, session, room),
        None => Ok(()),
    }
}

/// The session of a client leaves a room.
pub fn leave(
    bundle: &mut Bundle,
    nodes: &[Node],
    client: &mut Client,
    room: &str,
) -> Result<(), AllocError>
    ensures lines { OnOk result (bundle.new
        ≡ lines_parted nodes.now room.now client.old bundle.old) }
    ensures client { OnOk result (client.new ≡ client_parted nodes.now room.now client.old) }
{
    match &mut client.session {
        Some(session) => leave_here(bundle, nodes, session, room),
        None => Ok(()),
    }
}

/// The session of a number leaves its node, in whose log this record says so; then the client's connection is lost.
fn depart(
    bundle: &mut Bundle,
    name: &str,
    node: &mut Node,
    number: usize,
    rec: NodeRec,
) -> Result<(), AllocError>
    ensures lines { OnOk result (bundle.new
        ≡ with_departure name.now node.old.name rec bundle.old) }
    ensures node { OnOk result (node.new ≡ node_left number node.old) }
{
    bundle.node(node.name.as_str(), rec)?;
    bundle.client(name, ClientRec::Lost)?;
    node.leave(number);
    Ok(())
}

/// The same, where the session is on a node.
fn leave_node(
    bundle: &mut Bundle,
    name: &str,
    nodes: &mut Vec<Node>,
    at: At,
    number: usize,
    rec: NodeRec,
) -> Result<(), AllocError>
    ensures lines { OnOk result (bundle.new
        ≡ with_left name.now (host nodes.old.items at) rec bundle.old) }
    ensures nodes { OnOk result (nodes.new.items ≡ nodes_left number at nodes.old.items) }
{
    let At::Node(index) = at else {
        return Ok(());
    };
    match nodes.get_mut(index) {
        Some(node) => depart(bundle, name, node, number, rec),
        None => Ok(()),
    }
}

/// Where a session is after a break.
fn place_after_break(nodes: &[Node], at: At) -> At
    ensures { result ≡ place_after_break nodes.now at }
{
    match host(nodes, at) {
        Some(node) => At::Away(node.cursor),
        None => at,
    }
}

/// The connection of a session breaks.
fn cut_session(
    bundle: &mut Bundle,
    nodes: &mut Vec<Node>,
    name: &str,
    session: &mut Session,
) -> Result<(), AllocError>
    ensures lines { OnOk result (bundle.new
        ≡ with_left name.now (host nodes.old.items session.old.at)
        (NodeRec.Broke session.old.pid session.old.turn) bundle.old) }
    ensures nodes { OnOk result (nodes.new.items
        ≡ nodes_left session.old.number session.old.at nodes.old.items) }
    ensures session { OnOk result (session.new ≡ session_cut nodes.old.items session.old) }
{
    let away = place_after_break(nodes, session.at);
    let pid = session.pid.share()?;
    let rec = NodeRec::Broke {
        pid,
        turn: session.turn,
    };
    leave_node(bundle, name, nodes, session.at, session.number, rec)?;
    session.at = away;
    Ok(())
}

/// The connection of a client breaks.
pub fn cut(
    bundle: &mut Bundle,
    nodes: &mut Vec<Node>,
    client: &mut Client,
) -> Result<(), AllocError>
    ensures lines { OnOk result (bundle.new ≡ lines_cut nodes.old.items client.old bundle.old) }
    ensures nodes { OnOk result (nodes.new.items ≡ nodes_after_leaving client.old nodes.old.items) }
    ensures client { OnOk result (client.new ≡ client_cut nodes.old.items client.old) }
{
    match &mut client.session {
        Some(session) => cut_session(bundle, nodes, client.name.as_str(), session)?,
        None => return Ok(()),
    }
    client.injected = fault_after_connection(client.injected);
    Ok(())
}

/// What is written where the session of a client ends, and that it leaves its node.
fn write_end(
    bundle: &mut Bundle,
    nodes: &mut Vec<Node>,
    name: &str,
    session: &Session,
) -> Result<(), AllocError>
    ensures lines { OnOk result (bundle.new
        ≡ with_left name.now (host nodes.old.items session.now.at)
        (NodeRec.Gone session.now.pid) bundle.old) }
    ensures nodes { OnOk result (nodes.new.items
        ≡ nodes_left session.now.number session.now.at nodes.old.items) }
{
    let pid = session.pid.share()?;
    leave_node(
        bundle,
        name,
        nodes,
        session.at,
        session.number,
        NodeRec::Gone { pid },
    )
}

/// The session of a client ends.
pub fn finish(
    bundle: &mut Bundle,
    nodes: &mut Vec<Node>,
    client: &mut Client,
) -> Result<(), AllocError>
    ensures lines { OnOk result (bundle.new
        ≡ lines_finished nodes.old.items client.old bundle.old) }
    ensures nodes { OnOk result (nodes.new.items ≡ nodes_after_leaving client.old nodes.old.items) }
    ensures client { OnOk result (client.new ≡ client_finished client.old) }
{
    match &client.session {
        Some(session) => write_end(bundle, nodes, client.name.as_str(), session)?,
        None => return Ok(()),
    }
    client.injected = fault_after_connection(client.injected);
    client.session = None;
    Ok(())
}

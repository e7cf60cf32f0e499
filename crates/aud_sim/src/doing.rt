//! What an act does.
ghost use Rattle.std.specs.Prelude.{◌≡◌, ◌-◌, OnOk};
ghost use Rattle.aud_sim.specs.Acts.{emitted, lines_taken, node_taken, taken, connected, recovered, volatile_sent, joined, parted, cut, finished, injected_in, awaited, after};
ghost use Rattle.aud_sim.specs.Cluster.{seen};

use crate::act::Act;
use crate::bundle::{Bundle, LogFault};
use crate::client::{Asked, Injected, Reply};
use crate::cluster::Cluster;
use crate::delivery::deliver_to_all;
use crate::entry::{Entry, event};
use crate::node::Node;
use crate::recovery::recover_on;
use crate::sessions::{self, open_on};
use aud_tap::{Bytes, ClientRec, NodeRec, Rec, StreamRec, Text};
use std::alloc::AllocError;

/// The index of what has this number, from 1.
fn index(number: usize) -> usize
    ensures { result ≡ number - 1 }
{
    number.saturating_sub(1)
}

/// An event is put into the stream.
fn emit(
    cluster: &mut Cluster,
    rooms: &[Text],
    except: &[Text],
    word: &str,
    bin: &[Bytes],
) -> Result<(), AllocError>
    ensures { OnOk result (seen cluster.new
        ≡ emitted rooms.now except.now word.now bin.now (seen cluster.old)) }
{
    let Cluster {
        alloc,
        bundle,
        entries,
        ..
    } = cluster;
    let position = entries.len() + 1;
    let told = event(*alloc, rooms, except, word, bin, position)?;
    bundle.line("st", &Rec::Stream(StreamRec::Ev(told)))?;
    entries.push(Entry::new(*alloc, rooms, except, word, bin, position)?)?;
    Ok(())
}

/// A node takes its next entry, if there is one.
fn take_next(bundle: &mut Bundle, entries: &[Entry], node: &mut Node) -> Result<(), AllocError>
    ensures lines { OnOk result (bundle.new ≡ lines_taken entries.now node.old bundle.old) }
    ensures node { OnOk result (node.new ≡ node_taken entries.now node.old) }
{
    let Some(entry) = entries.get(node.cursor) else {
        return Ok(());
    };
    let off = entry.event.off.share()?;
    bundle.node(node.name.as_str(), NodeRec::Take { off })?;
    node.cursor += 1;
    Ok(())
}

/// The node with an index takes its next entry, and sends it.
fn take(cluster: &mut Cluster, index: usize) -> Result<(), AllocError>
    ensures { OnOk result (seen cluster.new ≡ taken index (seen cluster.old)) }
{
    let Cluster {
        bundle,
        entries,
        nodes,
        clients,
        ..
    } = cluster;
    let Some(node) = nodes.get_mut(index) else {
        return Ok(());
    };
    take_next(bundle, entries, node)?;
    deliver_to_all(bundle, entries, node.cursor, clients, &node.guests)
}

/// A client opens a session on a node, both by number, and is told this of it.
fn connect(
    cluster: &mut Cluster,
    reply: Reply,
    client: usize,
    node: usize,
) -> Result<(), AllocError>
    ensures { OnOk result (seen cluster.new
        ≡ connected reply (client - 1) (node - 1) (seen cluster.old)) }
{
    let Cluster {
        bundle,
        nodes,
        clients,
        sessions,
        ..
    } = cluster;
    let (client, node) = (index(client), index(node));
    let number = sessions.saturating_add(1);
    match clients.get_mut(client) {
        Some(who) => open_on(bundle, reply, who, client, nodes, node, number)?,
        None => return Ok(()),
    }
    *sessions = number;
    Ok(())
}

/// The session of a client, which asks so, is recovered on a node, both by number, and the client is told this of it.
fn recover(
    cluster: &mut Cluster,
    reply: Reply,
    asked: Asked,
    client: usize,
    node: usize,
) -> Result<(), AllocError>
    ensures { OnOk result (seen cluster.new
        ≡ recovered reply asked (client - 1) (node - 1) (seen cluster.old)) }
{
    let Cluster {
        bundle,
        entries,
        nodes,
        clients,
        ..
    } = cluster;
    let (client, node) = (index(client), index(node));
    match clients.get_mut(client) {
        Some(who) => recover_on(bundle, reply, asked, entries, who, client, nodes, node),
        None => Ok(()),
    }
}

/// A client is sent an event of a word alone.
fn send_volatile(cluster: &mut Cluster, index: usize, word: &str) -> Result<(), AllocError>
    ensures { OnOk result (seen cluster.new ≡ volatile_sent index word.now (seen cluster.old)) }
{
    let Some(client) = cluster.clients.get(index) else {
        return Ok(());
    };
    let text = format!(in cluster.alloc; "42[\"{word}\"]")?;
    let t = Text::new(cluster.alloc, text.as_str())?;
    cluster
        .bundle
        .client(client.name.as_str(), ClientRec::TextIn { t })
}

/// The session of a client joins a room.
fn join(cluster: &mut Cluster, index: usize, room: &str) -> Result<(), AllocError>
    ensures { OnOk result (seen cluster.new ≡ joined index room.now (seen cluster.old)) }
{
    let Cluster {
        bundle,
        nodes,
        clients,
        ..
    } = cluster;
    match clients.get_mut(index) {
        Some(client) => sessions::join(bundle, nodes, client, room),
        None => Ok(()),
    }
}

/// The session of a client leaves a room.
fn leave(cluster: &mut Cluster, index: usize, room: &str) -> Result<(), AllocError>
    ensures { OnOk result (seen cluster.new ≡ parted index room.now (seen cluster.old)) }
{
    let Cluster {
        bundle,
        nodes,
        clients,
        ..
    } = cluster;
    match clients.get_mut(index) {
        Some(client) => sessions::leave(bundle, nodes, client, room),
        None => Ok(()),
    }
}

/// The connection of a client breaks.
fn cut(cluster: &mut Cluster, index: usize) -> Result<(), AllocError>
    ensures { OnOk result (seen cluster.new ≡ cut index (seen cluster.old)) }
{
    let Cluster {
        bundle,
        nodes,
        clients,
        ..
    } = cluster;
    match clients.get_mut(index) {
        Some(client) => sessions::cut(bundle, nodes, client),
        None => Ok(()),
    }
}

/// The session of a client ends.
fn finish(cluster: &mut Cluster, index: usize) -> Result<(), AllocError>
    ensures { OnOk result (seen cluster.new ≡ finished index (seen cluster.old)) }
{
    let Cluster {
        bundle,
        nodes,
        clients,
        ..
    } = cluster;
    match clients.get_mut(index) {
        Some(client) => sessions::finish(bundle, nodes, client),
        None => Ok(()),
    }
}

/// A fault waits for the client's next frame.
fn inject(cluster: &mut Cluster, index: usize, fault: Injected)
    ensures { seen cluster.new ≡ injected_in index fault (seen cluster.old) }
{
    if let Some(client) = cluster.clients.get_mut(index) {
        client.injected = fault;
    }
}

/// A fault waits, where the act says so.
fn await_fault(cluster: &mut Cluster, act: &Act)
    ensures { seen cluster.new ≡ awaited act.now (seen cluster.old) }
{
    match act {
        Act::DropNext { client } => inject(cluster, index(*client), Injected::DropNext),
        Act::DoubleNext { client } => inject(cluster, index(*client), Injected::DoubleNext),
        Act::HoldNext { client } => inject(cluster, index(*client), Injected::HoldNext),
        Act::AlterNext { client } => inject(cluster, index(*client), Injected::AlterNext),
        Act::GarbleNext { client } => inject(cluster, index(*client), Injected::GarbleNext),
        Act::ShortenNext { client } => inject(cluster, index(*client), Injected::ShortenNext),
        Act::LoseLine => cluster.bundle.fault = LogFault::LoseLine,
        Act::RepeatLine => cluster.bundle.fault = LogFault::RepeatLine,
        _ => {}
    }
}

/// Does an act that the state allows.
pub fn perform(cluster: &mut Cluster, act: &Act) -> Result<(), AllocError>
    ensures { OnOk result (seen cluster.new ≡ after act.now (seen cluster.old)) }
{
    match act {
        Act::Emit {
            rooms,
            except,
            word,
            bin,
        } => {
            let (rooms, except) = (rooms.as_slice(), except.as_slice());
            emit(cluster, rooms, except, word.as_str(), bin.as_slice())
        }
        Act::Volatile { client, word } => send_volatile(cluster, index(*client), word.as_str()),
        Act::Take { node } => take(cluster, index(*node)),
        Act::Connect { client, node } => connect(cluster, Reply::Own, *client, *node),
        Act::ConnectUnanswered { client, node } => {
            connect(cluster, Reply::Missing, *client, *node)
        }
        Act::ConnectMisnamed { client, node } => {
            connect(cluster, Reply::OtherSid, *client, *node)
        }
        Act::Join { client, room } => join(cluster, index(*client), room.as_str()),
        Act::Leave { client, room } => leave(cluster, index(*client), room.as_str()),
        Act::Cut { client } => cut(cluster, index(*client)),
        Act::Recover { client, node } | Act::RecoverLagging { client, node } => {
            recover(cluster, Reply::Own, Asked::LastReceived, *client, *node)
        }
        Act::RecoverUnknown { client, node } => {
            recover(cluster, Reply::Own, Asked::Unknown, *client, *node)
        }
        Act::RecoverUnanswered { client, node } => {
            recover(cluster, Reply::Missing, Asked::LastReceived, *client, *node)
        }
        Act::Finish { client } => finish(cluster, index(*client)),
        _ => {
            await_fault(cluster, act);
            Ok(())
        }
    }
}

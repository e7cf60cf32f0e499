//! The state of a simulated cluster.
ghost use Rattle.std.specs.Prelude.{◌≡◌, IfOk, OnOk};
ghost use Rattle.aud_sim.specs.Bundle.{with_line};
ghost use Rattle.aud_sim.specs.Cluster.{first_nodes, first_clients, with_each, first_lines};
ghost use Rattle.aud_sim.specs.Texts.{name_of};

use crate::bundle::Bundle;
use crate::client::{Client, Injected};
use crate::entry::Entry;
use crate::node::Node;
use crate::texts::name_of;
use aud_tap::{NodeRec, Rec, TapKind, Version};
use std::alloc::{AllocError, Global};

/// The bundle so far, the entries of the stream, the nodes, the clients, and how many sessions were opened.
#[derive(Drop)]
pub struct Cluster {
    pub alloc: Global,
    pub bundle: Bundle,
    pub entries: Vec<Entry>,
    pub nodes: Vec<Node>,
    pub clients: Vec<Client>,
    pub sessions: usize,
}

/// The nodes, by number from 1, of which none has taken an entry.
fn first_nodes(alloc: Global, count: usize) -> Result<Vec<Node>, AllocError>
    ensures { IfOk result (λ nodes. nodes.items ≡ first_nodes count) }
{
    let mut nodes = Vec::new(alloc);
    for index in 0..count {
        nodes.push(Node {
            name: name_of(alloc, "n", index + 1)?,
            cursor: 0,
            guests: Vec::new(alloc),
        })?;
    }
    Ok(nodes)
}

/// The clients, by number from 1, of which none has a session.
fn first_clients(alloc: Global, count: usize) -> Result<Vec<Client>, AllocError>
    ensures { IfOk result (λ clients. clients.items ≡ first_clients count) }
{
    let mut clients = Vec::new(alloc);
    for index in 0..count {
        clients.push(Client {
            name: name_of(alloc, "c", index + 1)?,
            connections: 0,
            injected: Injected::Nothing,
            session: None,
        })?;
    }
    Ok(clients)
}

/// Puts the record into the tap that is named by this letter and this number.
fn put_in(bundle: &mut Bundle, letter: &str, number: usize, rec: &Rec) -> Result<(), AllocError>
    ensures { OnOk result (bundle.new
        ≡ with_line (name_of letter.now number) rec.now bundle.old) }
{
    let name = name_of(bundle.alloc, letter, number)?;
    bundle.line(name.as_str(), rec)
}

/// Puts the record into each of so many taps, which are named by this letter and their numbers from 1.
fn put_each(bundle: &mut Bundle, letter: &str, count: usize, rec: &Rec) -> Result<(), AllocError>
    ensures { OnOk result (bundle.new ≡ with_each letter.now rec.now count bundle.old) }
{
    for index in 0..count {
        put_in(bundle, letter, index + 1, rec)?;
    }
    Ok(())
}

/// The header of a tap.
fn header(of: TapKind) -> Rec
    ensures { result ≡ Rec.Header of Version.One }
{
    Rec::Header {
        of,
        v: Version::One,
    }
}

/// The first lines: the headers, and the start of each node.
fn first_lines(alloc: Global, nodes: usize, clients: usize) -> Result<Bundle, AllocError>
    ensures { IfOk result (λ bundle. bundle ≡ first_lines nodes clients) }
{
    let mut bundle = Bundle::new(alloc);
    bundle.line("st", &header(TapKind::Stream))?;
    put_each(&mut bundle, "n", nodes, &header(TapKind::Node))?;
    put_each(&mut bundle, "c", clients, &header(TapKind::Client))?;
    put_each(
        &mut bundle,
        "n",
        nodes,
        &Rec::Node(NodeRec::Start { off: None }),
    )?;
    Ok(bundle)
}

impl Cluster {
    ghost use Rattle.aud_sim.specs.Cluster.{first_state, seen};

    /// So many nodes and clients, before the first act.
    pub fn new(alloc: Global, nodes: usize, clients: usize) -> Result<Cluster, AllocError>
        ensures { IfOk result (λ cluster. seen cluster ≡ first_state nodes clients) }
    {
        Ok(Cluster {
            alloc,
            bundle: first_lines(alloc, nodes, clients)?,
            entries: Vec::new(alloc),
            nodes: first_nodes(alloc, nodes)?,
            clients: first_clients(alloc, clients)?,
            sessions: 0,
        })
    }
}

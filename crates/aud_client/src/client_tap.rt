//! The packets of a client's tap.
ghost use Rattle.std.specs.Prelude.{◌≡◌, ◌+◌, ◌^◌, ◌<◌, ◌++◌, ◌∷◌, [], IfOk, OnOk, length, map};
ghost use Rattle.std.specs.Option.{option_or};
ghost use Rattle.aud_client.specs.TapPackets.{tap_packets, numbered_records, bad_in, first_of};
ghost use Rattle.aud_client.specs.Private.ConnectionRead.{HasRead, inside};

use crate::connection::{Placed, Reader};
use aud_sio::Scratch;
use aud_tap::ClientRec;
use std::alloc::{AllocError, Global};
use std::marker::Model;

/// A connection of a client.
#[derive(Drop)]
pub struct Connection<'a> {
    /// The number that the tap gave it.
    pub c: u64,
    /// The packets, in the order of the records at which they stand.
    pub packets: Vec<Placed<'a>>,
}

/// The connections of a tap's records, and the first of them that doesn't decode.
#[derive(Drop)]
pub struct Connections<'a> {
    list: Vec<Connection<'a>>,
    bad: Option<usize>,
}

/// The records of a client's tap, borrowed, with what they give: decoded once.
#[derive(Drop)]
pub struct ClientTap<'a> {
    recs: &'a [ClientRec],
    read: Connections<'a>,
}

impl<'a> Model for ClientTap<'a> {
    ghost use Rattle.std.specs.Prelude.{List};
    ghost use Rattle.aud_tap.specs.declared.records.ClientRec.{ClientRec};

    ghost Value = { List ClientRec };

    ghost use Rattle.aud_client.specs.Private.ClientRead.{HoldsConnections};

    ghost view = { λ t. t.recs.now };

    ghost invariant = { HoldsConnections };
}

impl<'a> ClientTap<'a> {
    ghost use Rattle.aud_client.specs.Seen.{connections_seen};

    /// What the records give.
    pub fn build(alloc: Global, recs: &'a [ClientRec]) -> Result<ClientTap<'a>, AllocError>
        ensures { IfOk result (λ tap. tap ≡ recs.now) }
    {
        let mut scratch = Scratch::new(alloc);
        let mut read = Connections {
            list: Vec::new(alloc),
            bad: None,
        };
        for (number, rec) in recs.iter().enumerate() {
            read.take(alloc, &mut scratch, number, rec, &recs[number + 1..])?;
        }
        Ok(ClientTap { recs, read })
    }

    /// The records, borrowed.
    pub fn recs(&self) -> &'a [ClientRec]
        ensures { result.now ≡ self.now }
    {
        self.recs
    }

    /// The connections in their order, borrowed.
    pub fn connections(&self) -> &[Connection<'a>]
        ensures { connections_seen result.now ≡ (tap_packets self.now).connections }
    {
        self.read.list.as_slice()
    }

    /// The connections in their order.
    pub fn into_connections(self) -> Vec<Connection<'a>>
        ensures { connections_seen result.items ≡ (tap_packets self.entry).connections }
    {
        let ClientTap { read, .. } = self;
        let Connections { list, .. } = read;
        list
    }

    /// The number of the first record that doesn't decode.
    pub fn bad(&self) -> Option<usize>
        ensures { result ≡ (tap_packets self.now).bad }
    {
        self.read.bad
    }
}

impl<'a> Connections<'a> {
    ghost use Rattle.aud_client.specs.Seen.{connections_seen};
    ghost use Rattle.aud_client.specs.Private.ClientRead.{begun, cut_seen, bad_of};

    /// The record with this number, in front of these.
    fn take(
        &mut self,
        alloc: Global,
        scratch: &mut Scratch,
        number: usize,
        rec: &ClientRec,
        after: &'a [ClientRec],
    ) -> Result<(), AllocError>
        requires { number + 1 + length after.now < 2 ^ 64 }
        ensures connections { OnOk result (connections_seen self.new.list.items
            ≡ connections_seen self.old.list.items
            ++ map cut_seen (begun number rec.now after.now)) }
        ensures bad { OnOk result (self.new.bad
            ≡ option_or self.old.bad (bad_of (begun number rec.now after.now))) }
    {
        match rec {
            ClientRec::Conn { c } => self.begin(alloc, scratch, *c, number + 1, after),
            _ => Ok(()),
        }
    }

    /// A connection begins with these records, the first of which has this number.
    fn begin(
        &mut self,
        alloc: Global,
        scratch: &mut Scratch,
        c: u64,
        first: usize,
        recs: &'a [ClientRec],
    ) -> Result<(), AllocError>
        requires { first + length recs.now < 2 ^ 64 }
        ensures connections { OnOk result (connections_seen self.new.list.items
            ≡ connections_seen self.old.list.items
            ++ cut_seen (c, numbered_records first (inside recs.now)) ∷ []) }
        ensures bad { OnOk result (self.new.bad
            ≡ option_or self.old.bad (first_of (bad_in (numbered_records first
            (inside recs.now))))) }
    {
        let reader = read_connection(alloc, scratch, first, recs)?;
        self.bad = self.bad.or(reader.bad);
        let packets = reader.into_packets();
        self.list.push(Connection { c, packets })?;
        Ok(())
    }
}

/// Reads the records, the first of which has this number, up to the next `conn` or `lost`.
fn read_connection<'a>(
    alloc: Global,
    scratch: &mut Scratch,
    first: usize,
    recs: &'a [ClientRec],
) -> Result<Reader<'a, 'a>, AllocError>
    requires { first + length recs.now < 2 ^ 64 }
    ensures { IfOk result (HasRead first (inside recs.now)) }
{
    let mut reader = Reader::new(alloc, None);
    reader.read_all(scratch, first, recs)?;
    Ok(reader)
}

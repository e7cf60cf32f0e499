//! Where the connections of a client's tap begin and are lost.
ghost use Rattle.std.specs.Prelude.{◌≡◌, ◌++◌, ◌∷◌, [], IfOk, OnOk, Some, if◌then◌else◌};
ghost use Rattle.std.specs.List.Sorted.{IsNonDecreasing};
ghost use Rattle.aud_rows.specs.ClientPlaces.{AreOf};
ghost use Rattle.aud_rows.specs.Marks.{first_past, is_mark, last_before, marks_of};

use aud_node::Logs;
use aud_tap::ClientRec;
use std::alloc::{AllocError, Global};

/// Where the connections of a client's tap begin and are lost: made once a tap. Records count from 0 after the header.
#[derive(Drop)]
pub struct ClientPlaces {
    /// The place of the tap, from 0 in the order of the headers.
    pub place: usize,
    /// The numbers, ascending, of the records that begin a connection or lose it.
    pub marks: Vec<usize>,
}

impl ClientPlaces {
    /// Those of the tap at this place, of which nothing is decoded; no marks where that tap is no client's.
    pub fn read(alloc: Global, logs: &Logs<'_>, place: usize) -> Result<ClientPlaces, AllocError>
        ensures place { IfOk result (λ tap. tap.place ≡ place) }
        ensures records { IfOk result (AreOf logs.now) }
    {
        let marks = match logs.client(place) {
            Some(recs) => marks_of(alloc, recs)?,
            None => Vec::new(alloc),
        };
        Ok(ClientPlaces { place, marks })
    }
}

/// The numbers, ascending, of the records that begin a connection or lose it.
fn marks_of(alloc: Global, recs: &[ClientRec]) -> Result<Vec<usize>, AllocError>
    ensures { IfOk result (λ marks. marks.items ≡ marks_of recs.now) }
{
    let mut marks = Vec::new(alloc);
    for (number, rec) in recs.iter().enumerate() {
        note_mark(&mut marks, number, rec)?;
    }
    Ok(marks)
}

/// The record with this number comes next.
fn note_mark(marks: &mut Vec<usize>, number: usize, rec: &ClientRec) -> Result<(), AllocError>
    ensures { OnOk result (marks.new.items ≡ (if is_mark (Some rec.now)
        then marks.old.items ++ number ∷ [] else marks.old.items)) }
{
    if is_mark(rec) {
        marks.push(number)?;
    }
    Ok(())
}

/// Whether the record begins a connection, or loses it.
pub(crate) fn is_mark(rec: &ClientRec) -> bool
    ensures { result ≡ is_mark (Some rec.now) }
{
    matches!(rec, ClientRec::Conn { .. } | ClientRec::Lost)
}

/// The first mark past the number.
pub fn first_past(number: usize, marks: &[usize]) -> Option<usize>
    requires { IsNonDecreasing marks.now }
    ensures { result ≡ first_past number marks.now }
{
    let count = marks.partition_point(|mark| *mark <= number);
    let (_, past) = marks.split_at(count);
    past.first().copied()
}

/// The last mark before the number.
pub fn last_before(number: usize, marks: &[usize]) -> Option<usize>
    requires { IsNonDecreasing marks.now }
    ensures { result ≡ last_before number marks.now }
{
    let count = marks.partition_point(|mark| *mark < number);
    let (before, _) = marks.split_at(count);
    before.last().copied()
}

//! What an event that isn't its entry may come from; whether two JSON values are the same.
ghost use Rattle.std.specs.Prelude.{◌≡◌, IfOk, map, option_map};
ghost use Rattle.serde_json.specs.View.{view, items_view, members_view, number_view};
ghost use Rattle.aud_sio.specs.Message.{blob_bytes};
ghost use Rattle.aud_sio.specs.Assembly.{blob_view};
ghost use Rattle.aud_causes.specs.Contents.{are_same, are_same_in_any_order, content_causes, elements, event_causes, is_as_often, is_other_call, is_other_event, of_both, said_in, said_view, says_same};
ghost use Rattle.aud_causes.specs.SameJson.{same_items, same_members, same_number, same_value};

use crate::cause::Cause;
use crate::list::held;
use crate::texts::frame_of;
use aud_check::Altered;
use aud_client::{Frame, Recording};
use aud_sio::{Blob, SioFault, decode};
use aud_tap::{Bytes, Event, StreamRec};
use serde_json::{Map, Number, Value};
use std::alloc::{AllocError, Global};

/// The causes of the session's first frame that isn't its entry, where these are the numbers of its stays in the client's
/// tap at this place. It costs the stays, and reads two texts as JSON.
pub(crate) fn content_causes(
    alloc: Global,
    recording: &Recording<'_>,
    client: usize,
    numbers: &[usize],
    altered: Altered,
) -> Result<Vec<Cause>, AllocError>
    ensures { IfOk result (λ causes. causes.items
        ≡ content_causes recording.now client numbers.now altered) }
{
    let frame = frame_of(recording, Some(client), numbers, altered.frame);
    let entry = recording.logs().stream().entry(altered.position);
    match (frame, entry) {
        (Some(frame), Some(StreamRec::Ev(event))) => event_causes(alloc, frame, event, altered),
        _ => held(
            alloc,
            &[Some(Cause::Altered {
                frame: altered.frame,
                part: altered.part,
            })],
        ),
    }
}

/// Those that hold of this frame, which parts from this entry so: it says the same, with the same attachments, or with these
/// in another order; else it was altered; and it may be of another event.
#[tactic(auto, using(crate::proofs::ItemLemmas::then_if))]
fn event_causes(
    alloc: Global,
    frame: &Frame<'_>,
    event: &Event,
    altered: Altered,
) -> Result<Vec<Cause>, AllocError>
    ensures { IfOk result (λ causes. causes.items ≡ event_causes frame.now event.now altered) }
{
    let came = said_in(alloc, frame.text())?;
    let entry = said_in(alloc, event.text.as_str())?;
    let same = says_same(&came, &entry);
    let other = is_other_event(&came, &entry);
    let ordered = are_same(frame.bin(), event.bin.as_slice());
    let there = are_same_in_any_order(frame.bin(), event.bin.as_slice());
    let encoder = same && ordered;
    let reordered = same && !ordered && there;
    let changed = !(same && there);
    let (frame, part) = (altered.frame, altered.part);
    held(
        alloc,
        &[
            encoder.then_some(Cause::AnotherEncoder { frame, part }),
            reordered.then_some(Cause::AttachmentsReordered(frame)),
            changed.then_some(Cause::Altered { frame, part }),
            other.then_some(Cause::AnotherEvent(frame)),
        ],
    )
}

/// What an event says.
#[derive(Drop)]
pub(crate) struct Said<'a> {
    /// Its namespace.
    pub nsp: &'a str,
    /// The value of its payload: an array of its name and its arguments.
    pub value: Value,
}

/// What the text of an event says; none where it is no packet with a payload of JSON.
fn said_in<'a>(alloc: Global, text: &'a str) -> Result<Option<Said<'a>>, AllocError>
    ensures { IfOk result (λ said. option_map said_view said ≡ said_in text.now) }
{
    let packet = match decode(alloc, text) {
        Ok(packet) => packet,
        Err(SioFault::Memory) => return Err(AllocError),
        Err(_) => return Ok(None),
    };
    let Some(payload) = packet.payload else {
        return Ok(None);
    };
    match Value::from_str(alloc, payload) {
        Ok(value) => Ok(Some(Said {
            nsp: packet.nsp,
            value,
        })),
        Err(fault) if fault.is_memory() => Err(AllocError),
        Err(_) => Ok(None),
    }
}

/// Whether both are read, and say the same: in the same namespace the same JSON value.
fn says_same(one: &Option<Said<'_>>, other: &Option<Said<'_>>) -> bool
    ensures { result ≡ of_both says_same (option_map said_view one.now)
        (option_map said_view other.now) }
{
    match (one, other) {
        (Some(one), Some(other)) => { one.nsp == other.nsp && same_value(&one.value, &other.value) }
        _ => false,
    }
}

/// Whether both are read, and are of two namespaces, or have another name, or another number of arguments.
fn is_other_event(one: &Option<Said<'_>>, other: &Option<Said<'_>>) -> bool
    ensures { result ≡ of_both is_other_event (option_map said_view one.now)
        (option_map said_view other.now) }
{
    match (one, other) {
        (Some(one), Some(other)) => {
            one.nsp != other.nsp || is_other_call(elements(&one.value), elements(&other.value))
        }
        _ => false,
    }
}

/// The elements of an array; of another value none.
#[tactic(auto, using(crate::proofs::ItemLemmas::listed_items_view))]
fn elements(value: &Value) -> &[Value]
    ensures { map view result.now ≡ elements (view value.now) }
{
    match value.as_array() {
        Some(items) => items.as_slice(),
        None => &[],
    }
}

fn is_other_call(one: &[Value], other: &[Value]) -> bool
    ensures { result ≡ is_other_call (map view one.now) (map view other.now) }
{
    if one.len() != other.len() {
        return true;
    }
    match (one.first(), other.first()) {
        (Some(name), Some(other_name)) => !same_value(name, other_name),
        _ => false,
    }
}

/// Whether the attachments are these, in the same order.
#[tactic(auto, using(crate::proofs::ItemLemmas::are_same_apart))]
fn are_same(bin: &[Blob<'_>], others: &[Bytes]) -> bool
    ensures { result ≡ are_same (map blob_bytes (map blob_view bin.now)) others.now }
{
    if bin.len() != others.len() {
        return false;
    }
    for i in 0..bin.len() {
        if bin[i].as_slice() != others[i].as_slice() {
            return false;
        }
    }
    true
}

/// Whether the attachments are the others in some order: there are as many, and each of the others is there as often.
fn are_same_in_any_order(bin: &[Blob<'_>], others: &[Bytes]) -> bool
    ensures { result ≡ are_same_in_any_order (map blob_bytes (map blob_view bin.now)) others.now }
{
    if bin.len() != others.len() {
        return false;
    }
    for other in others {
        if !is_as_often(bin, others, other) {
            return false;
        }
    }
    true
}

/// Whether this one is there as often as among the others.
#[tactic(auto, unfolding(crate::specs::Contents::is_as_often))]
fn is_as_often(bin: &[Blob<'_>], others: &[Bytes], one: &Bytes) -> bool
    ensures { result ≡ is_as_often (map blob_bytes (map blob_view bin.now)) others.now one.now }
{
    let one = one.as_slice();
    let here = bin.iter().filter(|blob| one == blob.as_slice());
    here.count()
        == others
            .iter()
            .filter(|other| one == other.as_slice())
            .count()
}

/// Whether the values are the same.
#[cycle(same)]
pub(crate) fn same_value(one: &Value, other: &Value) -> bool
    ensures { result ≡ same_value (view one.now) (view other.now) }
{
    match (one, other) {
        (Value::Null, Value::Null) => true,
        (Value::Bool(a), Value::Bool(b)) => *a == *b,
        (Value::Number(a), Value::Number(b)) => same_number(*a, *b),
        (Value::String(a), Value::String(b)) => a.as_str() == b.as_str(),
        (Value::Array(a), Value::Array(b)) => same_items(a.as_slice(), b.as_slice()),
        (Value::Object(a), Value::Object(b)) => same_members(a, b),
        _ => false,
    }
}

fn same_number(one: Number, other: Number) -> bool
    ensures { result ≡ same_number (number_view one) (number_view other) }
{
    match (one.as_i128(), other.as_i128()) {
        (Some(a), Some(b)) => a == b,
        _ => match (one.as_f64(), other.as_f64()) {
            (Some(a), Some(b)) => a == b,
            _ => false,
        },
    }
}

#[cycle(same)]
#[tactic(auto, using(crate::proofs::ItemLemmas::same_items_apart))]
fn same_items(items: &[Value], others: &[Value]) -> bool
    ensures { result ≡ same_items (items_view items.now) (items_view others.now) }
{
    if items.len() != others.len() {
        return false;
    }
    for i in 0..items.len() {
        if !same_value(&items[i], &others[i]) {
            return false;
        }
    }
    true
}

#[cycle(same)]
fn same_members(members: &Map<String, Value>, others: &Map<String, Value>) -> bool
    ensures { result ≡ same_members (members_view members.now.entries)
        (members_view others.now.entries) }
{
    let mut left = others.iter();
    for (key, member) in members.iter() {
        let Some((name, value)) = left.next() else {
            return false;
        };
        if key.as_str() != name.as_str() || !same_value(member, value) {
            return false;
        }
    }
    left.next().is_none()
}

//! What happened, in a sentence; why a record is no packet, and what to do about it.
ghost use Rattle.std.specs.Prelude.{◌≡◌, ◌++◌, ℕ, IfOk, List, OnOk, flat_map, map, option_to_list, string_bytes};
ghost use Rattle.aud_causes.specs.Filled.{figure_text, filled};
ghost use Rattle.aud_causes.specs.Table.{part_figures, part_words};
ghost use Rattle.aud_maker.specs.Made.{name_at};
ghost use Rattle.aud_causes.specs.NoPacket.{advice, no_packet_figures, no_packet_in, no_packet_words};

use aud_check::Part;
use aud_client::Recording;
use aud_node::Logs;
use aud_refusals::{NoJson, NoPacket, PayloadFault, Refusal, no_packet_at};
use aud_sio::SioFault;
use std::alloc::{AllocError, Global};

/// What stands in the place of a `#`.
#[derive(Clone, Copy, Drop)]
pub enum Figure {
    /// The name of the tap at this place.
    Name(usize),
    Number(u64),
    /// What has this number, counted from 0; written counting from 1.
    Nth(usize),
    /// What is refused.
    Refused(Refusal),
}

/// Which part of an event isn't its entry's.
pub(crate) fn part_words(part: Part) -> &'static str
    ensures { result.now ≡ part_words part }
{
    match part {
        Part::NoEvent => "The event is not the entry as the stream's tap has it.",
        Part::Text { .. } => "The event's text parts from its entry's at byte #.",
        Part::Count => "The event has another number of attachments than its entry.",
        Part::Attachment { .. } => "Attachment # of the event parts from its entry's at byte #.",
    }
}

pub(crate) fn part_figures(part: Part) -> [Option<Figure>; 3]
    ensures { flat_map option_to_list result ≡ part_figures part }
{
    match part {
        Part::Text { at } => [Some(Figure::Nth(at)), None, None],
        Part::Attachment { number, at } => [Some(Figure::Nth(number)), Some(Figure::Nth(at)), None],
        _ => [None, None, None],
    }
}

/// The words, with the next of the figures in the place of each `#`; the names are those of these logs' taps.
pub(crate) fn filled(
    alloc: Global,
    logs: &Logs<'_>,
    words: &str,
    figures: &[Option<Figure>],
) -> Result<String, AllocError>
    ensures { IfOk result (λ text. string_bytes text
        ≡ filled words.now (map (figure_text logs.now) (flat_map option_to_list figures.now))) }
{
    let mut text = String::new(alloc);
    let mut rest = words;
    for figure in figures {
        rest = push_next(logs, &mut text, rest, *figure)?;
    }
    text.push_str(rest)?;
    Ok(text)
}

/// Adds the figure, if there is one, and the words before the first `#`; the words that are left. It adds nothing where
/// there is no `#`.
fn push_next<'w>(
    logs: &Logs<'_>,
    text: &mut String,
    words: &'w str,
    figure: Option<Figure>,
) -> Result<&'w str, AllocError>
    ensures { IfOk result (λ rest. (texts : List (List ℕ))
        → string_bytes text.new ++ filled rest.now texts
        ≡ string_bytes text.old
        ++ filled words.now (map (figure_text logs.now) (option_to_list figure) ++ texts)) }
{
    let Some(figure) = figure else {
        return Ok(words);
    };
    let Some((before, after)) = words.split_once('#') else {
        return Ok(words);
    };
    text.push_str(before)?;
    push_figure(logs, text, figure)?;
    Ok(after)
}

fn push_figure(logs: &Logs<'_>, text: &mut String, figure: Figure) -> Result<(), AllocError>
    ensures { OnOk result (string_bytes text.new
        ≡ string_bytes text.old ++ figure_text logs.now figure) }
{
    match figure {
        Figure::Name(place) => text.push_str(name_at(logs, place)),
        Figure::Number(number) => write!(text, "{number}"),
        Figure::Nth(number) => write!(text, "{}", number as u128 + 1),
        Figure::Refused(refusal) => refusal.push_words(text),
    }
}

/// The name of the tap at the place; the empty text where there is none.
fn name_at<'a>(logs: &Logs<'a>, place: usize) -> &'a str
    ensures { result.now ≡ name_at logs.now place }
{
    match logs.taps().get(place) {
        Some(tap) => tap.name.as_str(),
        None => "",
    }
}

/// Why the first record that is no packet of the client's tap at this place is none. Of the records before it only
/// those of its connection are decoded.
pub(crate) fn no_packet_in(
    alloc: Global,
    recording: &Recording<'_>,
    client: usize,
) -> Result<Option<NoPacket>, AllocError>
    ensures { IfOk result (λ found. found ≡ no_packet_in recording.now client) }
{
    let Some(recs) = recording.logs().client(client) else {
        return Ok(None);
    };
    let Some(read) = recording.client(client) else {
        return Ok(None);
    };
    match read.transcript().bad {
        Some(number) => no_packet_at(alloc, recs, number),
        None => Ok(None),
    }
}

/// What happened, in words.
pub(crate) fn no_packet_words(why: Option<NoPacket>) -> &'static str
    ensures { result.now ≡ no_packet_words why }
{
    match why {
        Some(
            NoPacket {
                packet: Some(_),
                ..
            },
        ) => "Packet # of a polling body is none: #.",
        Some(_) => "A record of the client's tap is no packet: #.",
        None => "A record of the client's tap is no packet.",
    }
}

/// Their figures: the number of the packet, of a polling body; and what is refused.
pub(crate) fn no_packet_figures(why: Option<NoPacket>) -> [Option<Figure>; 3]
    ensures { flat_map option_to_list result ≡ no_packet_figures why }
{
    let Some(found) = why else {
        return [None; 3];
    };
    let refused = Some(Figure::Refused(found.refusal));
    match found.packet {
        Some(number) => [Some(Figure::Number(number as u64)), refused, None],
        None => [refused, None, None],
    }
}

/// What to do.
pub(crate) fn advice(why: Option<NoPacket>) -> &'static str
    ensures { result.now ≡ advice why }
{
    let Some(found) = why else {
        return "record what came as it came: a text as a text, and bytes as bytes.";
    };
    match (found.refusal, found.packet) {
        (Refusal::Engine(_), Some(_)) =>
            "record bodies of polling as they came, and of answers with status 200 alone.",
        (Refusal::Socket(SioFault::TextWhileBinary), _) =>
            "look at the records before this one: a packet's attachment is not among them.",
        (Refusal::Socket(SioFault::StrayBinary), _) =>
            "look at the records before this one: the packet of this attachment is not among them.",
        (Refusal::Socket(SioFault::Attachments), _) => "send at most 64 attachments with an event.",
        (Refusal::Socket(SioFault::AckId), _) => "use acknowledgement ids of at most 18 digits.",
        (Refusal::Payload(PayloadFault::NoJson(NoJson::Deep(_))), _) =>
            "send lists and objects that nest at most 127 deep.",
        (Refusal::Payload(PayloadFault::NoJson(NoJson::HalfPair(_))), _) =>
            "send texts of whole characters: cut no surrogate pair in two.",
        (Refusal::Payload(PayloadFault::NoJson(NoJson::Number(_))), _) =>
            "send numbers that a 64-bit float holds, and others as texts.",
        (Refusal::Payload(PayloadFault::NoJson(_)), _) =>
            "send JSON (RFC 8259), which has no NaN and no Infinity; record a text as it came, to its end.",
        (Refusal::Payload(_), _) => "send an event's name and its arguments as a list.",
        _ => "record what came as it came: a text as a text, and bytes as bytes.",
    }
}

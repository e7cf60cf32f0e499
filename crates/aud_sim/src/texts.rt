//! The texts that a cluster makes: names, and the text of an event.
ghost use Rattle.std.specs.Prelude.{◌≡◌, ◌++◌, IfOk, OnOk, string_bytes};
ghost use Rattle.std.specs.Fmt.{decimal};
ghost use Rattle.aud_sim.specs.Texts.{name_of, event_head, placeholder, placeholders, event_text, asking_text, message};

use aud_tap::Text;
use std::alloc::{AllocError, Global};

/// A letter and a number: of a tap, a pid or a sid.
pub fn name_of(alloc: Global, letter: &str, number: usize) -> Result<Text, AllocError>
    ensures { IfOk result (λ name. name ≡ name_of letter.now number) }
{
    let text = format!(in alloc; "{letter}{number}")?;
    Text::new(alloc, text.as_str())
}

/// The packet's type, and the count of attachments, if there are any.
fn event_head(alloc: Global, count: usize) -> Result<String, AllocError>
    ensures { IfOk result (λ head. string_bytes head ≡ event_head count) }
{
    if count == 0 {
        return String::from_str(alloc, "2");
    }
    format!(in alloc; "5{count}-")
}

/// Puts a number between two texts at the end.
fn push_between(
    text: &mut String,
    before: &str,
    number: usize,
    after: &str,
) -> Result<(), AllocError>
    ensures { OnOk result (string_bytes text.new
        ≡ string_bytes text.old ++ (before.now ++ decimal number ++ after.now)) }
{
    write!(text, "{before}{number}{after}")?;
    Ok(())
}

/// Puts what stands for an attachment at the end.
fn push_placeholder(text: &mut String, number: usize) -> Result<(), AllocError>
    ensures { OnOk result (string_bytes text.new ≡ string_bytes text.old ++ placeholder number) }
{
    push_between(text, ",{\"_placeholder\":true,\"num\":", number, "}")
}

/// Puts what stands for so many attachments at the end.
fn push_placeholders(text: &mut String, count: usize) -> Result<(), AllocError>
    ensures { OnOk result (string_bytes text.new ≡ string_bytes text.old ++ placeholders count) }
{
    for number in 0..count {
        push_placeholder(text, number)?;
    }
    Ok(())
}

/// The text of an event: its word, what stands for its attachments, and its offset.
pub fn event_text(
    alloc: Global,
    word: &str,
    count: usize,
    position: usize,
) -> Result<String, AllocError>
    ensures { IfOk result (λ text. string_bytes text ≡ event_text word.now count position) }
{
    let mut text = event_head(alloc, count)?;
    write!(text, "[\"{word}\"")?;
    push_placeholders(&mut text, count)?;
    write!(text, ",\"{position}-0\"]")?;
    Ok(text)
}

/// The client's CONNECT that asks for a recovery, as a string.
fn asking(alloc: Global, pid: &str, position: usize) -> Result<String, AllocError>
    ensures { IfOk result (λ text. string_bytes text ≡ message (asking_text pid.now position)) }
{
    let mut text = String::new(alloc);
    text.push_str("40{\"pid\":\"")?;
    text.push_str(pid)?;
    write!(text, "\",\"offset\":\"{position}-0\"")?;
    text.push_str("}")?;
    Ok(text)
}

/// The client's CONNECT that asks for a recovery.
pub fn asking_text(alloc: Global, pid: &str, position: usize) -> Result<Text, AllocError>
    ensures { IfOk result (λ text. text ≡ message (asking_text pid.now position)) }
{
    let text = asking(alloc, pid, position)?;
    Text::new(alloc, text.as_str())
}

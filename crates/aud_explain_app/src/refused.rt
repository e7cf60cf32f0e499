//! What is written where a line is refused.
ghost use Rattle.std.specs.Prelude.{◌≡◌, ◌++◌, IfOk, OnOk, slice_get, string_bytes};
ghost use Rattle.std.specs.Option.{option_map};
ghost use Rattle.serde_json.specs.View.{view};
ghost use Rattle.aud_explanation.specs.JsonValue.{text_or_null};
ghost use Rattle.aud_explain_app.specs.RefusedLine.{file_told, header_data, header_line, json_data, json_line, place_line, refused_data, refused_output};

use crate::written::Form;
use aud_explanation::push_printed;
use aud_input::{FileLine, Refusal};
use aud_reader::InputCode;
use aud_refusals::refusal_help;
use aud_tap::Text;
use aud_verdict::{Output, refusal};
use serde_json::{Value, json};
use std::alloc::{AllocError, Global};

/// The line as the other modes name it, its place where several files are read, help, and the place of the header that
/// the help names; or all of it in a line of JSON.
pub(crate) fn refused_output(
    alloc: Global,
    form: Form,
    names: &[Text],
    refused: &Refusal,
) -> Result<Output, AllocError>
    ensures { IfOk result (λ o. o ≡ refused_output form names.now refused.now) }
{
    let help = refusal_help(alloc, refused.line.as_slice(), refused.code, refused.header)?;
    let Output { status, text } = refusal(alloc, refused.number, refused.code.name())?;
    let text = match form {
        Form::Text => with_help(text, names, refused, help.as_str())?,
        Form::Json => refused_json(alloc, names, refused, help.as_str())?,
    };
    Ok(Output { status, text })
}

/// The line, where it stands in its file, the help, and where the header stands that the help names.
fn with_help(
    line: String,
    names: &[Text],
    refused: &Refusal,
    help: &str,
) -> Result<String, AllocError>
    ensures { IfOk result (λ text. string_bytes text ≡ string_bytes line
        ++ place_line names.now refused.now.at ++ help.now
        ++ header_line names.now refused.now.code refused.now.header_at) }
{
    let mut out = line;
    push_place(&mut out, names, refused.at)?;
    out.push_str(help)?;
    match (refused.code, refused.header_at) {
        (InputCode::HeaderTwice | InputCode::UnknownKind, Some(at)) => {
            push_place(&mut out, names, at)?;
        }
        _ => {}
    }
    Ok(out)
}

/// Puts at the end where a line stands in its file, where there are several.
fn push_place(out: &mut String, names: &[Text], at: FileLine) -> Result<(), AllocError>
    ensures { OnOk result (string_bytes out.new
        ≡ string_bytes out.old ++ place_line names.now at) }
{
    let number = at.line;
    match file_told(names, at) {
        Some(name) => {
            write!(out, "That is line {number} of ")?;
            push_printed(out, name)?;
            out.push_str(".\n")?;
            Ok(())
        }
        None => Ok(()),
    }
}

/// The name of the file; none where none is named.
fn file_of(names: &[Text], at: FileLine) -> Option<&str>
    ensures { option_map (λ name. name.now) result ≡ slice_get names.now at.file }
{
    Some(names.get(at.file)?.as_str())
}

/// The same where there are several.
fn file_told(names: &[Text], at: FileLine) -> Option<&str>
    ensures { option_map (λ name. name.now) result ≡ file_told names.now at }
{
    if names.len() < 2 {
        return None;
    }
    file_of(names, at)
}

fn refused_json(
    alloc: Global,
    names: &[Text],
    refused: &Refusal,
    help: &str,
) -> Result<String, AllocError>
    ensures { IfOk result (λ text. string_bytes text
        ≡ json_line names.now refused.now help.now) }
{
    let value = refused_value(alloc, names, refused, help)?;
    let mut out = value.to_string(alloc)?;
    writeln!(&mut out, "")?;
    Ok(out)
}

fn refused_value(
    alloc: Global,
    names: &[Text],
    refused: &Refusal,
    help: &str,
) -> Result<Value, AllocError>
    ensures { IfOk result (λ value. view value ≡ json_data names.now refused.now help.now) }
{
    let told = told_value(alloc, names, refused, help)?;
    json!(in alloc; {"refused": told, "v": 1u64})
}

fn told_value(
    alloc: Global,
    names: &[Text],
    refused: &Refusal,
    help: &str,
) -> Result<Value, AllocError>
    ensures { IfOk result (λ value. view value
        ≡ refused_data names.now refused.now help.now) }
{
    let file = name_or_null(alloc, file_of(names, refused.at))?;
    let header = header_value(alloc, names, refused.header, refused.header_at)?;
    let code = refused.code.name();
    json!(in alloc; {
        "file": file,
        "file_line": refused.at.line,
        "header": header,
        "help": help,
        "line": refused.number,
        "name": code
    })
}

/// The line of the header that stands already, and where it stands.
fn header_value(
    alloc: Global,
    names: &[Text],
    header: Option<u64>,
    at: Option<FileLine>,
) -> Result<Value, AllocError>
    ensures { IfOk result (λ value. view value ≡ header_data names.now header at) }
{
    match (header, at) {
        (Some(line), Some(at)) => {
            let file = name_or_null(alloc, file_of(names, at))?;
            json!(in alloc; {"file": file, "file_line": at.line, "line": line})
        }
        _ => Ok(Value::Null),
    }
}

fn name_or_null(alloc: Global, name: Option<&str>) -> Result<Value, AllocError>
    ensures { IfOk result (λ value. view value
        ≡ text_or_null (option_map (λ name. name.now) name.entry)) }
{
    match name {
        Some(name) => json!(in alloc; name),
        None => Ok(Value::Null),
    }
}

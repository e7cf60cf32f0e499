//! What is told, in the form that the words ask for, and the page that holds it.
ghost use Rattle.std.specs.Prelude.{◌≡◌, ◌++◌, IfOk, OnOk, encode_utf8_all, string_bytes};
ghost use Rattle.aud_explain_app.specs.Output.{IsIn};
ghost use Rattle.aud_explain_app.specs.Page.{IsPage, escape_of, escaped};

use crate::page::{HEAD, TAIL};
use aud_cli::OutputForm;
use aud_verdict::Output;
use std::alloc::{AllocError, Global};

/// What is told, in this form.
pub(crate) fn in_form(alloc: Global, form: OutputForm, told: Output) -> Result<Output, AllocError>
    ensures text { IfOk result (λ output. IsIn form told.text output.text) }
    ensures status { IfOk result (λ output. output.status ≡ told.status) }
{
    match form {
        OutputForm::Text | OutputForm::Json => Ok(told),
        OutputForm::Html => {
            let text = page_of(alloc, told.text.as_str())?;
            Ok(Output {
                status: told.status,
                text,
            })
        }
    }
}

/// The page that holds this JSON.
fn page_of(alloc: Global, json: &str) -> Result<String, AllocError>
    ensures { IfOk result (λ page. IsPage json.now (string_bytes page)) }
{
    let mut page = String::new(alloc);
    page.push_str(HEAD)?;
    push_json(&mut page, json)?;
    page.push_str(TAIL)?;
    Ok(page)
}

/// Writes JSON as it stands in the page.
fn push_json(out: &mut String, json: &str) -> Result<(), AllocError>
    ensures { OnOk result (string_bytes out.new ≡ string_bytes out.old ++ escaped json.now) }
{
    for c in json.chars() {
        push_escaped(out, c)?;
    }
    Ok(())
}

/// Writes a character of JSON as it stands in the page.
fn push_escaped(out: &mut String, c: char) -> Result<(), AllocError>
    ensures { OnOk result (string_bytes out.new
        ≡ string_bytes out.old ++ encode_utf8_all (escape_of c)) }
{
    match c {
        '<' => out.push_str("\\u003c"),
        '>' => out.push_str("\\u003e"),
        '&' => out.push_str("\\u0026"),
        '\u{2028}' => out.push_str("\\u2028"),
        '\u{2029}' => out.push_str("\\u2029"),
        _ => out.push(c),
    }
}

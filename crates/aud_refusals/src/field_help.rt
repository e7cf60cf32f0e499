//! Help on a line of which a field is missing, or of another type or form.
ghost use Rattle.std.specs.Prelude.{◌≡◌, ◌++◌, OnOk, string_bytes};
ghost use Rattle.aud_json.specs.View.{view};
ghost use Rattle.aud_refusals.specs.FieldHelp.{field_help, follow_text, form_text, found_text, unformed_text};

use crate::member::{Member, text_at};
use crate::members::{first_unformed, members_of};
use aud_json::Fields;
use aud_reader::is_client_kind;
use std::alloc::{AllocError, Global};

/// What a member has to be.
fn form_text(member: Member) -> &'static str
    ensures { result.now ≡ form_text member }
{
    match member {
        Member::Kind | Member::Of | Member::Text | Member::Room | Member::Message => "a text",
        Member::Version | Member::Turn | Member::Connection => {
            "a whole number below 2^64, without sign, point or exponent"
        }
        Member::Off | Member::Pid | Member::Sid => "a text of bytes 0x21 to 0x7e",
        Member::OffOrNull => "null, or a text of bytes 0x21 to 0x7e",
        Member::Nsp => "a text that begins with / and holds no comma",
        Member::Rooms | Member::Except => "a list of texts, if it is there",
        Member::Bin => "a list of texts in padded base64, if it is there",
        Member::Bytes => "a text in padded base64",
    }
}

/// Whether a member is there, in words.
fn found_text(member: Member, d: &Fields<'_>) -> &'static str
    ensures { result.now ≡ found_text member (view d.now) }
{
    if d.get(member.key()).is_some() {
        " is of another type or form: it has to be "
    } else {
        " is missing: it has to be "
    }
}

fn push_unformed(out: &mut String, member: Member, d: &Fields<'_>) -> Result<(), AllocError>
    ensures { OnOk result (string_bytes out.new
        ≡ string_bytes out.old ++ unformed_text member (view d.now)) }
{
    let key = member.key();
    let found = found_text(member, d);
    let form = form_text(member);
    writeln!(out, "The field {key}{found}{form}.")
}

fn push_follow(out: &mut String, kind: &str) -> Result<(), AllocError>
    ensures { OnOk result (string_bytes out.new ≡ string_bytes out.old ++ follow_text kind.now) }
{
    if !is_client_kind(kind) {
        return Ok(());
    }
    if kind == "conn" {
        return writeln!(
            out,
            "The field c has to be greater than that of the conn before it in this tap."
        );
    }
    writeln!(
        out,
        "This record has to stand while a connection is open: after a conn of this tap, and before its lost."
    )
}

/// Puts help on the value of a line of which a field is missing, or of another type or form, at the end.
pub fn push_field_help(alloc: Global, out: &mut String, d: &Fields<'_>) -> Result<(), AllocError>
    ensures { OnOk result (string_bytes out.new ≡ string_bytes out.old ++ field_help (view d.now)) }
{
    let Some(kind) = text_at("k", d) else {
        return push_unformed(out, Member::Kind, d);
    };
    match first_unformed(alloc, members_of(kind), d)? {
        Some(member) => push_unformed(out, member, d),
        None => push_follow(out, kind),
    }
}

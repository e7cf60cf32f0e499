//! What a record says, in words, and of which session.
ghost use Rattle.std.specs.Prelude.{◌≡◌, ◌++◌, OnOk, string_bytes};
ghost use Rattle.std.specs.Option.{option_copied};
ghost use Rattle.aud_explanation.specs.Record.{other_session, record_text};

use crate::name::Names;
use crate::text::piece::Piece::{Name, Named, Number, Words};
use crate::text::piece::push_pieces;
use aud_rows::Says;
use std::alloc::{AllocError, Global};

/// Puts what a record says at the end.
pub(crate) fn push_record(
    alloc: Global,
    out: &mut String,
    names: Names,
    says: Says<'_>,
) -> Result<(), AllocError>
    ensures { OnOk result (string_bytes out.new
        ≡ string_bytes out.old ++ record_text names says.entry) }
{
    match says {
        Says::Entry { position, off } => {
            let pieces = [Words("entry "), Number(position), Words(" "), Name(off)];
            push_pieces(alloc, out, names, &pieces)
        }
        Says::Start { cursor } => write!(out, "start, cursor {cursor}"),
        Says::Take { position, off } => {
            let pieces = [Words("take "), Number(position), Words(" "), Name(off)];
            push_pieces(alloc, out, names, &pieces)
        }
        Says::Takes { position, off } => {
            let pieces = [
                Words("takes up to "),
                Number(position),
                Words(" "),
                Name(off),
            ];
            push_pieces(alloc, out, names, &pieces)
        }
        Says::Open { sid, nsp, cursor } => {
            let (sid, nsp) = (Name(sid), Name(nsp));
            let pieces = [
                Words("open, sid "),
                sid,
                Words(", namespace "),
                nsp,
                Words(", cursor "),
                Number(cursor),
            ];
            push_pieces(alloc, out, names, &pieces)
        }
        Says::Join { room } => push_pieces(alloc, out, names, &[Words("join "), Name(room)]),
        Says::Leave { room } => push_pieces(alloc, out, names, &[Words("leave "), Name(room)]),
        Says::Break { turn, cursor } => write!(out, "break {turn}, cursor {cursor}"),
        Says::Back { turn, cursor } => write!(out, "back {turn}, cursor {cursor}"),
        Says::Gone => write!(out, "gone"),
        Says::Asks { conn, pid, off } => {
            let after = Named(" after ", off, ", no offset");
            let pieces = [
                Words("conn "),
                Number(conn),
                Words(" asks "),
                Name(pid),
                after,
            ];
            push_pieces(alloc, out, names, &pieces)
        }
        Says::Reply { conn, sid, pid } => {
            let pid = Named(", pid ", pid, ", no pid");
            let pieces = [
                Words("conn "),
                Number(conn),
                Words(" reply, sid "),
                Name(sid),
                pid,
            ];
            push_pieces(alloc, out, names, &pieces)
        }
        Says::Got {
            conn,
            position,
            off,
        } => {
            let position = Number(position);
            let pieces = [
                Words("conn "),
                Number(conn),
                Words(" got "),
                position,
                Words(" "),
                Name(off),
            ];
            push_pieces(alloc, out, names, &pieces)
        }
        Says::Lost { conn } => write!(out, "conn {conn} lost"),
        Says::Lacks { conn, missing } => {
            let missing = Number(u64::from(missing));
            let words = Words(" packet, attachments missing: ");
            push_pieces(
                alloc,
                out,
                names,
                &[Words("conn "), Number(conn), words, missing],
            )
        }
        Says::NoPacket { conn } => write!(out, "conn {conn} no packet"),
    }
}

/// The session that a record speaks of, where it isn't the one with this pid.
pub(crate) fn other_session<'r>(session: Option<&'r str>, pid: &str) -> Option<&'r str>
    ensures { option_copied result ≡ other_session pid.now session.entry }
{
    let session = session?;
    if session == pid { None } else { Some(session) }
}

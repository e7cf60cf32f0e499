//! Lines, piece by piece.
ghost use Rattle.std.specs.Prelude.{◌≡◌, ◌++◌, OnOk, string_bytes};
ghost use Rattle.aud_explanation.specs.declared.name.Names.TheVariants.{Short};
ghost use Rattle.aud_explanation.specs.Page.{laid_line};
ghost use Rattle.aud_explanation.specs.Private.Piece.{piece_text, pieces_text};

use crate::name::{Names, push_name, push_named};
use crate::text::page::push_line;
use crate::text::span::push_known;
use std::alloc::{AllocError, Global};

/// A piece of a line.
#[derive(Clone, Copy, Drop)]
pub(crate) enum Piece<'p> {
    /// Words as they are.
    Words(&'p str),
    Number(u64),
    /// A name that others chose.
    Name(&'p str),
    /// A name behind words; other words in their place where there is none.
    Named(&'p str, Option<&'p str>, &'p str),
    /// A number behind words; nothing where there is none.
    Known(&'p str, Option<u64>),
}

/// Puts the piece at the end.
fn push_piece(
    alloc: Global,
    out: &mut String,
    names: Names,
    piece: Piece<'_>,
) -> Result<(), AllocError>
    ensures { OnOk result (string_bytes out.new
        ≡ string_bytes out.old ++ piece_text names piece.entry) }
{
    match piece {
        Piece::Words(words) => out.push_str(words),
        Piece::Number(number) => write!(out, "{number}"),
        Piece::Name(name) => push_name(alloc, out, names, name),
        Piece::Named(words, name, none) => push_named(alloc, out, names, words, name, none),
        Piece::Known(words, number) => push_known(out, words, number),
    }
}

/// Puts the pieces at the end, one after the other.
pub(crate) fn push_pieces(
    alloc: Global,
    out: &mut String,
    names: Names,
    pieces: &[Piece<'_>],
) -> Result<(), AllocError>
    ensures { OnOk result (string_bytes out.new
        ≡ string_bytes out.old ++ pieces_text names pieces.now) }
{
    for piece in pieces {
        push_piece(alloc, out, names, *piece)?;
    }
    Ok(())
}

/// Puts a line of these pieces at the end, laid out, with long names short.
pub(crate) fn push_line_of(
    alloc: Global,
    out: &mut String,
    pieces: &[Piece<'_>],
) -> Result<(), AllocError>
    ensures { OnOk result (string_bytes out.new
        ≡ string_bytes out.old ++ laid_line (pieces_text Short pieces.now)) }
{
    let mut line = String::new(alloc);
    push_pieces(alloc, &mut line, Names::Short, pieces)?;
    push_line(out, line.as_str())
}

//! What a reader of an input gives over a list of pieces.
ghost use Rattle.aud_input.specs.Pieces.{PiecesAreReadAsOne};

/// What an input is read as doesn't depend on the pieces in which it comes: a law of
/// [`InputReader`](crate::InputReader).
///
/// For every way to cut an input into pieces: what [`finish`](crate::InputReader::finish) gives, after all of them were
/// fed in order, is what the joined pieces are read as, unless memory ran out. So it is too where pieces were fed after
/// one was refused.
pub fn input_in_any_pieces()
    ensures { PiecesAreReadAsOne }
{}

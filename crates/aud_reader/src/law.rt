//! What a splitter gives over a list of calls.
ghost use Rattle.aud_reader.specs.Session.{TakenAndLastAreLines, TakenAreLinesBefore, TakenAreFront};

/// The lines of an input don't depend on the pieces in which it comes, nor on when they are taken: a law of
/// [`Splitter`](crate::Splitter).
///
/// For every way to cut an input into pieces, with [`take`](crate::Splitter::take) called any number of times after any
/// of them: what the takes gave, joined in order, and then what [`finish`](crate::Splitter::finish) gives, are the
/// lines of the joined pieces (`finished`). Where a line is refused, what the takes gave, with what still waits, are
/// the lines before it, and the refusal is that of the joined pieces (`refused`). Where memory ran out, they are a
/// front of the lines (`front`).
///
/// A caller that feeds and takes in a loop keeps `Came` (proofs/SessionLemmas.antt) as its invariant.
pub fn lines_in_any_pieces()
    ensures finished { TakenAndLastAreLines }
    ensures refused { TakenAreLinesBefore }
    ensures front { TakenAreFront }
{}

//! Tests of the calls that `explain` is made of, beside the whole explanations of `tests/cases`: a run over two files, its
//! arguments, how texts and names are printed, one session, figures, the help on a refused line, and what no explanation
//! calls.

mod arguments;
mod called;
mod escapes;
mod figures;
mod help;
mod told;
mod whole;

//! The first thing that does not fit in a session's records.
ghost use Rattle.std.specs.Prelude.{IfOk, MatchOption};
ghost use Rattle.aud_session_facts.specs.Misfit.{IsMisfit, HasChain};

use crate::astray::first_astray;
use crate::endings::first_unended;
use crate::place::RecordPlace;
use aud_maker::begun_turns;
use aud_node::Logs;
use std::alloc::{AllocError, Global};

/// A sentence of the chain of turns that fails, with the records that show it. Turns count from 0.
#[derive(Clone, Copy, Debug, PartialEq, Eq, Drop)]
pub enum Misfit {
    /// No node has an `open` of the session; it has the fault `NOLOG` too.
    NeverOpened,
    /// Two records begin one turn, in one log or in two: two opens, or two recoveries of one number.
    BegunTwice {
        turn: usize,
        first: RecordPlace,
        again: RecordPlace,
    },
    /// No record begins this turn, and there is a `back` of a later one.
    MissingTurn {
        turn: usize,
        back: RecordPlace,
    },
    /// A record of the session, before any in its log that begins a turn.
    BeforeTurns {
        place: RecordPlace,
    },
    /// A record of the session after the `break` or the `gone` that ended its turn there.
    AfterTurn {
        end: RecordPlace,
        place: RecordPlace,
    },
    /// An `open` or a `back` of the session while its turn that began at `begin` goes on in the same log.
    InsideTurn {
        begin: RecordPlace,
        place: RecordPlace,
    },
    /// The next turn was begun, and no log has the `break` of this one.
    MissingBreak {
        turn: usize,
        begin: RecordPlace,
        back: RecordPlace,
    },
    /// The next turn was begun, and this one does not end by its `break`, which stands elsewhere.
    StrayBreak {
        turn: usize,
        begin: RecordPlace,
        broke: RecordPlace,
        back: RecordPlace,
    },
    /// The turn ends by a `break` of another number.
    OtherBreak {
        turn: usize,
        begin: RecordPlace,
        broke: RecordPlace,
    },
    /// A turn ends with the session, and the next one was begun.
    BackAfterGone {
        gone: RecordPlace,
        back: RecordPlace,
    },
}

/// What does not fit in the session's records; none exactly where they are a chain of turns. Looked for are, in this
/// order: an `open`; node after node, and there record after record, a record that stands in no turn, where a turn
/// begins with the first record that begins it, in the order of the nodes; and turn after turn, an end that may not be
/// there. It looks at the session's own records, and at no others.
pub fn first_misfit(alloc: Global, logs: &Logs<'_>, pid: &str) -> Result<Option<Misfit>, AllocError>
    ensures { IfOk result (λ found. MatchOption found (HasChain logs.now pid.now)
        (IsMisfit logs.now pid.now)) }
{
    let nodes = logs.nodes_of(pid);
    let turns = begun_turns(alloc, logs, nodes, pid)?;
    if turns.is_empty() {
        return Ok(Some(Misfit::NeverOpened));
    }
    match first_astray(logs, nodes, pid, &turns) {
        Some(misfit) => Ok(Some(misfit)),
        None => Ok(first_unended(logs, nodes, pid, &turns)),
    }
}

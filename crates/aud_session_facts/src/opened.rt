//! What the turns of a session open, and how far they reach.
ghost use Rattle.std.specs.Prelude.{◌≡◌, MatchOption, None, Some};
ghost use Rattle.aud_session_facts.specs.Opened.{greatest_turn_high, opened_in};

use aud_cert::Turn;
use aud_tap::NodeRec;

/// What the `open` of a session names, borrowed from the logs, and the node's cursor after it.
#[derive(Clone, Copy)]
pub struct Opened<'a> {
    pub sid: &'a str,
    pub nsp: &'a str,
    pub low: u64,
}

/// What the first record of the first turn opens; none where there is no turn, or that record is no `open`.
pub fn opened_in<'a>(turns: &[Turn<'a>]) -> Option<Opened<'a>>
    ensures { MatchOption result (opened_in turns.now ≡ None) (λ o. opened_in turns.now
        ≡ Some (o.sid.now, o.nsp.now, o.low)) }
{
    let Some(turn) = turns.first() else {
        return None;
    };
    match turn.recs.get(0) {
        Some(NodeRec::Opened { sid, nsp, .. }) => Some(Opened {
            sid: sid.as_str(),
            nsp: nsp.as_str(),
            low: turn.low,
        }),
        _ => None,
    }
}

/// The greatest position that the turns reach, 0 where there are none. Positions count from 1.
pub fn greatest_high(turns: &[Turn<'_>]) -> u64
    ensures { result ≡ greatest_turn_high turns.now }
{
    let mut high = 0;
    for turn in turns {
        high = turn.high.max(high);
    }
    high
}

//! Where what was received first parts from what was due.
ghost use Rattle.std.specs.Prelude.{◌≡◌, ◌<◌, IfSome, MatchOption, length};
ghost use Rattle.aud_merge.specs.ByTurns.{IsPrefixOf};
ghost use Rattle.aud_check.specs.Difference.{IsAscending, IsDifference, agreed, difference, difference_at, difference_past, difference_there, place_of};

/// What was received against what was due, at the first place where the two part. Frames count from 0 in the list of
/// all that was received, positions of the stream from 1.
#[derive(Clone, Copy, Debug, PartialEq, Eq, Drop)]
pub enum Difference {
    /// The frame is of a position that was not due.
    Extra {
        frame: usize,
        position: u64,
    },
    /// The frame `again` is of a position that was due, and that the earlier frame `first` is of already.
    Doubled {
        first: usize,
        again: usize,
        position: u64,
    },
    /// Where the frame stands another position was due, which the frame `later` is of.
    Swapped {
        frame: usize,
        due: u64,
        later: usize,
    },
    /// Where the frame stands another position was due, which no frame is of.
    Lost {
        frame: usize,
        due: u64,
    },
}

/// The first difference between the positions received and those due; none where those due begin with those received.
/// Both are gone through once, and once more at the difference.
pub(crate) fn first_difference(received: &[u64], due: &[u64]) -> Option<Difference>
    ensures first { result ≡ difference received.now due.now }

    // What is found is as it says, where those due ascend; where none is found there is none.
    ensures shown { MatchOption result (IsPrefixOf received.now due.now)
        (λ found. IsAscending due.now → IsDifference received.now due.now found) }
{
    difference_at(received, due, agreed_len(received, due))
}

/// How far the lists agree.
#[tactic(auto, using(crate::proofs::Agreed::agreed_ends))]
fn agreed_len(received: &[u64], due: &[u64]) -> usize
    ensures { result ≡ agreed received.now due.now }
{
    let mut i = 0;
    while i < received.len() && i < due.len() && received[i] == due[i] {
        i += 1;
    }
    i
}

/// The difference at this place; none where the received positions have ended.
#[tactic(auto, using(std::proofs::lemmas::Option::gets))]
fn difference_at(received: &[u64], due: &[u64], place: usize) -> Option<Difference>
    ensures { result ≡ difference_at received.now due.now place }
{
    let Some(position) = received.get(place) else {
        return None;
    };
    match due.get(place) {
        Some(other) => Some(difference_there(received, due, place, *position, *other)),
        None => Some(difference_past(due, place, *position)),
    }
}

/// The difference at this place, where the position was received and the other one was due.
fn difference_there(
    received: &[u64],
    due: &[u64],
    place: usize,
    position: u64,
    other: u64,
) -> Difference
    requires { place < length received.now }
    ensures { result ≡ difference_there received.now due.now place position other }
{
    if !due.contains(&position) {
        return Difference::Extra {
            frame: place,
            position,
        };
    }
    let (before, _) = received.split_at(place);
    if let Some(first) = place_of(before, position) {
        return Difference::Doubled {
            first,
            again: place,
            position,
        };
    }
    let (_, later) = received.split_at(place + 1);
    match place_of(later, other) {
        Some(after) => Difference::Swapped {
            frame: place,
            due: other,
            later: place + 1 + after,
        },
        None => Difference::Lost {
            frame: place,
            due: other,
        },
    }
}

/// The difference at this place, where the position was received after all that was due.
fn difference_past(due: &[u64], place: usize, position: u64) -> Difference
    ensures { result ≡ difference_past place position (place_of due.now position) }
{
    match place_of(due, position) {
        Some(first) => Difference::Doubled {
            first,
            again: place,
            position,
        },
        None => Difference::Extra {
            frame: place,
            position,
        },
    }
}

/// The first place at which the position stands among these.
fn place_of(positions: &[u64], position: u64) -> Option<usize>
    ensures first { result ≡ place_of positions.now position }
    ensures within { IfSome result (λ place. place < length positions.now) }
{
    positions.iter().position(|other| *other == position)
}

//! Parts of ascending numbers.
ghost use Rattle.std.specs.Prelude.{◌≡◌, ◌++◌, nat_le, nat_lt, not};
ghost use Rattle.std.specs.List.{filter};
ghost use Rattle.std.specs.List.Sorted.{IsNonDecreasing};
ghost use Rattle.aud_rooms.specs.TurnPlaces.{is_between};
ghost use Rattle.aud_rooms.specs.Private.Candidates.{is_past_upto};

/// Ascending numbers, cut before the first that isn't below this one.
fn cut_before(numbers: &[usize], first: usize) -> (&[usize], &[usize])
    requires { IsNonDecreasing numbers.now }
    ensures parts { numbers.now ≡ result.0.now ++ result.1.now }
    ensures below { result.0.now ≡ filter (λ n. nat_lt n first) numbers.now }
    ensures above { result.1.now ≡ filter (λ n. not (nat_lt n first)) numbers.now }
{
    let count = numbers.partition_point(|number| *number < first);
    numbers.split_at(count)
}

/// Ascending numbers, cut after the last that isn't past this one.
fn cut_after(numbers: &[u64], last: u64) -> (&[u64], &[u64])
    requires { IsNonDecreasing numbers.now }
    ensures upto { result.0.now ≡ filter (λ n. nat_le n last) numbers.now }
    ensures past { result.1.now ≡ filter (λ n. not (nat_le n last)) numbers.now }
{
    let count = numbers.partition_point(|number| *number <= last);
    numbers.split_at(count)
}

/// Of ascending numbers, those from the first on and before the second.
pub(crate) fn between(numbers: &[usize], from: usize, to: usize) -> &[usize]
    requires { IsNonDecreasing numbers.now }
    ensures { result.now ≡ filter (is_between from to) numbers.now }
{
    let (_, rest) = cut_before(numbers, from);
    let (inside, _) = cut_before(rest, to);
    inside
}

/// Of ascending numbers, those past the first up to the second.
pub(crate) fn past_upto(numbers: &[u64], after: u64, upto: u64) -> &[u64]
    requires { IsNonDecreasing numbers.now }
    ensures { result.now ≡ filter (is_past_upto after upto) numbers.now }
{
    let (_, rest) = cut_after(numbers, after);
    let (inside, _) = cut_after(rest, upto);
    inside
}

//! Sets of texts, and the records of the sessions of a part.
ghost use Rattle.std.specs.Prelude.{◌≡◌, ◌||◌, ℕ, List, IfOk, OnOk, filter};
ghost use Rattle.std.specs.List.{list_any};
ghost use Rattle.std.specs.Str.{bytes_eq};
ghost use Rattle.aud_parts.specs.LeftOut.{keeps_record};
ghost use Rattle.aud_parts.specs.Part.{is_among};
ghost use Rattle.aud_parts.specs.Private.OwnRecords.{has, names_kept};

use aud_tap::{NodeRec, NodeRecs, Text};
use aud_upgrade::copied_record;
use std::alloc::{AllocError, Global};
use std::collections::HashSet;
use std::hash::RandomState;

/// Texts without an order.
pub type TextSet = HashSet<Text, RandomState>;

/// The set of these texts, which are shared, and hashed with these keys.
pub fn set_of(alloc: Global, keys: RandomState, texts: &[Text]) -> Result<TextSet, AllocError>
    ensures { IfOk result (λ set. (q : List ℕ) → has set q ≡ is_among texts.now q) }
{
    let mut set = HashSet::with_hasher(alloc, keys);
    for text in texts {
        put(&mut set, text)?;
    }
    Ok(set)
}

/// Puts the text into the set.
pub fn put(set: &mut TextSet, text: &Text) -> Result<(), AllocError>
    ensures { OnOk result ((q : List ℕ) → has set.new q ≡ (has set.old q || bytes_eq text.now q)) }
{
    set.insert(text.share()?)?;
    Ok(())
}

/// Whether one of the texts is in the set.
pub fn has_any(set: &TextSet, texts: &[Text]) -> bool
    ensures { result ≡ list_any (has set.now) texts.now }
{
    texts.iter().any(|text| set.contains(text))
}

/// Whether the record names one of these sessions.
pub fn names_own(own: &TextSet, rec: &NodeRec) -> bool
    ensures { result ≡ names_kept (has own.now) rec.now }
{
    match rec.pid() {
        Some(pid) => own.contains(pid),
        None => false,
    }
}

/// Whether one of the records names one of these sessions.
pub fn tell_of_own(own: &TextSet, recs: &NodeRecs) -> bool
    ensures { result ≡ list_any (names_kept (has own.now)) recs.now }
{
    for number in 0..recs.len() {
        if names_own(own, &recs[number]) {
            return true;
        }
    }
    false
}

/// Copies of the records that name no session, or one of these. Their texts are shared.
pub fn own_records(alloc: Global, own: &TextSet, recs: &NodeRecs) -> Result<NodeRecs, AllocError>
    ensures { IfOk result (λ left. left ≡ filter (keeps_record (has own.now)) recs.now) }
{
    let mut left = NodeRecs::new(alloc);
    for number in 0..recs.len() {
        let rec = &recs[number];
        let kept = match rec.pid() {
            Some(pid) => own.contains(pid),
            None => true,
        };
        if kept {
            left.push(copied_record(rec)?)?;
        }
    }
    Ok(left)
}

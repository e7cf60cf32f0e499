//! When one room is held.
ghost use Rattle.std.specs.Prelude.{◌≡◌, ◌<◌, ◌≤◌, ◌++◌, ◌∷◌, ℕ, [], IsTrue, OnOk, OnErr, Some, None, false};
ghost use Rattle.aud_rooms.specs.Private.Times.{Times, AreApart, ContinuesTimes, is_held_now, spans_of, span_of};

use crate::interval::Interval;
use crate::span::Span;
use std::alloc::{AllocError, Global};
use std::borrow::CowStr;
use std::marker::Model;

/// The ended intervals at which a room was held, and the position past which it has been held until now.
#[derive(Drop)]
pub struct Holding {
    ended: Vec<Interval>,
    since: Option<u64>,
}

impl Model for Holding {
    ghost use Rattle.aud_rooms.specs.Private.Times.{Times};

    ghost Value = { Times };

    ghost view = { λ a. record { ended = a.ended.items; since = a.since } };
}

impl Holding {
    /// A room that is held past the covered positions.
    pub fn new(alloc: Global, covered: u64) -> Holding
        ensures { result ≡ record { ended = []; since = Some covered } }
    {
        Holding {
            ended: Vec::new(alloc),
            since: Some(covered),
        }
    }

    /// The room is held from now on.
    pub fn open(&mut self, covered: u64)
        ensures continues { (low : ℕ) → low ≤ covered
            → AreApart low self.old.ended self.old.since covered
            → ContinuesTimes low covered self.old self.new }
        ensures held { IsTrue (is_held_now self.new) }
    {
        if self.since.is_none() {
            self.since = Some(resume(&mut self.ended, covered));
        }
    }

    /// The room is held no longer.
    pub fn shut(&mut self, covered: u64) -> Result<(), AllocError>
        ensures continues { (low : ℕ) → AreApart low self.old.ended self.old.since covered
            → ContinuesTimes low covered self.old self.new }
        ensures left { OnOk result (is_held_now self.new ≡ false) }
        ensures unchanged { OnErr result (self.new ≡ self.old) }
    {
        let Some(after) = self.since else {
            return Ok(());
        };
        if after < covered {
            self.ended.push(Interval {
                after,
                last: covered,
            })?;
        }
        self.since = None;
        Ok(())
    }

    /// Adds the spans of the room.
    pub fn push_spans<'a>(
        &self,
        room: &'a str,
        covered: u64,
        spans: &mut Vec<Span<'a>>,
    ) -> Result<(), AllocError>
        requires { AreApart 0 self.now.ended self.now.since covered }
        ensures { OnOk result (spans.new.items
            ≡ spans.old.items ++ spans_of room.now covered self.now) }
    {
        for interval in &self.ended {
            push_span(spans, room, *interval)?;
        }
        match self.since {
            Some(after) if after < covered => push_span(
                spans,
                room,
                Interval {
                    after,
                    last: covered,
                },
            ),
            _ => Ok(()),
        }
    }
}

fn push_span<'a>(
    spans: &mut Vec<Span<'a>>,
    room: &'a str,
    interval: Interval,
) -> Result<(), AllocError>
    requires { interval.after < interval.last }
    ensures { OnOk result (spans.new.items ≡ spans.old.items ++ span_of room.now interval ∷ []) }
{
    let span = Span {
        room: CowStr::Borrowed(room),
        first: interval.after + 1,
        last: interval.last,
    };
    spans.push(span)?;
    Ok(())
}

/// The position past which a room is held that is joined now: where its last interval ends with the covered positions,
/// that interval goes on.
fn resume(ended: &mut Vec<Interval>, covered: u64) -> u64
    ensures { (low : ℕ) → low ≤ covered → AreApart low ended.old.items None covered
        → ContinuesTimes low covered (record { ended = ended.old.items; since = None })
        (record { ended = ended.new.items; since = Some result }) }
{
    if let Some(latest) = ended.last().copied() {
        if latest.last == covered {
            ended.pop();
            return latest.after;
        }
    }
    covered
}

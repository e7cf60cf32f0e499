//! Builds the spans of a session.
ghost use Rattle.std.specs.Prelude.{◌≡◌, OnOk, OnErr, IfOk, IsErr, MatchOption};
ghost use Rattle.std.specs.Option.{option_map, is_some};
ghost use Rattle.std.specs.Result.{is_ok};
ghost use Rattle.aud_rooms.specs.Assigned.{Assigned, starting, with_joined, with_left, changed_by, covered_upto, AreSpansOf};

use crate::building::Building;
use crate::span::Span;
use aud_tap::NodeRec;
use std::alloc::{AllocError, Global};
use std::marker::Model;

/// Builds the spans of a session from its joins, its leaves and the positions in between. It is seen as the rooms that
/// the positions have so far, and the rooms held now; or as none after running out of memory, which it answers from
/// then on.
#[derive(Drop)]
pub struct SpanBuilder<'a> {
    building: Option<Building<'a>>,
}

impl<'a> Model for SpanBuilder<'a> {
    ghost use Rattle.std.specs.Prelude.{Option};
    ghost use Rattle.std.specs.Coded.{coded_option};
    ghost use Rattle.aud_rooms.specs.Assigned.{Assigned, assigned_code};

    ghost Value = { Option Assigned };

    ghost coded = { coded_option assigned_code };

    ghost view = { λ a. a.building };
}

impl<'a> SpanBuilder<'a> {
    /// A session whose node's cursor is `birth` when it opens, in the one room named by its sid. Positions past
    /// `birth` are to be covered.
    pub fn new(alloc: Global, sid: &'a str, birth: u64) -> Result<SpanBuilder<'a>, AllocError>
        ensures { IfOk result (λ b. b ≡ Some (starting sid.now birth)) }
    {
        let building = Building::start(alloc, sid, birth)?;
        Ok(SpanBuilder {
            building: Some(building),
        })
    }

    /// The room is held from now on; one that is held already changes nothing.
    pub fn join(&mut self, room: &'a str) -> Result<(), AllocError>
        ensures joined { OnOk result (self.new ≡ option_map (with_joined room.now) self.old) }
        ensures out_of_memory { OnErr result (self.new ≡ None) }
        ensures stays_out { self.old ≡ None → IsErr result }
    {
        let Some(mut building) = self.building.take() else {
            return Err(AllocError);
        };
        building.join(room)?;
        self.building = Some(building);
        Ok(())
    }

    /// The room is held no longer; one that isn't held changes nothing.
    pub fn leave(&mut self, room: &str) -> Result<(), AllocError>
        ensures left { OnOk result (self.new ≡ option_map (with_left room.now) self.old) }
        ensures out_of_memory { OnErr result (self.new ≡ None) }
        ensures stays_out { self.old ≡ None → IsErr result }
    {
        let Some(mut building) = self.building.take() else {
            return Err(AllocError);
        };
        building.leave(room)?;
        self.building = Some(building);
        Ok(())
    }

    /// The room that a node's record joins or leaves is held from now on or no longer, if the record is of the session
    /// with this pid; any other record changes nothing.
    pub fn follow(&mut self, pid: &str, rec: &'a NodeRec) -> Result<(), AllocError>
        ensures changed { OnOk result (self.new
            ≡ option_map (changed_by pid.now rec.now) self.old) }
        ensures out_of_memory { OnErr result (self.new ≡ None) }
    {
        match rec {
            NodeRec::Join { pid: other, room } if other.as_str() == pid => self.join(room.as_str()),
            NodeRec::Leave { pid: other, room } if other.as_str() == pid => {
                self.leave(room.as_str())
            }
            _ => Ok(()),
        }
    }

    /// The positions that aren't covered yet, up to this one, take the rooms held now. This takes no memory.
    pub fn upto(&mut self, position: u64) -> Result<(), AllocError>
        ensures covered { self.new ≡ option_map (covered_upto position) self.old }
        ensures ok { is_ok result ≡ is_some self.old }
    {
        match &mut self.building {
            Some(building) => {
                building.cover(position);
                Ok(())
            }
            None => Err(AllocError),
        }
    }

    /// The spans of the positions past `birth` that are covered: all maximal intervals of positions at which a room is
    /// held, by the bytes of the room, then by the first position.
    pub fn finish(self) -> Result<Vec<Span<'a>>, AllocError>
        ensures spans { IfOk result (λ spans. MatchOption self.entry ⊥
            (λ given. AreSpansOf given spans.items)) }
        ensures stays_out { self.entry ≡ None → IsErr result }
    {
        match self.building {
            Some(building) => building.finish(),
            None => Err(AllocError),
        }
    }
}

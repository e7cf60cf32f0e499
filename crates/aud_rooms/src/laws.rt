//! Laws of spans, over the definitions alone.
ghost use Rattle.std.specs.Prelude.{◌≡◌, ℕ, List};
ghost use Rattle.aud_tap.specs.declared.records.StreamRec.{StreamRec};
ghost use Rattle.aud_rooms.specs.Rooms.{Rooms};
ghost use Rattle.aud_rooms.specs.Turns.{Who, Slice};
ghost use Rattle.aud_rooms.specs.TurnsDue.{turns_due, greatest_high};
ghost use Rattle.aud_rooms.specs.Spans.{RoomSpan, AreSpans, AreSpansOfTurns, due_by_spans, first_low};

/// What is due by the spans of the turns is what is due by the turns.
pub fn due_by_spans_of_turns()
    ensures { (stream : List StreamRec) (who : Who) (slices : List Slice) (spans : List RoomSpan)
        → AreSpansOfTurns stream who slices spans
        → due_by_spans spans stream who.nsp (first_low slices) (greatest_high slices)
        ≡ turns_due stream who slices }
{}

/// Only one list is the spans of given rooms.
pub fn spans_are_unique()
    ensures { (rooms_at : ℕ → Rooms) (low high : ℕ) (one other : List RoomSpan)
        → AreSpans rooms_at low high one → AreSpans rooms_at low high other → one ≡ other }
{}

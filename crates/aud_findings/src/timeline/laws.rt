//! Laws of timelines, over the definitions alone.
ghost use Rattle.std.specs.Prelude.{◌≡◌, ℕ, List, Some, flat_map};
ghost use Rattle.aud_node.specs.Cluster.{Cluster};
ghost use Rattle.aud_node.specs.Stream.{Text};
ghost use Rattle.aud_rooms.specs.Turns.{IsTurn, Turn, Who};
ghost use Rattle.aud_input.specs.TapLines.{TapLines};
ghost use Rattle.aud_findings.specs.ChainTurns.{chain_span, chain_turn};
ghost use Rattle.aud_findings.specs.ClientEvents.{client_events, events_of_stays, first_line};
ghost use Rattle.aud_findings.specs.InOrder.{in_order};
ghost use Rattle.aud_findings.specs.Runs.{positions_told};

/// What is shown of turn k of a chain of turns is turn k: from its first record on, the `open` or the `back` of that
/// number, up to its last, which ends it as it does in the chain.
pub fn chain_turns_are_shown()
    ensures { (c : Cluster) (who : Who) (k : ℕ) (t : Turn) (later : List Turn)
        → (turn : IsTurn c who k t later) → chain_span c t ≡ Some (chain_turn k t turn.end) }
{}

/// Where events are joined, no entry that the client received is lost, none is added, and they stay in their order.
pub fn joined_events_keep_entries()
    ensures { (c : Cluster) (lines : List TapLines) (place : ℕ) (pid : Text) (numbers : List ℕ)
        → flat_map positions_told (client_events c lines place pid numbers)
        ≡ flat_map positions_told (in_order first_line
        (events_of_stays c lines place pid numbers)) }
{}

//! What the turns of a session tell of every run, and why one choice of the next step is as good as another. These
//! functions do nothing: their contracts are the laws.
ghost use Rattle.std.specs.Prelude.{◌≡◌, ◌<◌, ◌≤◌, ℕ, List, map, slice_get, nat_le};
ghost use Rattle.std.specs.List.{filter};
ghost use Rattle.aud_node.specs.Cluster.{Cluster};
ghost use Rattle.aud_rooms.specs.Turns.{Who, Turn, AreTurns, IsChain, slice_of};
ghost use Rattle.aud_rooms.specs.TurnsDue.{turns_due, greatest_high};
ghost use Rattle.aud_merge.specs.Sessions.{Absent};
ghost use Rattle.aud_merge.specs.declared.step.Step.{Step};
ghost use Rattle.aud_merge.specs.Machine.{State, start, after, session_of};
ghost use Rattle.aud_merge.specs.Runs.{IsRun, IsBlocked, AreAllowed, state_after};
ghost use Rattle.aud_merge.specs.Order.{IsBlockedAt};
ghost use Rattle.aud_merge.specs.Due.{due, reach, session_at_reach, states};
ghost use Rattle.aud_merge.specs.ByTurns.{IsPrefixOf, FallsAfter, HasRooms, reaching_step, rooms_of_turns, by_turns};

/// After each prefix of a run, a session is what the taken records of its turns make of it.
#[tactic(auto, using(crate::proofs::Told::session_turns))]
pub fn session_by_turns()
    ensures { (c : Cluster) (run : List Step) (who : Who) (turns : List Turn)
        → IsRun c run → IsChain c who turns
        → (t : ℕ) (st : State) → slice_get (states c run) t ≡ Some st
        → session_of st who.pid ≡ by_turns c who.pid st Absent turns }
{}

/// In each run, a position is first reached by the record that the turns tell.
pub fn reach_by_turns()
    ensures all { (c : Cluster) (run : List Step) (who : Who) (turns : List Turn)
        → IsRun c run → IsChain c who turns
        → (p : ℕ) → FallsAfter run (reach c run who.pid p) (reaching_step c turns p) }
    ensures shown { (c : Cluster) (run : List Step) (who : Who) (turns : List Turn)
        → IsRun c run → AreTurns c who 0 turns
        → (p : ℕ) → 0 < p → p ≤ greatest_high (map (slice_of c) turns)
        → FallsAfter run (reach c run who.pid p) (reaching_step c turns p) }
{}

/// In each run, a session first reaches a position with the rooms that its turns give the position.
pub fn rooms_by_turns()
    ensures all { (c : Cluster) (run : List Step) (who : Who) (turns : List Turn) (p : ℕ)
        → IsRun c run → IsChain c who turns
        → HasRooms who (session_at_reach c run who.pid p) (rooms_of_turns c who turns p) }
    ensures shown { (c : Cluster) (run : List Step) (who : Who) (turns : List Turn) (p : ℕ)
        → IsRun c run → AreTurns c who 0 turns → 0 < p → p ≤ greatest_high (map (slice_of c) turns)
        → HasRooms who (session_at_reach c run who.pid p) (rooms_of_turns c who turns p) }
{}

/// In each run, what is due to a session is what is due by its turns.
pub fn due_by_turns()
    ensures all { (c : Cluster) (run : List Step) (who : Who) (turns : List Turn)
        → IsRun c run → IsChain c who turns
        → due c run who.pid ≡ turns_due c.stream who (map (slice_of c) turns) }
    ensures shown { (c : Cluster) (run : List Step) (who : Who) (turns : List Turn)
        → IsRun c run → AreTurns c who 0 turns
        → turns_due c.stream who (map (slice_of c) turns)
        ≡ filter (λ p. nat_le p (greatest_high (map (slice_of c) turns))) (due c run who.pid) }
    ensures prefix { (c : Cluster) (run : List Step) (who : Who) (turns : List Turn)
        → IsRun c run → AreTurns c who 0 turns
        → IsPrefixOf (turns_due c.stream who (map (slice_of c) turns)) (due c run who.pid) }
{}

/// Where steps that were each allowed lead to a state in which no log's next record is, no run exists.
pub fn no_run_where_blocked()
    ensures any { (c : Cluster) (steps run : List Step) → IsBlocked c steps → IsRun c run → ⊥ }
    ensures greedy { (c : Cluster) (fronts run : List Step) → IsBlockedAt c fronts → IsRun c run
        → ⊥ }
{}

/// Where a run exists, an allowed step stays allowed while steps of other logs are taken.
pub fn allowed_stays()
    ensures { (c : Cluster) (steps run : List Step) → IsRun c run → AreAllowed c (start c) steps
        → (x s : Step) (after_x after_s : State)
        → after c (state_after c (start c) steps) x ≡ Some after_x
        → after c (state_after c (start c) steps) s ≡ Some after_s
        → (x.log ≡ s.log → ⊥)
        → (last : State) × (after c after_s x ≡ Some last) }
{}

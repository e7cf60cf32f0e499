//! What is shown is told by the logs alone, and no allowed step is a wrong one where a run exists. These functions do
//! nothing: their contracts are the laws.
ghost use Rattle.std.specs.Prelude.{◌≡◌, ◌++◌, List};
ghost use Rattle.aud_node.specs.Cluster.{Cluster};
ghost use Rattle.aud_merge.specs.declared.step.Step.{Step};
ghost use Rattle.aud_merge.specs.Machine.{start};
ghost use Rattle.aud_merge.specs.Runs.{AreAllowed, IsRun};
ghost use Rattle.aud_merge.specs.Shown.{AreBlocking, IsGreedyRun};

/// Logs have one run that is shown, or one list of records that block, and not both.
pub fn shown_is_one()
    ensures run { (c : Cluster) (steps others : List Step) → IsGreedyRun c steps
        → IsGreedyRun c others → steps ≡ others }
    ensures blocked { (c : Cluster) (fronts others : List Step) → AreBlocking c fronts
        → AreBlocking c others → fronts ≡ others }
    ensures either { (c : Cluster) (steps fronts : List Step) → IsGreedyRun c steps
        → AreBlocking c fronts → ⊥ }
{}

/// Where a run exists, steps that are each allowed, one after the other, begin one.
pub fn allowed_steps_begin_runs()
    ensures { (c : Cluster) (steps run : List Step) → IsRun c run → AreAllowed c (start c) steps
        → (rest : List Step) × IsRun c (steps ++ rest) }
{}

//! What follows of a misfit, over the definitions alone.
ghost use Rattle.aud_node.specs.Stream.{Text};
ghost use Rattle.aud_node.specs.Cluster.{Cluster};
ghost use Rattle.aud_maker.specs.Chain.{HasNoChain};
ghost use Rattle.aud_session_facts.specs.declared.misfit.Misfit.{Misfit};
ghost use Rattle.aud_session_facts.specs.Misfit.{IsMisfit};

/// Where something does not fit, the session's records are no chain of turns: it has the fault `CHAIN`, or `NOLOG`.
pub fn misfit_breaks_the_chain()
    ensures { (c : Cluster) (pid : Text) (misfit : Misfit) → IsMisfit c pid misfit
        → HasNoChain c pid }
{}

//! The problem of a world: that there is one for each revision that is to be resolved. The function here is that
//! fact; it does nothing.

ghost use Rattle.std.specs.Prelude.{◌≡◌};
ghost use Rattle.osgi_base.specs.declared.ids.RevisionId.{RevisionId};
ghost use Rattle.osgi_world.specs.Candidates.{IsProblem, IsResolvable};
ghost use Rattle.osgi_world.specs.declared.problem.Problem.{Problem};
ghost use Rattle.osgi_world.specs.declared.world.World.{World};
ghost use Rattle.osgi_resolver_theory.specs.WorldProblems.{the_problem};

/// An unresolved revision of a consistent world has a problem: the one that lists all candidates.
pub fn has_problem()
    ensures is { (W : World) (root : RevisionId) → IsResolvable W root → IsProblem (the_problem W root) }
    ensures exists { (W : World) (root : RevisionId) → IsResolvable W root →
        (P : Problem) × (P.world ≡ W) × (P.root ≡ root) × IsProblem P }
{}

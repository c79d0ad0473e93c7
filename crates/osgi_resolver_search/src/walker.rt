//! What stands at a word of a problem, and moves from word to word.

ghost use Rattle.std.specs.Prelude.{◌≡◌, ℕ, ◌<◌, ◌≤◌, List, [], ◌∷◌, ◌++◌, IfOk, OnOk, MatchOption};
ghost use Rattle.std.specs.Bool.{Decides};
ghost use Rattle.osgi_world.specs.declared.problem.Problem.{Problem};
ghost use Rattle.osgi_world.specs.ChoiceWords.{IsComplete, made_by, width};
ghost use Rattle.osgi_world.specs.Hopeless.{IsHopeless};
ghost use Rattle.osgi_resolver_search.specs.Before.{IsHopefulBefore};
ghost use Rattle.osgi_resolver_search.specs.Passing.{AreHopelessBetween};

use std::alloc::AllocError;

/// A word of a problem, which a search makes longer and shorter.
pub trait Walker {
    ghost problem: { Self → Problem };

    ghost word: { Self → List ℕ };

    /// Whether the word is hopeless: what is settled shows that no extension of it is good.
    fn is_hopeless(&self) -> Result<bool, AllocError>
        ensures hopeless { IfOk result (λ hopeless.
            Decides hopeless (IsHopeless (problem self.now) (word self.now))) };

    /// The same, where the word without its last decision, if it has one, is not hopeless.
    fn has_become_hopeless(&self) -> Result<bool, AllocError>
        requires before { IsHopefulBefore (problem self.now) (word self.now) }
        ensures hopeless { IfOk result (λ hopeless.
            Decides hopeless (IsHopeless (problem self.now) (word self.now))) };

    /// Whether no decision is left.
    fn is_complete(&self) -> bool
        ensures complete { Decides result (IsComplete (problem self.now) (word self.now)) };

    /// How many values the next decision has; none where no decision is left.
    fn values(&self) -> u64
        ensures values { result
            ≡ width (problem self.now) (made_by (problem self.now) (word self.now)) };

    /// This value of the next decision or a later one, or the number of values. With each value between, this one counted, the word
    /// is hopeless, so a search may pass over them.
    fn next_value(&self, from: u64) -> u64
        requires from { from
            ≤ width (problem self.now) (made_by (problem self.now) (word self.now)) }
        ensures range { (from ≤ result)
            × (result ≤ width (problem self.now) (made_by (problem self.now) (word self.now))) }
        ensures hopeless { AreHopelessBetween (problem self.now) (word self.now) from result };

    /// Makes the next decision with this value. If memory runs out, nothing is said of where it stands.
    fn longer(&mut self, value: u64) -> Result<(), AllocError>
        requires { value < width (problem self.old) (made_by (problem self.old) (word self.old)) }
        ensures problem { OnOk result (problem self.new ≡ problem self.old) }
        ensures word { OnOk result (word self.new ≡ word self.old ++ value ∷ []) };

    /// Takes the last decision back, and gives its value; None where none is made.
    fn shorter(&mut self) -> Option<u64>
        ensures problem { problem self.new ≡ problem self.old }
        ensures word { MatchOption result ((word self.old ≡ []) × (word self.new ≡ []))
            (λ value. word self.old ≡ word self.new ++ value ∷ []) };
}

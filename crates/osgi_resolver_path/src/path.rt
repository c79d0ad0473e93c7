//! The path of a search from the empty word to where it stands.

ghost use Rattle.std.specs.Prelude.{◌≡◌, ◌↔◌, ◌⊎◌, ℕ, ◌∷◌, [], ◌++◌, IsTrue, IfOk, OnOk, OnErr, MatchOption, None, Some};
ghost use Rattle.std.specs.Bool.{Decides};
ghost use Rattle.osgi_base.specs.declared.ids.RevisionId.{RevisionId};
ghost use Rattle.osgi_world.specs.Candidates.{candidates};
ghost use Rattle.osgi_world.specs.ChoiceWords.{IsComplete, width};
ghost use Rattle.osgi_world.specs.Decisions.{value_made};
ghost use Rattle.osgi_world.specs.DueDecisions.{fragments_of, members, next_decision, payload};
ghost use Rattle.osgi_world.specs.Hopeless.{IsDecided};
ghost use Rattle.osgi_world.specs.Lists.{In};
ghost use Rattle.osgi_world.specs.Lookups.{is_effective};
ghost use Rattle.osgi_world.specs.Partial as partial;
ghost use Rattle.osgi_world.specs.Wirings.{HasWire};
ghost use Rattle.osgi_space_rows.specs.Agree.{id};
ghost use Rattle.osgi_space_rows.specs.Worlds.{AreRowsIn};
ghost use Rattle.osgi_resolver_path.specs.Last.{IsLast};
ghost use Rattle.osgi_resolver_decisions.specs.Sure.{AreSure, LacksCandidate};
ghost use Rattle.osgi_resolver_decisions.specs.DecisionOf.{decision_of};
ghost use Rattle.osgi_resolver_path.specs.Standing.{At, HasValue};
ghost use Rattle.osgi_resolver_path.specs.Wires.{IsWiredTo, wired_in};
ghost use Rattle.osgi_resolver_path.specs.declared.wired.Wired.{Wired};

use crate::attached::attached_among;
use crate::course::{Course, Mark};
use crate::last::Last;
use crate::linked::Linked;
use crate::{adding, growing, last, moving, step, views};
use osgi_base::{List, RevisionId};
use osgi_candidates::Offers;
use osgi_resolver_decisions::{DecisionRef, Lists};
use osgi_space::DisputedRows;
use osgi_space_rows::WorldRows;
use osgi_world::{CapRef, ReqRef, Wiring, World};
use std::alloc::{AllocError, Global};
use std::marker::Model;

/// A search for the resolve of a root, with the decisions that it has made so far. Contracts see the world, the root and the
/// values of these decisions.
pub struct Path<'w> {
    alloc: Global,
    world: &'w World,
    root: RevisionId,
    lists: Lists<'w>,
    spaces: Linked<'w>,
    course: Course,
}

/// Not derived, so that each exit at which one is dropped is a single call, which is cheap to prove.
impl Drop for Path<'_> {
    fn drop(self) {
        let Path {
            alloc: _,
            world: _,
            root: _,
            lists: _,
            spaces: _,
            course: _,
        } = self;
    }
}

impl<'w> Model for Path<'w> {
    ghost use Rattle.std.specs.Prelude.{reverse};
    ghost use Rattle.std.specs.Coded.{codes};
    ghost use Rattle.osgi_model.specs.contracts.filter.Filter as filter;
    ghost use Rattle.osgi_model.specs.contracts.value.Value as value;
    ghost use Rattle.osgi_resolver_path.specs.Standing.{Standing};
    ghost use Rattle.osgi_resolver_path.specs.computed.Courses.{word_of};
    ghost use Rattle.osgi_resolver_path.specs.computed.Moving.{IsOnWay};

    ghost Value = { Standing };

    ghost coded = { Prim.hlevel (codes, filter.the_row.coded, value.the_row.coded) };

    ghost view = { λ p. record {
      world = p.world.now;
      root = p.root;
      word = word_of (reverse p.course.marks.items);
    } };

    ghost invariant = { λ p. IsOnWay p.world.now p.root p.lists p.spaces p.course };
}

impl<'w> Path<'w> {
    /// At the empty word. The offers and the rows are those of the world.
    pub fn new(
        alloc: Global,
        world: &'w World,
        root: RevisionId,
        offers: Offers<'w>,
        rows: DisputedRows<'w>,
    ) -> Result<Path<'w>, AllocError>
        requires offers { offers ≡ world.now }
        requires known { rows.known ≡ world.now.known }
        requires rows { AreRowsIn rows world.now.wirings }
        ensures empty { IfOk result (λ path.
            path ≡ record { world = world.now; root = root; word = [] }) }
    {
        let mut lists = Lists::new(alloc, offers);
        let spaces = Linked::over(alloc, world, rows);
        let course = moving::begin(alloc, &mut lists, root)?;
        Ok(Path {
            alloc,
            world,
            root,
            lists,
            spaces,
            course,
        })
    }

    /// The rows of the world. What was decided is taken back, for which no memory is needed.
    pub fn into_rows(self) -> DisputedRows<'w>
        ensures known { result.known ≡ self.entry.world.known }
        ensures rows { AreRowsIn result self.entry.world.wirings }
    {
        let Path {
            alloc: _,
            world: _,
            root: _,
            lists: _,
            spaces,
            course: _,
        } = self;
        spaces.into_rows()
    }

    /// How many values the next decision has; none where no decision is left.
    pub fn values(&self) -> u64
        ensures values { At self.now (λ P D. result ≡ width P D) }
    {
        match self.course.next() {
            Some(decision) => step::arity(&self.lists, decision),
            None => 0,
        }
    }

    /// Whether no decision is left.
    pub fn is_complete(&self) -> bool
        ensures complete { At self.now (λ P _. Decides result (IsComplete P self.now.word)) }
    {
        self.course.next().is_none()
    }

    /// The next decision; None where none is left.
    pub fn next(&self) -> Option<DecisionRef>
        ensures next { MatchOption result (At self.now (λ P D. next_decision P D ≡ None))
            (λ d. At self.now (λ P D. next_decision P D ≡ Some (decision_of d))) }
    {
        self.course.next()
    }

    /// Makes the next decision with this value. If memory runs out, nothing changes.
    pub fn longer(&mut self, value: u64) -> Result<(), AllocError>
        requires value { HasValue self.old value }
        ensures word { OnOk result
            (self.new ≡ record self.old { word = self.old.word ++ value ∷ [] }) }
        ensures unchanged { OnErr result (self.new ≡ self.old) }
    {
        moving::longer(
            self.alloc,
            &mut self.lists,
            &mut self.spaces,
            &mut self.course,
            value,
        )
    }

    /// Takes the last decision back, and gives its value; None where none is made.
    pub fn shorter(&mut self) -> Option<u64>
        ensures word { MatchOption result ((self.old.word ≡ [])
            × (self.new ≡ self.old)) (λ value.
            self.old ≡ record self.new { word = self.new.word ++ value ∷ [] }) }
    {
        let mark = moving::shorter(&mut self.spaces, &mut self.course)?;
        Some(mark.value)
    }

    // ---- where it stands

    pub fn offers(&self) -> &Offers<'w>
        ensures world { result.now ≡ self.now.world }
    {
        self.lists.offers()
    }

    pub fn root(&self) -> RevisionId
        ensures root { result ≡ self.now.root }
    {
        self.root
    }

    /// The rows of the wirings that are there, with what is decided.
    pub fn rows(&self) -> &WorldRows<'w>
        ensures known { result.now.known ≡ self.now.world.known }
        ensures rows { At self.now (λ P D. AreRowsIn result.now (partial.partial P D)) }
    {
        self.spaces.rows()
    }

    /// The same rows, with the packages that may be disputed in them.
    pub fn disputed_rows(&self) -> &DisputedRows<'w>
        ensures known { result.now.known ≡ self.now.world.known }
        ensures rows { At self.now (λ P D. AreRowsIn result.now (partial.partial P D)) }
    {
        self.spaces.disputed_rows()
    }

    /// The root, and the revisions that were pulled in, in order.
    pub fn members(&self) -> &[RevisionId]
        ensures members { At self.now (λ P D. result.now ≡ members P D) }
    {
        self.course.ids.as_slice()
    }

    /// The numbers of the members that have an attachment, a bundle requirement or an import left to decide.
    pub fn undecided(&self, alloc: Global) -> Result<Vec<u32>, AllocError>
        ensures undecided { IfOk result (λ list. At self.now (λ P D. (n : ℕ)
            → In n list.items ↔ In (id n) (members P D) × ¬ IsDecided P D (id n))) }
    {
        views::undecided(alloc, &self.lists, &self.course)
    }

    /// Whether the member has no attachment, bundle requirement or import left to decide.
    pub fn is_decided(&self, member: RevisionId) -> bool
        ensures decided { At self.now (λ P D. In member (members P D)
            → Decides result (IsDecided P D member)) }
    {
        views::is_decided(&self.lists, &self.course, member)
    }

    /// The fragments that are attached to a member, as far as decided, by bundle id.
    pub fn fragments(
        &self,
        alloc: Global,
        member: RevisionId,
    ) -> Result<Vec<RevisionId>, AllocError>
        ensures fragments { IfOk result (λ list. At self.now (λ P D. In member (members P D)
            → list.items ≡ fragments_of P D member)) }
    {
        let fragments = self.lists.fragments_for(member);
        attached_among(alloc, self.spaces.rows().rows(), member, fragments)
    }

    /// The candidates of an effective requirement of a member's payload.
    pub fn candidates(&self, requirement: ReqRef) -> &[CapRef]
        ensures candidates { At self.now (λ P D. (m : RevisionId) → In m (members P D)
            → In requirement (payload P D m) → IsTrue (is_effective P.world.known requirement)
            → result.now ≡ candidates P requirement) }
    {
        self.lists.candidates(requirement)
    }

    /// Whether each requirement that is needed of an owner of a member's payload has a candidate, and may have one wire alone.
    /// Where the answer is false, that need not be so.
    pub fn is_sure(&self, owner: RevisionId) -> bool
        ensures sure { IsTrue result → At self.now (λ P D. (m : RevisionId) → In m (members P D)
            → (owner ≡ m) ⊎ In owner (fragments_of P D m) → AreSure P owner) }
    {
        self.lists.is_sure(owner)
    }

    /// Whether a requirement that is needed of an owner of a member's payload has no candidate. It was found out when the owner came.
    pub fn lacks_candidate(&self, owner: RevisionId) -> bool
        ensures lacks { At self.now (λ P D. (m : RevisionId) → In m (members P D)
            → (owner ≡ m) ⊎ In owner (fragments_of P D m)
            → IsTrue result ↔ LacksCandidate P owner) }
    {
        self.lists.lacks_candidate(owner)
    }

    /// The marks of the decisions that are made. Their wires are those of the members.
    pub fn marks(&self) -> &[Mark]
        ensures wires { At self.now (λ P D. (w : Wired) → In w (wired_in result.now)
            ↔ In w.revision (members P D) × HasWire (partial.partial P D) w.revision w.wire) }
    {
        self.course.marks.as_slice()
    }

    /// The members that have a wire to this revision.
    pub fn wired_to(&self, provider: RevisionId) -> &[u32]
        ensures wired { At self.now (λ P D. (n : ℕ) → In n result.now ↔ IsWiredTo P D provider n) }
    {
        self.spaces.wired_to(provider)
    }

    /// The values of the decisions, in their order.
    pub fn word(&self, alloc: Global) -> Result<List<u64>, AllocError>
        ensures word { IfOk result (λ list. list ≡ self.now.word) }
    {
        views::word(alloc, self.course.marks.as_slice())
    }

    /// The last decision that was made; None where none is made.
    pub fn last(&self) -> Option<Last>
        ensures last { MatchOption result (self.now.word ≡ []) (λ last. At self.now (λ P _.
            IsLast P self.now last)) }
    {
        last::last_of(&self.course)
    }

    /// The value with which a decision was made, if it was made.
    pub fn value_of(&self, decision: DecisionRef) -> Option<u64>
        ensures value { At self.now (λ P D. result ≡ value_made D (decision_of decision)) }
    {
        growing::value_of(self.course.marks.as_slice(), decision)
    }

    /// The wirings that the decisions add.
    pub fn added(&self, alloc: Global) -> Result<List<Wiring>, AllocError>
        ensures added { IfOk result (λ list. At self.now (λ P D. list ≡ partial.added P D)) }
    {
        adding::added(alloc, &self.lists, &self.course)
    }
}

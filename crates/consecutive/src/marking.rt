// Pushing a row into the queue, and marking the ancestors of a commit as common. What many clauses say here (`Ext`, `Quiet`, that
// a row is inside) is one word or one inequality each, of another row each time: a name would be no plainer.
ghost use Rattle.std.specs.Prelude.{◌≡◌, ℕ, ◌+◌, ◌<◌, ◌≤◌, Bool, true, false, ◌||◌, ◌⊎◌, [], length, if◌then◌else◌, nat_lt};
ghost use Rattle.model.specs.Book.{flags_at};
ghost use Rattle.model.specs.Steps.{sees};
ghost use Rattle.model.specs.Consecutive.{entered, commoned, waits, alone, Push, Mark as MarksSo, Marking};
ghost use Rattle.model.specs.Parts.{Looks, ended, Spread, SpreadOne, Visited};
ghost use Rattle.model.specs.Steady.{Ext, common_rows};
ghost use Rattle.model.specs.View.{unpack, Admits};
ghost use Rattle.walk.specs.View.{Aside, Quiet};
ghost use Rattle.consecutive.specs.Seen.{walk, marks, parents_at, Held, Keeps, itself, all};

use crate::Algorithm;
use book::types::{Denial, Flags};
use model::Step;
use source::{ObjectId, Source};
use walk::state::drawing::uncommon;

// Whether a mark sets COMMON at the commit itself too. Two named choices, and no closures: the rules know no other.
#[derive(Clone, Copy, Debug, PartialEq, Eq)]
pub(crate) enum Mark {
    AncestorsOnly,
    ThisCommitAndAncestors,
}

// How far a mark reaches.
#[derive(Clone, Copy, Debug, PartialEq, Eq)]
pub(crate) enum Ancestors {
    // Two generations.
    DirectUnseen,
    // All of them, until a commit that was not seen yet.
    AllUnseen,
}

impl Ancestors {
    // Whether a drawn row of this generation is marked from.
    fn reach(self, generation: usize) -> bool
        ensures { result ≡ (all self || nat_lt generation 2) }
    {
        matches!(self, Ancestors::AllUnseen) || generation < 2
    }
}

// 1 for a row that has SEEN without POPPED, else 0.
fn unpopped(flags: Flags) -> usize
    ensures { result ≡ (if waits (unpack flags.bits) then 1 else 0) }
{
    usize::from(flags.intersects(Flags::SEEN) && !flags.intersects(Flags::POPPED))
}

impl Algorithm {
    // Sets the bits of `mask` in a row, which enters the queue if it had none of them.
    fn admit(&mut self, row: usize, mask: Flags)
        requires inside { row < length (walk self.old).rows }
        requires admits { Admits mask.bits (flags_at (walk self.old) row) }
        ensures is { walk self.new ≡ entered (unpack mask.bits) (walk self.old) row }
        ensures aside { Aside self.old.state self.new.state }
    {
        let flags = self.state.head(row).flags;
        self.state.set_flags(row, mask);
        if flags.intersects(mask) {
            return;
        }
        self.state.enqueue(row);
        self.state.raise_count(uncommon(flags.union(mask)));
    }

    // Sets COMMON in a row that lacks it.
    fn make_common(&mut self, row: usize)
        requires inside { row < length (walk self.old).rows }
        requires lacks { (flags_at (walk self.old) row).common ≡ false }
        ensures is { walk self.new ≡ commoned (walk self.old) row }
        ensures quiet { Quiet self.old.state self.new.state }
    {
        let flags = self.state.head(row).flags;
        self.state.set_flags(row, Flags::COMMON);
        self.state.lower_count(unpopped(flags));
    }
}

impl Algorithm {
    // The row of an id, which comes in from the source where there is none yet. A step of its own, so that the type's
    // invariant is shown once for all calls that look up.
    fn lookup<S: Source>(&mut self, source: &S, id: ObjectId) -> Result<Option<usize>, Denial>
        ensures is { Looks (S.meaning source.now) (walk self.old) id (walk self.new) result }
        ensures quiet { Quiet self.old.state self.new.state }
    {
        self.state.lookup(source, id)
    }

    // Looks an id up, and sets the bits of `mask` in its row, which enters the queue if it had none of them.
    pub(crate) fn push<S: Source>(
        &mut self,
        source: &S,
        id: ObjectId,
        mask: Flags,
    ) -> Result<(), Denial>
        requires { (mask.bits ≡ 8) ⊎ (((mask.bits ≡ 40) ⊎ (mask.bits ≡ 12)) × (sees (walk self.old) id ≡ false)) }
        ensures is { Push (S.meaning source.now) (unpack mask.bits) id (walk self.old) (ended result (walk self.new)) }
        ensures grows { Ext (walk self.old) (walk self.new) }
    {
        let Some(row) = self.lookup(source, id)? else {
            return Ok(());
        };
        self.admit(row, mask);
        Ok(())
    }

    // A parent of a drawn row of this generation gains COMMON, and waits to be marked from.
    fn spread_one<S: Source>(
        &mut self,
        source: &S,
        id: ObjectId,
        generation: usize,
    ) -> Result<(), Denial>
        requires held { Held self.old 0 }
        requires young { generation ≤ common_rows (walk self.old) }
        ensures is { SpreadOne (S.meaning source.now) generation id (marks self.old) (walk self.old) result (marks self.new) (walk self.new) }
        ensures keeps { Keeps self.old self.new }
    {
        let Some(row) = self.lookup(source, id)? else {
            return Ok(());
        };
        if self.state.head(row).flags.intersects(Flags::COMMON) {
            return Ok(());
        }
        self.make_common(row);
        self.state.enqueue_mark(row, generation + 1);
        Ok(())
    }
}

impl Algorithm {
    // The parents of a drawn row gain COMMON, and wait to be marked from.
    fn spread_all<S: Source>(
        &mut self,
        source: &S,
        row: usize,
        generation: usize,
    ) -> Result<(), Denial>
        requires inside { row < length (walk self.old).rows }
        requires held { Held self.old 0 }
        requires young { generation ≤ common_rows (walk self.old) }
        ensures is { Spread (S.meaning source.now) generation (parents_at self.old row) (marks self.old) (walk self.old) result (marks self.new) (walk self.new) }
        ensures keeps { Keeps self.old self.new }
    {
        // By number, since the parents lie in the book that the body fills.
        let count = self.state.head(row).parents;
        for n in 0..count {
            let parent = self.state.parent(row, n);
            self.spread_one(source, parent, generation)?;
        }
        Ok(())
    }

    // A drawn row of the marking queue.
    fn visit<S: Source>(
        &mut self,
        source: &S,
        step: Step,
        ancestors: Ancestors,
    ) -> Result<(), Denial>
        requires inside { step.row < length (walk self.old).rows }
        requires held { Held self.old 0 }
        requires young { step.generation ≤ common_rows (walk self.old) }
        ensures is { Visited (S.meaning source.now) (all ancestors) step (marks self.old) (walk self.old) result (marks self.new) (walk self.new) }
        ensures keeps { Keeps self.old self.new }
    {
        if !self.state.head(step.row).flags.intersects(Flags::SEEN) {
            self.admit(step.row, Flags::SEEN);
            return Ok(());
        }
        if !ancestors.reach(step.generation) {
            return Ok(());
        }
        self.spread_all(source, step.row, step.generation)
    }

    // Draws from the marking queue until it is empty.
    fn spread<S: Source>(&mut self, source: &S, ancestors: Ancestors) -> Result<(), Denial>
        requires held { Held self.old 1 }
        ensures is { (g : ℕ) → Marking (S.meaning source.now) (all ancestors) g [] (marks self.old) (walk self.old) (ended result (walk self.new)) }
        ensures grows { Ext (walk self.old) (walk self.new) }
    {
        while let Some(step) = self.state.dequeue_mark() {
            self.visit(source, step, ancestors)?;
        }
        Ok(())
    }

    // The row alone waits to be marked from.
    fn begin_marking(&mut self, row: usize)
        requires { row < length (walk self.old).rows }
        ensures is { marks self.new ≡ alone (walk self.old) row }
        ensures same { walk self.new ≡ walk self.old }
        ensures held { Held self.new 1 }
    {
        self.state.clear_marks();
        self.state.enqueue_mark(row, 0);
    }

    // Marks a commit's ancestors as common, and the commit too if so asked.
    pub(crate) fn mark_common<S: Source>(
        &mut self,
        source: &S,
        id: ObjectId,
        mode: Mark,
        ancestors: Ancestors,
    ) -> Result<(), Denial>
        ensures is { MarksSo (S.meaning source.now) (itself mode) (all ancestors) id (walk self.old) (ended result (walk self.new)) }
        ensures grows { Ext (walk self.old) (walk self.new) }
    {
        let Some(row) = self.lookup(source, id)? else {
            return Ok(());
        };
        if self.state.head(row).flags.intersects(Flags::COMMON) {
            return Ok(());
        }
        // Two calls of `spread`, since a proof loses what is known of the walk where branches join.
        self.begin_marking(row);
        if mode == Mark::ThisCommitAndAncestors {
            self.make_common(row);
            return self.spread(source, ancestors);
        }
        self.spread(source, ancestors)
    }
}

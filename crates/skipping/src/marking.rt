// Adding a commit to the queue, and marking all ancestors of a commit as common. What many clauses say here (`Ext`, `Quiet`, that
// a row is inside) is one word or one inequality each, of another row each time: a name would be no plainer.
ghost use Rattle.std.specs.Prelude.{◌≡◌, ◌+◌, ◌<◌, ◌≤◌, false, [], length};
ghost use Rattle.model.specs.Book.{flags_at};
ghost use Rattle.model.specs.Steps.{sees};
ghost use Rattle.model.specs.Skipping.{queued, shared, falls, Add, Spread, Mark};
ghost use Rattle.model.specs.Parts.{Looks, ended};
ghost use Rattle.model.specs.SkipParts.{Adds, SeenIfThere, SpreadOne, SpreadAll, Visited};
ghost use Rattle.model.specs.Steady.{Ext, common_rows};
ghost use Rattle.model.specs.View.{unpack};
ghost use Rattle.walk.specs.View.{Quiet};
ghost use Rattle.skipping.specs.Seen.{walk, marks, parents_at, Held, HeldWith, Keeps, AddsUnseen};

use crate::Algorithm;
use book::types::{Denial, Flags};
use model::Step;
use source::{ObjectId, Source};

impl Algorithm {
    // The row of an id, which comes in from the source where there is none yet. A step of its own, so that the type's
    // invariant is shown once for all calls that look up.
    fn lookup<S: Source>(&mut self, source: &S, id: ObjectId) -> Result<Option<usize>, Denial>
        ensures is { Looks (S.meaning source.now) (walk self.old) id (walk self.new) result }
        ensures quiet { Quiet self.old.state self.new.state }
    {
        self.state.lookup(source, id)
    }

    // A row without SEEN enters the queue with the flags of `mask`, and raises the count.
    fn enter(&mut self, row: usize, mask: Flags)
        requires inside { row < length (walk self.old).rows }
        requires adds { Adds mask.bits }
        requires unseen { (flags_at (walk self.old) row).seen ≡ false }
        ensures { walk self.new ≡ queued (unpack mask.bits) (walk self.old) row }
    {
        self.state.set_flags(row, mask);
        self.state.enqueue(row);
        self.state.raise_count(1);
    }

    // Looks an id without SEEN up, and lets its row enter the queue. The consecutive walk's `push` has the same shape and
    // another rule: it lets a row with SEEN pass, and looks at the mask.
    fn add_to_queue<S: Source>(
        &mut self,
        source: &S,
        id: ObjectId,
        mask: Flags,
    ) -> Result<(), Denial>
        requires adds { Adds mask.bits }
        requires unseen { sees (walk self.old) id ≡ false }
        ensures is { Add (S.meaning source.now) (unpack mask.bits) id (walk self.old) (ended result (walk self.new)) }
        ensures grows { Ext (walk self.old) (walk self.new) }
    {
        let Some(row) = self.lookup(source, id)? else {
            return Ok(());
        };
        self.enter(row, mask);
        Ok(())
    }

    // The same, unless the id has a row with SEEN. A commit of our own enters with SEEN, one that the remote is known to
    // have with ADVERTISED too.
    pub(crate) fn add_unseen<S: Source>(
        &mut self,
        source: &S,
        id: ObjectId,
        mask: Flags,
    ) -> Result<(), Denial>
        requires { Adds mask.bits }
        ensures { AddsUnseen (S.meaning source.now) (unpack mask.bits) id (walk self.old) result (walk self.new) }
    {
        if self.state.has_seen(id) {
            return Ok(());
        }
        self.add_to_queue(source, id, mask)
    }
}

// 1 for a row without POPPED, else 0.
fn unpopped(flags: Flags) -> usize
    ensures { result ≡ falls (unpack flags.bits) }
{
    usize::from(!flags.intersects(Flags::POPPED))
}

impl Algorithm {
    // Sets COMMON in a row that lacks it.
    fn make_common(&mut self, row: usize)
        requires inside { row < length (walk self.old).rows }
        requires lacks { (flags_at (walk self.old) row).common ≡ false }
        ensures is { walk self.new ≡ shared (walk self.old) row }
        ensures quiet { Quiet self.old.state self.new.state }
    {
        self.state.set_flags(row, Flags::COMMON);
    }

    // A parent of a drawn row gains COMMON where it has a row, and waits to be marked from where that has SEEN.
    fn spread_one(&mut self, id: ObjectId)
        requires { Held self.old }
        ensures is { SpreadOne id (marks self.old) (walk self.old) (marks self.new) (walk self.new) }
        ensures keeps { Keeps self.old self.new }
    {
        let Some(row) = self.state.find(id) else {
            return;
        };
        let flags = self.state.head(row).flags;
        if flags.intersects(Flags::COMMON) {
            return;
        }
        self.make_common(row);
        if !flags.intersects(Flags::SEEN) {
            return;
        }
        self.state.enqueue_mark(row, 0);
    }

    // The same of all parents of a drawn row.
    fn spread_all(&mut self, row: usize)
        requires inside { row < length (walk self.old).rows }
        requires held { Held self.old }
        ensures is { SpreadAll (parents_at self.old row) (marks self.old) (walk self.old) (marks self.new) (walk self.new) }
        ensures keeps { Keeps self.old self.new }
    {
        // By number, since the parents lie in the book that the body marks.
        let count = self.state.head(row).parents;
        for n in 0..count {
            let parent = self.state.parent(row, n);
            self.spread_one(parent);
        }
    }

    // A row drawn from the marking queue: it counts no longer, and its parents are marked.
    fn visit(&mut self, step: Step)
        requires { HeldWith self.old step }
        ensures is { Visited step (marks self.old) (walk self.old) (marks self.new) (walk self.new) }
        ensures keeps { Keeps self.old self.new }
    {
        let flags = self.state.head(step.row).flags;
        self.state.lower_count(unpopped(flags));
        self.spread_all(step.row);
    }

    // Draws from the marking queue until it is empty.
    fn spread(&mut self)
        requires { Held self.old }
        ensures is { Spread [] (marks self.old) (walk self.old) (walk self.new) }
        ensures grows { Ext (walk self.old) (walk self.new) }
    {
        while let Some(step) = self.state.dequeue_mark() {
            self.visit(step);
        }
    }

    // Marks a commit and its ancestors as common. A row that it has must have SEEN.
    pub(crate) fn mark_common<S: Source>(&mut self, source: &S, id: ObjectId) -> Result<(), Denial>
        requires { SeenIfThere (S.meaning source.now) (walk self.old) id }
        ensures is { Mark (S.meaning source.now) id (walk self.old) (ended result (walk self.new)) }
        ensures grows { Ext (walk self.old) (walk self.new) }
    {
        let Some(row) = self.lookup(source, id)? else {
            return Ok(());
        };
        if self.state.head(row).flags.intersects(Flags::COMMON) {
            return Ok(());
        }
        self.make_common(row);
        self.state.clear_marks();
        self.state.enqueue_mark(row, 0);
        self.spread();
        Ok(())
    }
}

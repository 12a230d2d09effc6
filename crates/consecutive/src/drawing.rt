// Drawing from the queue, and what a drawn row passes on to its parents.
ghost use Rattle.std.specs.Prelude.{◌≡◌, ◌<◌, ◌⊎◌, length};
ghost use Rattle.model.specs.Consecutive.{passes_both, passed_on, PushUnseen, Pass, Next};
ghost use Rattle.model.specs.Parts.{ended, PassedOne, Drew, haves};
ghost use Rattle.model.specs.Steady.{Ext};
ghost use Rattle.model.specs.View.{unpack};
ghost use Rattle.consecutive.specs.Seen.{walk, parents_at};

use crate::Algorithm;
use crate::marking::{Ancestors, Mark};
use book::types::{Denial, Flags};
use model::Turn;
use source::{ObjectId, Source};

// Whether a drawn row of these flags passes on COMMON beside SEEN.
fn passes_both(flags: Flags) -> bool
    ensures { result ≡ passes_both (unpack flags.bits) }
{
    flags.intersects(Flags::COMMON) || flags.intersects(Flags::COMMON_REF)
}

// The flags that a drawn row passes on.
fn passed_on(both: bool) -> Flags
    ensures is { unpack result.bits ≡ passed_on both }
    ensures bits { (result.bits ≡ 8) ⊎ (result.bits ≡ 12) }
{
    if both {
        Flags::COMMON_AND_SEEN
    } else {
        Flags::SEEN
    }
}

impl Algorithm {
    // Pushes an id with what is passed on, unless its row has SEEN.
    fn push_unseen<S: Source>(&mut self, source: &S, id: ObjectId, both: bool) -> Result<(), Denial>
        ensures is { PushUnseen (S.meaning source.now) (passed_on both) id (walk self.old) (ended result (walk self.new)) }
        ensures grows { Ext (walk self.old) (walk self.new) }
    {
        if self.state.has_seen(id) {
            return Ok(());
        }
        self.push(source, id, passed_on(both))
    }

    // A drawn row passes on to one parent.
    fn pass_one<S: Source>(&mut self, source: &S, id: ObjectId, both: bool) -> Result<(), Denial>
        ensures is { PassedOne (S.meaning source.now) both id (walk self.old) result (walk self.new) }
        ensures grows { Ext (walk self.old) (walk self.new) }
    {
        self.push_unseen(source, id, both)?;
        if both {
            return self.mark_common(source, id, Mark::AncestorsOnly, Ancestors::AllUnseen);
        }
        Ok(())
    }

    // A drawn row passes on to its parents.
    fn pass<S: Source>(&mut self, source: &S, row: usize, both: bool) -> Result<(), Denial>
        requires inside { row < length (walk self.old).rows }
        ensures is { Pass (S.meaning source.now) both (parents_at self.old row) (walk self.old) (ended result (walk self.new)) }
        ensures grows { Ext (walk self.old) (walk self.new) }
    {
        // By number, since the parents lie in the book that the body fills.
        let count = self.state.head(row).parents;
        for n in 0..count {
            let parent = self.state.parent(row, n);
            self.pass_one(source, parent, both)?;
        }
        Ok(())
    }

    // Draws a row, which becomes POPPED. With a count of zero the drawn entry is lost.
    fn draw_row(&mut self) -> Option<Turn>
        ensures is { Drew (walk self.old) result (walk self.new) }
        ensures grows { Ext (walk self.old) (walk self.new) }
    {
        let drawn = self.state.draw()?;
        let flags = drawn.had.flags;
        Some(Turn {
            row: drawn.row,
            answered: !flags.intersects(Flags::COMMON),
            both: passes_both(flags),
        })
    }

    // Draws until it has something to answer.
    pub(crate) fn next<S: Source>(&mut self, source: &S) -> Result<Option<usize>, Denial>
        ensures is { Next (S.meaning source.now) (walk self.old) (haves result) (walk self.new) }
    {
        while let Some(turn) = self.draw_row() {
            self.pass(source, turn.row, turn.both)?;
            if turn.answered {
                return Ok(Some(turn.row));
            }
        }
        Ok(None)
    }
}

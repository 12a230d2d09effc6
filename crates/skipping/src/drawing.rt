// Drawing rows, and handing skip numbers on to their parents.
ghost use Rattle.std.specs.Prelude.{◌≡◌, ◌<◌, length};
ghost use Rattle.model.specs.Book.{find};
ghost use Rattle.model.specs.Skipping.{new_original, new_ttl, numbered, pops, shares, Next};
ghost use Rattle.model.specs.Parts.{haves};
ghost use Rattle.model.specs.SkipParts.{Pushed, Handed, offered};
ghost use Rattle.model.specs.Steady.{Ext};
ghost use Rattle.model.specs.View.{unpack};
ghost use Rattle.skipping.specs.Seen.{walk, parents_at, HasRow, Drew};

use crate::Algorithm;
use book::types::{Denial, Flags, Metadata};
use source::{ObjectId, Source};
use walk::state::drawing::Drawn;

// The original and the running skip number that a drawn row hands on to its parents, in the order in which `set_skip`
// takes them.
fn hand_on(original_ttl: u16, ttl: u16) -> (u16, u16)
    ensures { (result.0 ≡ new_original original_ttl ttl) × (result.1 ≡ new_ttl original_ttl ttl) }
{
    if ttl > 0 {
        return (original_ttl, ttl - 1);
    }
    let grown = u16::try_from(u32::from(original_ttl) * 3 / 2 + 1).unwrap_or(u16::MAX);
    (grown, grown)
}

// Whether a drawn row of these flags passes COMMON on to its parents.
fn passes_common(flags: Flags) -> bool
    ensures { result ≡ shares (unpack flags.bits) }
{
    flags.intersects(Flags::COMMON) || flags.intersects(Flags::ADVERTISED)
}

// Whether a drawn row is offered: one without COMMON, if its turn has come or it pushed no parent.
fn is_offered(entry: Metadata, pushed: bool) -> bool
    ensures { result ≡ offered (unpack entry.flags.bits) entry.ttl pushed }
{
    !entry.flags.intersects(Flags::COMMON) && (entry.ttl == 0 || !pushed)
}

impl Algorithm {
    // Whether an id has a row with SEEN that was drawn.
    fn has_popped(&self, id: ObjectId) -> bool
        ensures { result ≡ pops (walk self.now) id }
    {
        let flags = self.state.flags_of(id);
        flags.intersects(Flags::SEEN) && flags.intersects(Flags::POPPED)
    }

    // The row of a parent. An absent one stops the walk.
    fn parent_row(&mut self, id: ObjectId) -> Result<usize, Denial>
        ensures { HasRow (walk self.old) id result (walk self.new) }
    {
        let Some(row) = self.state.find(id) else {
            self.state.stop();
            return Err(Denial::MissingParent);
        };
        Ok(row)
    }

    // Writes the new skip numbers in a parent's row, where its original is smaller.
    fn renumber(&mut self, row: usize, entry: Metadata)
        requires { row < length (walk self.old).rows }
        ensures { walk self.new ≡ numbered entry.original_ttl entry.ttl (walk self.old) row }
    {
        let (original_ttl, ttl) = hand_on(entry.original_ttl, entry.ttl);
        if self.state.metadata(row).original_ttl < original_ttl {
            self.state.set_skip(row, original_ttl, ttl);
        }
    }

    // Hands on to one parent of a drawn row, and says whether it waits to be drawn.
    fn push_parent<S: Source>(
        &mut self,
        source: &S,
        entry: Metadata,
        id: ObjectId,
    ) -> Result<bool, Denial>
        ensures is { Pushed (S.meaning source.now) (unpack entry.flags.bits) entry.original_ttl entry.ttl id (walk self.old) result (walk self.new) }
        ensures grows { Ext (walk self.old) (walk self.new) }
    {
        if self.has_popped(id) {
            return Ok(false);
        }
        self.add_unseen(source, id, Flags::SEEN)?;
        if passes_common(entry.flags) {
            self.mark_common(source, id)?;
            return Ok(true);
        }
        let row = self.parent_row(id)?;
        self.renumber(row, entry);
        Ok(true)
    }

    // Hands on to all parents of a drawn row, and says whether one waits to be drawn.
    fn push_parents<S: Source>(
        &mut self,
        source: &S,
        row: usize,
        metadata: Metadata,
    ) -> Result<bool, Denial>
        requires { row < length (walk self.old).rows }
        ensures is { Handed (S.meaning source.now) (unpack metadata.flags.bits) metadata.original_ttl metadata.ttl (parents_at self.old row) (walk self.old) result (walk self.new) }
        ensures grows { Ext (walk self.old) (walk self.new) }
    {
        // By number, since the parents lie in the book that the body fills.
        let count = self.state.head(row).parents;
        let mut pushed = false;
        for n in 0..count {
            let parent = self.state.parent(row, n);
            pushed |= self.push_parent(source, metadata, parent)?;
        }
        Ok(pushed)
    }

    // Draws a row, which becomes POPPED. With a count of zero the drawn entry is lost.
    #[tactic(auto, using(crate::proofs::Takes::drew_is, crate::proofs::Takes::drew_ext, crate::proofs::Takes::drew_fits))]
    fn draw_row(&mut self) -> Option<Drawn>
        ensures is { Drew (walk self.old) result (walk self.new) }
        ensures grows { Ext (walk self.old) (walk self.new) }
    {
        self.state.draw()
    }

    // Draws until it has something to offer.
    pub(crate) fn next<S: Source>(&mut self, source: &S) -> Result<Option<usize>, Denial>
        ensures { Next (S.meaning source.now) (walk self.old) (haves result) (walk self.new) }
    {
        while let Some(turn) = self.draw_row() {
            let pushed = self.push_parents(source, turn.row, turn.had)?;
            if is_offered(turn.had, pushed) {
                return Ok(Some(turn.row));
            }
        }
        Ok(None)
    }
}

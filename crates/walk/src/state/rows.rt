// What a walk does with its book.
ghost use Rattle.std.specs.Prelude.{◌≡◌, ℕ, ◌+◌, ◌-◌, ◌^◌, ◌<◌, ◌≤◌, true, length, slice_index_or};
ghost use Rattle.book.specs.Rows.{no_id};
ghost use Rattle.book.specs.Model.{model};
ghost use Rattle.model.specs.declared.Algorithm.{Algorithm};
ghost use Rattle.model.specs.declared.Call.TheVariants as calls;
ghost use Rattle.model.specs.Book.{row as row_at, flags_at, change, put, renumber, recount, join, stop, find};
ghost use Rattle.model.specs.Steps.{sees, common_at};
ghost use Rattle.model.specs.Past.{does, Called};
ghost use Rattle.model.specs.Parts.{Looks, dones};
ghost use Rattle.model.specs.View.{unpack, rows_of};
ghost use Rattle.walk.specs.View.{view, Quiet, Going, is_mask, row_of, flags_of, HasMetadata};

use crate::state::State;
use book::book::Book;
use book::types::{Denial, Flags, Head, Metadata, Remark};
use source::{ObjectId, Source};

impl State {
    // The book, to be read.
    pub fn book(&self) -> &Book
        ensures { rows_of (model result.now) ≡ (view self.now).rows }
    {
        &self.book
    }

    // The row of an id, which comes in from the source where there is none yet.
    pub fn lookup<S: Source>(&mut self, source: &S, id: ObjectId) -> Result<Option<usize>, Denial>
        ensures is { Looks (S.meaning source.now) (view self.old) id (view self.new) result }
        ensures quiet { Quiet self.old self.new }
    {
        self.book.lookup(source, id)
    }

    // The row that an id has already.
    pub fn find(&self, id: ObjectId) -> Option<usize>
        ensures { result ≡ row_of (find id (view self.now).rows) }
    {
        self.book.find(id)
    }

    // What a row has of its own.
    pub fn head(&self, row: usize) -> Head
        ensures flags { unpack result.flags.bits ≡ flags_at (view self.now) row }
        ensures date { result.date ≡ (row_at (view self.now) row).date }
        ensures parents { result.parents ≡ length (row_at (view self.now) row).parents }
    {
        self.book.head(row)
    }

    // The skip numbers and the flags of a row.
    pub fn metadata(&self, row: usize) -> Metadata
        ensures { HasMetadata (row_at (view self.now) row) result }
    {
        self.book.metadata(row).unwrap_or_default()
    }

    // A row's parent by number.
    pub fn parent(&self, row: usize, n: usize) -> ObjectId
        ensures { result ≡ slice_index_or (row_at (view self.now) row).parents n no_id }
    {
        self.book.parent_of(row, n)
    }

    // The flags of an id's row, or none where it has no row.
    pub fn flags_of(&self, id: ObjectId) -> Flags
        ensures { unpack result.bits ≡ flags_of (view self.now) (find id (view self.now).rows) }
    {
        match self.find(id) {
            Some(row) => self.head(row).flags,
            None => Flags::NONE,
        }
    }

    // Whether an id has a row with SEEN. A question of its own, since the rules name it.
    pub fn has_seen(&self, id: ObjectId) -> bool
        ensures { result ≡ sees (view self.now) id }
    {
        self.flags_of(id).intersects(Flags::SEEN)
    }

    // Whether an id has a row with COMMON. A question of its own, since the rules name it.
    pub fn has_common(&self, id: ObjectId) -> bool
        ensures { result ≡ common_at (view self.now) (find id (view self.now).rows) }
    {
        self.flags_of(id).intersects(Flags::COMMON)
    }

    // Sets the bits of `mask` in a row. Past the last row nothing changes, as in the rules.
    pub fn set_flags(&mut self, row: usize, mask: Flags)
        requires { is_mask mask.bits ≡ true }
        ensures is { view self.new ≡ change (view self.old) row (join (unpack mask.bits) (flags_at (view self.old) row)) (view self.old).queue (view self.old).count }
        ensures quiet { Quiet self.old self.new }
    {
        let _ = self.book.set_flags(row, mask);
    }

    // Writes a row's skip numbers. Past the last row nothing changes, as in the rules.
    pub fn set_skip(&mut self, row: usize, original_ttl: u16, ttl: u16)
        ensures is { view self.new ≡ put (view self.old) row (renumber (row_at (view self.old) row) original_ttl ttl) (view self.old).queue (view self.old).count }
        ensures quiet { Quiet self.old self.new }
    {
        let _ = self.book.set_skip(row, original_ttl, ttl);
    }

    // Looks an id up, and sets the flag of the remark in its row, where there is one.
    pub fn note<S: Source>(
        &mut self,
        source: &S,
        id: ObjectId,
        remark: Remark,
    ) -> Result<(), Denial>
        ensures is { (n : Algorithm) → Called (does n (S.meaning source.now)) (view self.old) (calls.Note id remark) (dones result) (view self.new) }
        ensures quiet { Quiet self.old self.new }
    {
        self.book.note(source, id, remark)
    }

    // Refuses a call once a denial has stopped the walk.
    pub fn going(&self) -> Result<(), Denial>
        ensures { Going (view self.now) result }
    {
        self.book.going()
    }

    // Whether a denial has stopped the walk.
    pub fn is_stopped(&self) -> bool
        ensures { result ≡ (view self.now).stopped }
    {
        self.book.is_stopped()
    }

    // Stops the walk for good.
    pub fn stop(&mut self)
        ensures is { view self.new ≡ stop (view self.old) }
        ensures quiet { Quiet self.old self.new }
    {
        self.book.stop()
    }
}

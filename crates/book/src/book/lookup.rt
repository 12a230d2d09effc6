// How commits come into a book.
ghost use Rattle.std.specs.Prelude.{◌≡◌, ℕ, ◌+◌, ◌≤◌, None, length, vec_len};
ghost use Rattle.source.specs.Ids.{place};
ghost use Rattle.source.specs.Meaning.{parents_of};
ghost use Rattle.book.specs.Bits.{bit_of};
ghost use Rattle.book.specs.Model.{Copied, model, ids_of, query, stopping, looked_up, noted, room_for, halted};

use crate::book::Book;
use crate::types::{Denial, Remark};
use source::{ObjectId, Source};

impl Book {
    // Writes the commit's parents, in order, into the free links: by index, since a proof knows nothing of the elements
    // that an adapter of `iter_mut` lent.
    fn copy_parents<S: Source>(&mut self, source: &S, id: ObjectId, count: usize)
        requires room { self.old.linked + count ≤ vec_len self.old.links }
        requires whole { count ≡ length (parents_of (S.meaning source.now id)) }
        ensures { Copied self.old self.new (parents_of (S.meaning source.now id)) count }
    {
        let first = self.linked;
        for k in 0..count {
            if let Some(parent) = source.parent(id, k) {
                self.links[first + k] = parent;
            }
        }
    }

    // Whether a commit with so many parents finds a free row and free links.
    fn room_for(&self, count: usize) -> Result<(), Denial>
        ensures { result ≡ room_for self.now.used self.now.limit self.now.linked (vec_len self.now.links) count }
    {
        if self.used >= self.limit {
            return Err(Denial::RowsFull);
        }
        if count > self.links.len() - self.linked {
            return Err(Denial::LinksFull);
        }
        Ok(())
    }

    // The row of a commit that comes in from the source, where the source has it. A source answers each question by
    // itself, so they are asked one by one.
    fn enter<S: Source>(&mut self, source: &S, id: ObjectId) -> Result<Option<usize>, Denial>
        requires new { None ≡ place id (ids_of (model self.old)) 0 }
        ensures after { stopping result (model self.new) ≡ (query (model self.old) id (S.meaning source.now id)).book }
        ensures value { result ≡ (query (model self.old) id (S.meaning source.now id)).answer }
    {
        if let Some(fault) = source.fault(id) {
            return Err(Denial::Failing(fault));
        }
        let Some(date) = source.date(id) else {
            return Ok(None);
        };
        let Some(count) = source.parent_count(id) else {
            return Ok(None);
        };
        self.room_for(count)?;
        self.copy_parents(source, id, count);
        let row = self.used;
        self.insert(id, date, count);
        Ok(Some(row))
    }

    // The row of an id, which comes in from the source where there is none yet. A denial stops the walk.
    pub fn lookup<S: Source>(&mut self, source: &S, id: ObjectId) -> Result<Option<usize>, Denial>
        ensures after { model self.new ≡ (looked_up (S.meaning source.now) id (model self.old)).book }
        ensures value { result ≡ (looked_up (S.meaning source.now) id (model self.old)).answer }
    {
        if let Some(row) = self.find(id) {
            return Ok(Some(row));
        }
        let entered = self.enter(source, id);
        self.stopped |= entered.is_err();
        entered
    }

    // Looks an id up, and sets the flag of the remark in its row, where there is one.
    pub fn note<S: Source>(
        &mut self,
        source: &S,
        id: ObjectId,
        remark: Remark,
    ) -> Result<(), Denial>
        ensures after { model self.new ≡ (noted (S.meaning source.now) id (bit_of remark) (model self.old)).book }
        ensures value { result ≡ (noted (S.meaning source.now) id (bit_of remark) (model self.old)).answer }
    {
        self.going()?;
        if let Some(row) = self.lookup(source, id)? {
            // Nothing is lost: the row was just found.
            let _ = self.set_flags(row, remark.flag());
        }
        Ok(())
    }

    // Stops the walk for good.
    pub fn stop(&mut self)
        ensures { model self.new ≡ halted (model self.old) }
    {
        self.stopped = true;
    }
}

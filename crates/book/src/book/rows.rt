// Reads and writes of the rows that are taken.
ghost use Rattle.std.specs.Prelude.{◌≡◌, ℕ, ◌+◌, ◌<◌, ◌≤◌, length, get_or, Ok, Err, slice_index_or};
ghost use Rattle.book.specs.Rows.{no_id};
ghost use Rattle.book.specs.Model.{model, no_entry, summed, flags_of, metadata_of, reading, reading_parent, row_at, flagged, skipped, written, going, Read, Linked};

use crate::book::Book;
use crate::types::{Denial, Flags, Head, Metadata, Row};
use source::ObjectId;

impl Book {
    // A taken row.
    fn row(&self, row: usize) -> Result<Row, Denial>
        ensures { Read self.now row result }
    {
        self.rows[..self.used]
            .get(row)
            .copied()
            .ok_or(Denial::NoSuchRow)
    }

    // A parent of a taken row.
    fn link(&self, row: usize, n: usize) -> Option<ObjectId>
        ensures { Linked self.now row n result }
    {
        let r = self.row(row).ok()?;
        self.links[r.first..r.first + r.count].get(n).copied()
    }

    pub fn id(&self, row: usize) -> Result<ObjectId, Denial>
        ensures { result ≡ reading (λ e. e.id) (row_at (model self.now) row) }
    {
        Ok(self.row(row)?.id)
    }

    pub fn date(&self, row: usize) -> Result<i64, Denial>
        ensures { result ≡ reading (λ e. e.date) (row_at (model self.now) row) }
    {
        Ok(self.row(row)?.date)
    }

    // The skip numbers and the flags.
    pub fn metadata(&self, row: usize) -> Result<Metadata, Denial>
        ensures { result ≡ reading metadata_of (row_at (model self.now) row) }
    {
        Ok(self.row(row)?.metadata)
    }

    pub fn flags(&self, row: usize) -> Result<Flags, Denial>
        ensures { result ≡ reading flags_of (row_at (model self.now) row) }
    {
        Ok(self.row(row)?.metadata.flags)
    }

    // The skip numbers: `original_ttl` and `ttl`.
    pub fn skip(&self, row: usize) -> Result<(u16, u16), Denial>
        ensures { result ≡ reading (λ e. (e.original, e.ttl)) (row_at (model self.now) row) }
    {
        let metadata = self.row(row)?.metadata;
        Ok((metadata.original_ttl, metadata.ttl))
    }

    pub fn parent_count(&self, row: usize) -> Result<usize, Denial>
        ensures { result ≡ reading (λ e. length e.parents) (row_at (model self.now) row) }
    {
        Ok(self.row(row)?.count)
    }

    // A parent by its number.
    pub fn parent(&self, row: usize, n: usize) -> Result<ObjectId, Denial>
        ensures { result ≡ reading_parent n (row_at (model self.now) row) }
    {
        self.link(row, n).ok_or(Denial::NoSuchRow)
    }
}

impl Book {
    // What a row has of its own, or zeroes past the last row.
    pub fn head(&self, row: usize) -> Head
        ensures { result ≡ summed (slice_index_or (model self.now).entries row no_entry) }
    {
        let r = self.row(row).unwrap_or(Row::empty());
        Head {
            date: r.date,
            parents: r.count,
            flags: r.metadata.flags,
        }
    }

    // A row's parent by number, or the id of zeroes past the last.
    pub fn parent_of(&self, row: usize, n: usize) -> ObjectId
        ensures { result ≡ slice_index_or (get_or (model self.now).entries row no_entry).parents n no_id }
    {
        self.link(row, n).unwrap_or(ObjectId::NULL)
    }
}

impl Book {
    // Whether a denial has stopped the walk.
    pub fn is_stopped(&self) -> bool
        ensures { result ≡ (model self.now).stopped }
    {
        self.stopped
    }

    // Refuses a call once a denial has stopped the walk.
    pub fn going(&self) -> Result<(), Denial>
        ensures { result ≡ going (model self.now) }
    {
        if self.is_stopped() {
            Err(Denial::Stopped)
        } else {
            Ok(())
        }
    }

    // How many rows are taken.
    pub fn row_count(&self) -> usize
        ensures { result ≡ length (model self.now).entries }
    {
        self.used
    }
}

impl Book {
    // Writes what the walks keep of a taken row.
    fn write(&mut self, row: usize, metadata: Metadata)
        requires { row < length (model self.old).entries }
        ensures { model self.new ≡ written (model self.old) row metadata }
    {
        self.rows[row].metadata = metadata;
    }

    // Sets the bits of `mask` in a row's flags, and answers with the flags that it had.
    pub fn set_flags(&mut self, row: usize, mask: Flags) -> Result<Flags, Denial>
        ensures after { model self.new ≡ flagged (model self.old) row mask.bits }
        ensures value { result ≡ reading flags_of (row_at (model self.old) row) }
    {
        let old = self.metadata(row)?;
        self.write(row, old.flagged(mask));
        Ok(old.flags)
    }

    // Writes a row's skip numbers.
    pub fn set_skip(&mut self, row: usize, original_ttl: u16, ttl: u16) -> Result<(), Denial>
        ensures after { model self.new ≡ skipped (model self.old) row original_ttl ttl }
        ensures value { result ≡ reading (λ _. tt) (row_at (model self.old) row) }
    {
        let old = self.metadata(row)?;
        self.write(row, old.renumbered(original_ttl, ttl));
        Ok(())
    }
}

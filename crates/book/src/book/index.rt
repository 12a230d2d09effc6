// How a row is found by its id: each bucket of ids is a chain of rows, the one that came in last first.
ghost use Rattle.std.specs.Prelude.{◌≡◌, ℕ, ◌+◌, ◌-◌, ◌<◌, ◌≤◌, List, map, take, Some, None, if◌then◌else◌, nat_eq, vec_len};
ghost use Rattle.source.specs.Ids.{place};
ghost use Rattle.book.specs.Index.{hash, id_of};
ghost use Rattle.book.specs.Model.{Compared, Inserted, ids_of, model};

use crate::book::Book;
use source::ObjectId;

// The bucket of an id. By products, since a loop of lookups, reads and writes took 0.13 s with `from_le_bytes`, and
// 0.04 s with them.
fn bucket_of(id: ObjectId, buckets: usize) -> usize
    requires { 0 < buckets }
    ensures value { result ≡ hash id buckets }
    ensures bound { result < buckets }
{
    let [low, mid, high, ..] = id.bytes;
    (usize::from(low) + 256 * usize::from(mid) + 65536 * usize::from(high)) % buckets
}

// The row that a link leads to: the link is its number plus one, or 0 for none.
fn linked(link: u16) -> Option<usize>
    ensures { result ≡ (if nat_eq link 0 then None else Some (link - 1)) }
{
    usize::from(link).checked_sub(1)
}

impl Book {
    // Whether the row is that of this id.
    fn holds(&self, row: usize, id: ObjectId) -> bool
        requires { row < self.now.used }
        ensures { Compared self.now row id result }
    {
        self.rows[row].id == id
    }

    // The row with this id, where there is one.
    pub fn find(&self, id: ObjectId) -> Option<usize>
        ensures { result ≡ place id (ids_of (model self.now)) 0 }
    {
        if self.limit == 0 {
            return None;
        }
        let mut at = linked(self.rows[bucket_of(id, self.limit)].head);
        while let Some(row) = at {
            if self.holds(row, id) {
                return Some(row);
            }
            at = linked(self.rows[row].next);
        }
        None
    }

    // Takes a row, whose parents are the first `count` free links.
    pub(crate) fn insert(&mut self, id: ObjectId, date: i64, count: usize)
        requires room { self.old.used < self.old.limit }
        requires fits { self.old.linked + count ≤ vec_len self.old.links }
        requires new { None ≡ place id (map id_of (take self.old.used self.old.rows.items)) 0 }
        ensures { Inserted self.old self.new id date count }
    {
        let bucket = bucket_of(id, self.limit);
        let next = self.rows[bucket].head;
        let row = self.used;
        let first = self.linked;
        self.rows[row] = self.rows[row].taken(id, date, first, count, next);
        self.rows[bucket].head = (row + 1) as u16;
        self.linked += count;
        self.used += 1;
    }
}

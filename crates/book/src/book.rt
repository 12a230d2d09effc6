// The book: rows and links that the caller hands over.
ghost use Rattle.std.specs.Prelude.{ℕ, ◌+◌, ◌<◌, ◌≤◌, vec_len};
ghost use Rattle.book.specs.Rows.{Inside};
ghost use Rattle.book.specs.Index.{Chained, Headed, Distinct};

use crate::types::Row;
use source::ObjectId;

mod index;
mod lookup;
mod making;
mod rows;

// A row's number plus one fits 16 bits.
pub const MOST_ROWS: usize = 65_535;

// The first `used` rows and the first `linked` links are taken; `limit` rows can be. The caller hands the buffers over,
// since nothing may allocate while a walk runs, so the lengths stand beside them.
#[derive(Drop)]
pub struct Book {
    rows: Vec<Row>,
    links: Vec<ObjectId>,
    limit: usize,
    used: usize,
    linked: usize,
    stopped: bool,
    ghost within: { used ≤ limit },
    ghost lent: { limit ≤ vec_len rows },
    // At most `MOST_ROWS`.
    ghost narrow: { limit ≤ 65535 },
    ghost room: { linked ≤ vec_len links },
    ghost inside: { Inside rows.items used linked },
    ghost chained: { Chained rows.items limit used },
    ghost headed: { Headed rows.items limit used },
    ghost distinct: { Distinct rows.items used },
}

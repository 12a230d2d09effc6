// How a book is made of the caller's buffers, and gives them back.
ghost use Rattle.std.specs.Prelude.{◌≡◌, ℕ, ◌≤◌, min, replicate, vec_len};
ghost use Rattle.book.specs.Rows.{empty_row, no_id};
ghost use Rattle.book.specs.Model.{blank, model};

use crate::book::{Book, MOST_ROWS};
use crate::types::Row;
use source::ObjectId;

impl Book {
    // A book over these buffers, which are zeroed whatever they held, of at most so many rows.
    pub fn new(mut rows: Vec<Row>, mut links: Vec<ObjectId>, most: usize) -> Book
        ensures model { model result ≡ blank (min most (min 65535 (vec_len rows))) (vec_len rows) (vec_len links) }
        ensures rows { result.rows.items ≡ replicate (vec_len rows) empty_row }
        ensures links { result.links.items ≡ replicate (vec_len links) no_id }
    {
        rows.fill(Row::empty());
        links.fill(ObjectId::NULL);
        let limit = rows.len().min(MOST_ROWS).min(most);
        Book::over(rows, links, limit)
    }

    // A book over buffers of zeroes.
    fn over(rows: Vec<Row>, links: Vec<ObjectId>, limit: usize) -> Book
        requires zeroes { rows.items ≡ replicate (vec_len rows) empty_row }
        requires within { (limit ≤ vec_len rows) × (limit ≤ 65535) }
        ensures model { model result ≡ blank limit (vec_len rows) (vec_len links) }
        ensures rows { result.rows ≡ rows }
        ensures links { result.links ≡ links }
    {
        Book {
            rows,
            links,
            limit,
            used: 0,
            linked: 0,
            stopped: false,
        }
    }

    // The buffers, as long as they were, with the rows and links that were taken in front.
    pub fn into_buffers(self) -> (Vec<Row>, Vec<ObjectId>)
        ensures rows { result.0 ≡ self.rows }
        ensures links { result.1 ≡ self.links }
        ensures lengths { (vec_len result.0 ≡ (model self).slots) × (vec_len result.1 ≡ (model self).most_links) }
        ensures room { (model self).most_rows ≤ min 65535 (vec_len result.0) }
    {
        (self.rows, self.links)
    }
}

// How a state is made of the caller's buffers, and gives them back.
ghost use Rattle.std.specs.Prelude.{◌≡◌, ℕ, ◌≤◌, min, [], vec_len, IfOk};
ghost use Rattle.model.specs.Book.{made};
ghost use Rattle.walk.specs.Made.{most_rows, Sized};
ghost use Rattle.walk.specs.View.{view, marks, numbered, places, mark_numbered, mark_places};

use crate::state::State;
use book::book::Book;
use book::types::Row;
use model::Step;
use queue::entry::Place;
use queue::queue::Queue;
use source::ObjectId;
use std::alloc::{AllocError, Global};

// The memory of a walk, which the caller hands over and gets back.
#[derive(Drop)]
pub struct Buffers {
    pub rows: Vec<Row>,
    pub links: Vec<ObjectId>,
    pub queue: Vec<Place<usize>>,
    pub marking: Vec<Place<Step>>,
}

impl Buffers {
    // The memory for a book of so many rows and links.
    pub fn sized(heap: Global, rows: usize, links: usize) -> Result<Buffers, AllocError>
        ensures { IfOk result (λ b. Sized b rows links) }
    {
        Ok(Buffers {
            rows: vec![in heap; Row::empty(); rows]?,
            links: vec![in heap; ObjectId::NULL; links]?,
            queue: vec![in heap; Place::empty(0usize); rows]?,
            marking: vec![in heap; Place::empty(Step::default()); rows]?,
        })
    }
}

impl State {
    // A walk that begins: the buffers are zeroed, whatever they held.
    pub fn new(buffers: Buffers) -> State
        ensures view { view result ≡ made (most_rows (vec_len buffers.rows) (vec_len buffers.queue) (vec_len buffers.marking)) (vec_len buffers.links) }
        ensures marks { marks result ≡ [] }
        ensures numbered { (numbered result ≡ 0) × (mark_numbered result ≡ 0) }
        ensures places { (places result ≡ vec_len buffers.queue) × (mark_places result ≡ vec_len buffers.marking) }
    {
        let Buffers {
            rows,
            links,
            queue,
            marking,
        } = buffers;
        let most = queue.len().min(marking.len());
        let book = Book::new(rows, links, most);
        let queue = Queue::new(queue, 0);
        let marking = Queue::new(marking, Step::default());
        State {
            book,
            queue,
            marking,
            count: 0,
        }
    }

    // The buffers, as long as they were.
    pub fn into_buffers(self) -> Buffers
        ensures rows { (view self).most_rows ≤ min 65535 (vec_len result.rows) }
        ensures links { vec_len result.links ≡ (view self).most_links }
        ensures places { (vec_len result.queue ≡ places self) × (vec_len result.marking ≡ mark_places self) }
    {
        let State {
            book,
            queue,
            marking,
            ..
        } = self;
        let (rows, links) = book.into_buffers();
        Buffers {
            rows,
            links,
            queue: queue.into_places(),
            marking: marking.into_places(),
        }
    }
}

#[cfg(test)]
mod tests {
    use super::*;

    #[test]
    fn buffers_are_made(rt: HostRuntime) -> Result<(), AllocError> {
        let buffers = Buffers::sized(rt.alloc(), 3, 5)?;
        assert_eq!(rt; buffers.rows.len(), 3);
        assert_eq!(rt; buffers.links.len(), 5);
        assert_eq!(rt; buffers.queue.len(), 3);
        assert_eq!(rt; buffers.marking.len(), 3);
        Ok(())
    }
}

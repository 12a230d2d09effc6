// A walk's state: the book, the rows that wait to be drawn, the rows to mark from, and the count.
use book::book::Book;
use model::Step;
use queue::queue::Queue;

pub mod drawing;
pub mod making;
mod queues;
mod rows;

#[derive(Drop)]
pub struct State {
    book: Book,
    queue: Queue<usize>,
    marking: Queue<Step>,
    count: usize,
}

// What a walk does with its queues and its count.
ghost use Rattle.std.specs.Prelude.{◌≡◌, ℕ, ◌+◌, ◌-◌, ◌^◌, ◌<◌, ◌≤◌, [], length, ◌==◌};
ghost use Rattle.model.specs.Book.{place, place_mark, drawn, recount};
ghost use Rattle.walk.specs.View.{view, marks, numbered, places, mark_numbered, mark_places, Aside, OnlyMarks, Quiet, Drew, DrewMark};

use crate::state::State;
use model::Step;

impl State {
    // The row enters the queue with its date.
    pub fn enqueue(&mut self, row: usize)
        requires space { length (view self.old).queue < places self.old }
        requires number { numbered self.old + 1 < 2 ^ 64 }
        ensures is { view self.new ≡ drawn (view self.old) (place (view self.old).rows row (view self.old).queue) }
        ensures aside { Aside self.old self.new }
        ensures number { numbered self.new ≤ numbered self.old + 1 }
    {
        let date = self.book.head(row).date;
        self.queue.insert(date, row);
    }

    // Draws the row with the latest date, and of one date the one that entered first.
    pub fn dequeue(&mut self) -> Option<usize>
        ensures is { Drew (view self.old) result (view self.new) }
        ensures quiet { Quiet self.old self.new }
    {
        Some(self.queue.draw()?.value)
    }

    // The row enters the marking queue with its date and this generation.
    pub fn enqueue_mark(&mut self, row: usize, generation: usize)
        requires space { length (marks self.old) < mark_places self.old }
        requires number { mark_numbered self.old + 1 < 2 ^ 64 }
        ensures is { marks self.new ≡ place_mark (view self.old).rows (record { row = row; generation = generation }) (marks self.old) }
        ensures only { OnlyMarks self.old self.new }
        ensures number { mark_numbered self.new ≤ mark_numbered self.old + 1 }
    {
        let date = self.book.head(row).date;
        self.marking.insert(date, Step { row, generation });
    }

    // Draws from the marking queue.
    pub fn dequeue_mark(&mut self) -> Option<Step>
        ensures is { DrewMark (marks self.old) result (marks self.new) }
        ensures only { OnlyMarks self.old self.new }
        ensures number { mark_numbered self.new ≡ mark_numbered self.old }
    {
        Some(self.marking.draw()?.value)
    }

    // Empties the marking queue, in which a denied mark may have left rows.
    pub fn clear_marks(&mut self)
        ensures is { marks self.new ≡ [] }
        ensures only { OnlyMarks self.old self.new }
        ensures number { mark_numbered self.new ≡ 0 }
    {
        self.marking.clear();
    }

    // Whether the count is zero.
    pub fn is_spent(&self) -> bool
        ensures { result ≡ ((view self.now).count == 0) }
    {
        self.count == 0
    }

    pub fn raise_count(&mut self, by: usize)
        requires { (view self.old).count + by < 2 ^ 64 }
        ensures is { view self.new ≡ recount (view self.old) ((view self.old).count + by) }
        ensures quiet { Quiet self.old self.new }
    {
        self.count += by;
    }

    pub fn lower_count(&mut self, by: usize)
        requires { by ≤ (view self.old).count }
        ensures is { view self.new ≡ recount (view self.old) ((view self.old).count - by) }
        ensures quiet { Quiet self.old self.new }
    {
        self.count -= by;
    }
}

// How a row is drawn from the queue.
ghost use Rattle.std.specs.Prelude.{◌≡◌, if◌then◌else◌};
ghost use Rattle.model.specs.View.{unpack};
ghost use Rattle.walk.specs.View.{view, Quiet};
ghost use Rattle.walk.specs.Drawing.{DrewRow};

use crate::state::State;
use book::types::{Flags, Metadata};

// A row that was drawn, with what it had before.
#[derive(Clone, Copy, Debug, PartialEq, Eq)]
pub struct Drawn {
    pub row: usize,
    pub had: Metadata,
}

// 1 for a row that lacks COMMON, else 0.
pub fn uncommon(flags: Flags) -> usize
    ensures { result ≡ (if (unpack flags.bits).common then 0 else 1) }
{
    usize::from(!flags.intersects(Flags::COMMON))
}

impl State {
    // Draws a row, which becomes POPPED. With a count of zero the drawn entry is lost.
    pub fn draw(&mut self) -> Option<Drawn>
        ensures is { DrewRow (view self.old) result (view self.new) }
        ensures quiet { Quiet self.old self.new }
    {
        let row = self.dequeue()?;
        if self.is_spent() {
            return None;
        }
        let had = self.metadata(row);
        self.set_flags(row, Flags::POPPED);
        self.lower_count(uncommon(had.flags));
        Some(Drawn { row, had })
    }
}

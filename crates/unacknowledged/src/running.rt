// A run from a book's making, and what it comes to.
ghost use Rattle.std.specs.Prelude.{◌≡◌, ℕ, IfSome, vec_len};
ghost use Rattle.book.specs.Model.{model};
ghost use Rattle.model.specs.Book.{made as begun};
ghost use Rattle.model.specs.View.{rows_of};
ghost use Rattle.walk.specs.Made.{most_rows};
ghost use Rattle.unacknowledged.specs.Reports.{Reports, told, outcome_of};

use crate::judging::judge;
use crate::listing::{acknowledgements, haves, list};
use crate::{NoList, SwapList};
use book::book::Book;
use model::{Call, Event};
use negotiate::Negotiator;
use negotiate::recording::recorded;
use source::Source;
use std::alloc::Global;
use walk::state::making::Buffers;

// The list of a finished run.
pub fn conclude(heap: Global, events: &[Event], book: &Book) -> Result<SwapList, NoList>
    ensures { IfSome (told result) (λ o. o ≡ outcome_of events.now (rows_of (model book.now))) }
{
    judge(events)?;
    Ok(SwapList {
        commits: list(heap, events, book)?,
        rows: book.row_count(),
        haves: haves(events),
        acknowledgements: acknowledgements(events),
    })
}

// Makes a walk of the buffers, makes the calls in turn, and gives the run's list where it is finished.
pub fn run<N: Negotiator + Drop, S: Source>(
    heap: Global,
    buffers: Buffers,
    source: &S,
    calls: &[Call],
) -> Result<SwapList, NoList>
    ensures { IfSome (told result) (λ o. Reports N.Negotiator.ALGORITHM (S.Source.meaning source.now) (begun (most_rows (vec_len buffers.rows) (vec_len buffers.queue) (vec_len buffers.marking)) (vec_len buffers.links)) calls.now o) }
{
    let mut walk = N::new(buffers);
    let events = recorded(heap, &mut walk, source, calls)?;
    conclude(heap, events.as_slice(), walk.book())
}

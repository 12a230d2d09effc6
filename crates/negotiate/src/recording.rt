// Calls played in turn and kept, in memory for as many as there are.
ghost use Rattle.std.specs.Prelude.{IfOk};
ghost use Rattle.negotiate.specs.Records.{Recorded};

use crate::Negotiator;
use crate::play::make;
use model::{Call, Event};
use source::Source;
use std::alloc::{AllocError, Global};

// Makes the calls in turn, and keeps each with what it gave back. The allocator comes first here as in every call that
// may want memory: it is lent to the call, and is no part of what is asked.
pub fn recorded<N: Negotiator, S: Source>(
    heap: Global,
    walk: &mut N,
    source: &S,
    calls: &[Call],
) -> Result<Vec<Event>, AllocError>
    ensures { IfOk result (λ v. Recorded N.Negotiator.ALGORITHM (S.Source.meaning source.now) (N.Negotiator.walk walk.old) calls.now v.items (N.Negotiator.walk walk.new)) }
{
    // One block for all: a vector that grows by itself takes up to twice as much, and for a while three times.
    let mut events = Vec::with_capacity(heap, calls.len())?;
    for call in calls {
        let asked = *call;
        let gave = make(walk, source, asked);
        events.push(Event { asked, gave })?;
    }
    Ok(events)
}

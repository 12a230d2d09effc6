// A recorded walk played from a book's making to its last call.
#![tactic(auto)]

ghost use Rattle.std.specs.Prelude.{IfOk};
ghost use Rattle.session.specs.Sessions.{Whole};

use model::{Call, Event};
use negotiate::Negotiator;
use negotiate::recording::recorded;
use source::Source;
use std::alloc::{AllocError, Global};
use walk::state::making::Buffers;

pub mod transcript;

// The walk as the last call left it, and each call with what it gave back.
#[derive(Drop)]
pub struct Session<N> {
    pub walk: N,
    pub events: Vec<Event>,
}

// Plays the calls over a book of so many rows and links. The calls with their replies are a past of the walk, the
// replies are those of the rules, and the law holds of them.
#[tactic(auto, using(crate::proofs::Sessions::whole, crate::proofs::Sessions::begins))]
pub fn run<N: Negotiator + Drop, S: Source>(
    heap: Global,
    rows: usize,
    links: usize,
    source: &S,
    calls: &[Call],
) -> Result<Session<N>, AllocError>
    ensures { IfOk result (λ x. Whole N.Negotiator.ALGORITHM (S.Source.meaning source.now) rows links calls.now x.events.items (N.Negotiator.walk x.walk)) }
{
    let mut walk = N::new(Buffers::sized(heap, rows, links)?);
    let events = recorded(heap, &mut walk, source, calls)?;
    Ok(Session { walk, events })
}

#[cfg(test)]
mod tests {
    use super::*;
    use negotiate::noop::Noop;
    use source::ObjectId;
    use store::Store;

    #[test]
    fn each_call_is_kept(rt: HostRuntime) -> Result<(), AllocError> {
        let store = Store::new(b"");
        let calls = [Call::AddTip(ObjectId::NULL), Call::NextHave];
        let session = run::<Noop, Store>(rt.alloc(), 3, 5, &store, &calls)?;
        assert_eq!(rt; session.events.len(), 2);
        Ok(())
    }
}

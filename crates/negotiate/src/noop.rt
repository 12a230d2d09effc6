// The negotiator that offers nothing, which leads the remote to send all it has.
ghost use Rattle.model.specs.declared.Algorithm.TheVariants as algorithms;
ghost use Rattle.model.specs.Steady.{Fit};
ghost use Rattle.walk.specs.View.{view, numbered, places, mark_places};

use crate::Negotiator;
use book::book::Book;
use book::types::{Denial, Remark};
use model::Algorithm;
use source::{ObjectId, Source};
use walk::state::State;
use walk::state::making::Buffers;

// Only notes touch its state. A struct of its own, as each walk has: the steps of a generic one in another crate could be
// no methods.
#[derive(Drop)]
pub struct Noop {
    state: State,
    ghost fit: { ∥ Fit (view state) (numbered state) (places state) (mark_places state) ∥₁ },
}

impl Negotiator for Noop {
    const ALGORITHM: Algorithm = Algorithm::Noop;

    ghost ALGORITHM = { algorithms.Noop };

    ghost walk = { λ s. view s.state };

    fn new(buffers: Buffers) -> Noop {
        Noop {
            state: State::new(buffers),
        }
    }

    fn book(&self) -> &Book {
        self.state.book()
    }

    fn known_common<S: Source>(&mut self, _source: &S, _id: ObjectId) -> Result<(), Denial> {
        self.state.going()
    }

    fn add_tip<S: Source>(&mut self, _source: &S, _id: ObjectId) -> Result<(), Denial> {
        self.state.going()
    }

    fn next_have<S: Source>(&mut self, _source: &S) -> Result<Option<usize>, Denial> {
        self.state.going()?;
        Ok(None)
    }

    fn in_common_with_remote<S: Source>(
        &mut self,
        _source: &S,
        _id: ObjectId,
    ) -> Result<bool, Denial> {
        self.state.going()?;
        Ok(false)
    }

    fn note<S: Source>(&mut self, source: &S, id: ObjectId, remark: Remark) -> Result<(), Denial> {
        self.state.note(source, id, remark)
    }

    fn into_buffers(self) -> Buffers {
        self.state.into_buffers()
    }
}

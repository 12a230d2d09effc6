// The calls of the consecutive walk.
ghost use Rattle.model.specs.declared.Algorithm.TheVariants as algorithms;
ghost use Rattle.walk.specs.View.{view};

use crate::Algorithm;
use crate::marking::{Ancestors, Mark};
use book::book::Book;
use book::types::{Denial, Flags, Remark};
use negotiate::Negotiator;
use source::{ObjectId, Source};
use walk::state::State;
use walk::state::making::Buffers;

impl Negotiator for Algorithm {
    const ALGORITHM: model::Algorithm = model::Algorithm::Consecutive;

    ghost ALGORITHM = { algorithms.Consecutive };

    ghost walk = { λ a. view a.state };

    fn new(buffers: Buffers) -> Algorithm {
        Algorithm {
            state: State::new(buffers),
        }
    }

    fn book(&self) -> &Book {
        self.state.book()
    }

    fn known_common<S: Source>(&mut self, source: &S, id: ObjectId) -> Result<(), Denial> {
        self.state.going()?;
        if self.state.has_seen(id) {
            return Ok(());
        }
        self.push(source, id, Flags::COMMON_REF_AND_SEEN)?;
        self.mark_common(source, id, Mark::AncestorsOnly, Ancestors::DirectUnseen)
    }

    fn add_tip<S: Source>(&mut self, source: &S, id: ObjectId) -> Result<(), Denial> {
        self.state.going()?;
        self.push(source, id, Flags::SEEN)
    }

    fn next_have<S: Source>(&mut self, source: &S) -> Result<Option<usize>, Denial> {
        self.state.going()?;
        self.next(source)
    }

    fn in_common_with_remote<S: Source>(
        &mut self,
        source: &S,
        id: ObjectId,
    ) -> Result<bool, Denial> {
        self.state.going()?;
        let known = self.state.has_common(id);
        self.mark_common(
            source,
            id,
            Mark::ThisCommitAndAncestors,
            Ancestors::DirectUnseen,
        )?;
        Ok(known)
    }

    fn note<S: Source>(&mut self, source: &S, id: ObjectId, remark: Remark) -> Result<(), Denial> {
        self.state.note(source, id, remark)
    }

    fn into_buffers(self) -> Buffers {
        self.state.into_buffers()
    }
}

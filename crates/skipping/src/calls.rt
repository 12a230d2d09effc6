// The calls of the interface.
ghost use Rattle.std.specs.Prelude.{◌≡◌, if◌then◌else◌, Ok, Err};
ghost use Rattle.book.specs.declared.types.Denial.TheVariants.{NotSeen};
ghost use Rattle.model.specs.declared.Algorithm.TheVariants as algorithms;
ghost use Rattle.model.specs.Book.{find};
ghost use Rattle.model.specs.Steps.{sees, common_at};
ghost use Rattle.walk.specs.View.{view};

use crate::Algorithm;
use book::book::Book;
use book::types::{Denial, Flags, Remark};
use negotiate::Negotiator;
use source::{ObjectId, Source};
use walk::state::State;
use walk::state::making::Buffers;

impl Algorithm {
    // Whether a commit that the remote acknowledges is known to be common. One that was not seen was never offered.
    fn is_known(&self, id: ObjectId) -> Result<bool, Denial>
        ensures { result ≡ (if sees (view self.now.state) id then Ok (common_at (view self.now.state) (find id (view self.now.state).rows)) else Err NotSeen) }
    {
        if !self.state.has_seen(id) {
            return Err(Denial::NotSeen);
        }
        Ok(self.state.has_common(id))
    }
}

impl Negotiator for Algorithm {
    const ALGORITHM: model::Algorithm = model::Algorithm::Skipping;

    ghost ALGORITHM = { algorithms.Skipping };

    ghost walk = { λ a. view a.state };

    fn new(buffers: Buffers) -> Algorithm {
        Algorithm {
            state: State::new(buffers),
        }
    }

    fn book(&self) -> &Book {
        self.state.book()
    }

    fn known_common<S: Source>(&mut self, source: &S, id: ObjectId) -> Result<(), Denial> {
        self.state.going()?;
        self.add_unseen(source, id, Flags::ADVERTISED_AND_SEEN)
    }

    fn add_tip<S: Source>(&mut self, source: &S, id: ObjectId) -> Result<(), Denial> {
        self.state.going()?;
        self.add_unseen(source, id, Flags::SEEN)
    }

    fn next_have<S: Source>(&mut self, source: &S) -> Result<Option<usize>, Denial> {
        self.state.going()?;
        self.next(source)
    }

    fn in_common_with_remote<S: Source>(
        &mut self,
        source: &S,
        id: ObjectId,
    ) -> Result<bool, Denial> {
        self.state.going()?;
        let known = self.is_known(id)?;
        self.mark_common(source, id)?;
        Ok(known)
    }

    fn note<S: Source>(&mut self, source: &S, id: ObjectId, remark: Remark) -> Result<(), Denial> {
        self.state.note(source, id, remark)
    }

    fn into_buffers(self) -> Buffers {
        self.state.into_buffers()
    }
}

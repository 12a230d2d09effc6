// The negotiators' one interface, and what is said of it alone: names, windows, calls played in turn.
#![tactic(auto)]

ghost use Rattle.std.specs.Prelude.{◌≡◌, ℕ, vec_len};
ghost use Rattle.model.specs.Book.{Walk, made};
ghost use Rattle.model.specs.Laws.{Answers};
ghost use Rattle.model.specs.Parts.{haves, dones, tolds};
ghost use Rattle.model.specs.View.{rows_of};
ghost use Rattle.model.specs.declared.Algorithm.{Algorithm as Kind};
ghost use Rattle.model.specs.declared.Call.TheVariants.{KnownCommon, AddTip, NextHave, InCommonWithRemote, Note as Noting};
ghost use Rattle.book.specs.Model.{model};
ghost use Rattle.walk.specs.Made.{most_rows, Returned};

use book::book::Book;
use book::types::{Denial, Remark};
use model::Algorithm;
use source::{ObjectId, Source};
use walk::state::making::Buffers;

pub mod names;
pub mod noop;
pub mod play;
pub mod recording;
pub mod window;

// A way to pick the commits to offer to the remote as haves, with the book that it works on.
//
// A walk means its rows, links, count, stopped state and what waits in its queue. Each call's outcome is that of the
// rules' steps, the only one there is, and whatever past led to the call, the law holds of the past with it. A source is lent to
// each call beside the id, and is no part of the walk: the caller may read it between calls.
pub trait Negotiator {
    // Which rules the negotiator follows.
    const ALGORITHM: Algorithm;

    ghost ALGORITHM: { Kind };

    // The walk as the rules see it.
    ghost walk: { Self → Walk };

    // A walk that begins. The buffers are zeroed, whatever they held.
    fn new(buffers: Buffers) -> Self
        ensures { walk result ≡ made (most_rows (vec_len buffers.rows) (vec_len buffers.queue) (vec_len buffers.marking)) (vec_len buffers.links) };

    // The book, to be read.
    fn book(&self) -> &Book
        ensures { rows_of (model result.now) ≡ (walk self.now).rows };

    // Says that the remote is known to have a commit, as the tip of a remote tracking branch.
    fn known_common<S: Source>(&mut self, source: &S, id: ObjectId) -> Result<(), Denial>
        ensures { Answers ALGORITHM (S.Source.meaning source.now) (walk self.old) (KnownCommon id) (dones result) (walk self.new) };

    // Adds a starting point of the walk.
    fn add_tip<S: Source>(&mut self, source: &S, id: ObjectId) -> Result<(), Denial>
        ensures { Answers ALGORITHM (S.Source.meaning source.now) (walk self.old) (AddTip id) (dones result) (walk self.new) };

    // The row of the next commit to offer, or none.
    fn next_have<S: Source>(&mut self, source: &S) -> Result<Option<usize>, Denial>
        ensures { Answers ALGORITHM (S.Source.meaning source.now) (walk self.old) NextHave (haves result) (walk self.new) };

    // The remote acknowledges a commit; the answer is whether it was known to be common before.
    fn in_common_with_remote<S: Source>(&mut self, source: &S, id: ObjectId) -> Result<bool, Denial>
        ensures { Answers ALGORITHM (S.Source.meaning source.now) (walk self.old) (InCommonWithRemote id) (tolds result) (walk self.new) };

    // Sets COMPLETE or ALTERNATE at a commit, which the walk itself does not read.
    fn note<S: Source>(&mut self, source: &S, id: ObjectId, remark: Remark) -> Result<(), Denial>
        ensures { Answers ALGORITHM (S.Source.meaning source.now) (walk self.old) (Noting id remark) (dones result) (walk self.new) };

    // The buffers that the walk was made of. One made of them anew has room for as many rows and links.
    fn into_buffers(self) -> Buffers
        ensures { Returned (walk self) result };
}

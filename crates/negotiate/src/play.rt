// Calls played in turn, under any negotiator and over any source.
ghost use Rattle.std.specs.Prelude.{◌≡◌, ℕ, min, length, take, drop};
ghost use Rattle.model.specs.Laws.{Answers};
ghost use Rattle.negotiate.specs.Runs.{Played};

use crate::Negotiator;
use model::{Call, Reply};
use source::Source;

// Makes one call.
pub fn make<N: Negotiator, S: Source>(walk: &mut N, source: &S, call: Call) -> Reply
    ensures { Answers N.Negotiator.ALGORITHM (S.Source.meaning source.now) (N.Negotiator.walk walk.old) call result (N.Negotiator.walk walk.new) }
{
    match call {
        Call::KnownCommon(id) => walk.known_common(source, id).into(),
        Call::AddTip(id) => walk.add_tip(source, id).into(),
        Call::NextHave => walk.next_have(source).into(),
        Call::InCommonWithRemote(id) => walk.in_common_with_remote(source, id).into(),
        Call::Note(id, remark) => walk.note(source, id, remark).into(),
    }
}

// Makes the calls in turn, as many as there are places for the replies, and says how many. The caller lends the places,
// since a call may not allocate.
pub fn play<N: Negotiator, S: Source>(
    walk: &mut N,
    source: &S,
    calls: &[Call],
    replies: &mut [Reply],
) -> usize
    ensures count { result ≡ min (length calls.now) (length replies.old) }
    ensures played { Played N.Negotiator.ALGORITHM (S.Source.meaning source.now) (N.Negotiator.walk walk.old) (take result calls.now) (take result replies.new) (N.Negotiator.walk walk.new) }
    ensures rest { drop result replies.new ≡ drop result replies.old }
{
    // By index, since a proof knows nothing of the elements that an adapter of `iter_mut` lent.
    let count = calls.len().min(replies.len());
    for i in 0..count {
        replies[i] = make(walk, source, calls[i]);
    }
    count
}

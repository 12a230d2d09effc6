// A source that says the same of every id but those that begin with 0, which it lacks.
ghost use Rattle.std.specs.Prelude.{◌≡◌};
ghost use Rattle.std.specs.Option.{option_and_then};
ghost use Rattle.std.specs.Result.{result_ok};
ghost use Rattle.booktests.specs.Twigs.{says_of, told_by};

use source::{Fault, Kind, ObjectId, Source};

// A commit with `count` times the same parent.
#[derive(Clone, Copy, Debug, PartialEq, Eq)]
pub struct Commit {
    pub date: i64,
    pub count: usize,
    pub parent: ObjectId,
}

// What is said of each id that the source has.
#[derive(Clone, Copy, Debug, PartialEq, Eq)]
pub struct Twig {
    pub says: Result<Commit, Fault>,
}

impl Twig {
    // What is said of an id, where the source has it.
    fn told(&self, id: ObjectId) -> Option<Result<Commit, Fault>>
        ensures { result ≡ told_by self.now id }
    {
        (id.bytes[0] != 0).then_some(self.says)
    }

    // The commit of an id, where it has one.
    fn commit(&self, id: ObjectId) -> Option<Commit>
        ensures { result ≡ option_and_then result_ok (told_by self.now id) }
    {
        self.told(id)?.ok()
    }
}

impl Source for Twig {
    ghost meaning = { λ s i. says_of s i };

    ghost layers = { λ s. 1 };

    fn kind(&self, id: ObjectId) -> Kind {
        match self.told(id) {
            None => Kind::Absent,
            Some(Err(_)) => Kind::Failing,
            Some(Ok(_)) => Kind::Commit,
        }
    }

    fn fault(&self, id: ObjectId) -> Option<Fault> {
        self.told(id)?.err()
    }

    fn date(&self, id: ObjectId) -> Option<i64> {
        Some(self.commit(id)?.date)
    }

    fn parent_count(&self, id: ObjectId) -> Option<usize> {
        Some(self.commit(id)?.count)
    }

    fn parent(&self, id: ObjectId, n: usize) -> Option<ObjectId> {
        let commit = self.commit(id)?;
        (n < commit.count).then_some(commit.parent)
    }

    fn depth(&self) -> u8 {
        1
    }
}

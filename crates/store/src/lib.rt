// A store: ids and commit texts in one buffer.
#![tactic(auto)]

ghost use Rattle.std.specs.Prelude.{◌≡◌};
ghost use Rattle.source.specs.Meaning.{kind_of, fault_of, date_of, count_of, parent_of};
ghost use Rattle.store.specs.Stores.{store_of, found_as, held_as, meant};

use commit::Commit;
use fields::Misfit;
use source::{Cause, Fault, Kind, ObjectId, Source};

// The commit where a search of a store has found its pair, if it has found one.
fn commit_at<'a>(
    store: &'a [u8],
    found: Result<Option<usize>, Misfit>,
) -> Result<Option<Commit<'a>>, Fault>
    ensures { held_as result ≡ found_as store.now found }
{
    let Some(place) = found? else {
        return Ok(None);
    };
    let pair = fields::pair_at(store, place)?;
    match commit::read(pair.text) {
        Ok(commit) => Ok(Some(commit)),
        Err(misfit) => {
            let place = pair.place + misfit.line;
            let cause = Cause::Layout;
            Err(Misfit::new(cause, place).into())
        }
    }
}

// What a store has of an id: nothing, a commit with the lines of its parents, or a fault.
#[derive(Clone, Copy, Debug)]
pub struct Held<'a>(pub Result<Option<Commit<'a>>, Fault>);

impl<'a> Held<'a> {
    // What is held where a search of a store has found it.
    pub fn of(store: &'a [u8], found: Result<Option<usize>, Misfit>) -> Held<'a>
        ensures { meant result ≡ found_as store.now found }
    {
        Held(commit_at(store, found))
    }

    // Which of the three it is.
    pub fn kind(self) -> Kind
        ensures { result ≡ kind_of (meant self.entry) }
    {
        match self.0 {
            Ok(None) => Kind::Absent,
            Ok(Some(_)) => Kind::Commit,
            Err(_) => Kind::Failing,
        }
    }

    // The fault, if it fails.
    pub fn fault(self) -> Option<Fault>
        ensures { result ≡ fault_of (meant self.entry) }
    {
        self.0.err()
    }

    // The date, if it is a commit.
    pub fn date(self) -> Option<i64>
        ensures { result ≡ date_of (meant self.entry) }
    {
        let commit = self.0.ok()??;
        Some(commit.date)
    }

    // How many parents it has, if it is a commit.
    pub fn parent_count(self) -> Option<usize>
        ensures { result ≡ count_of (meant self.entry) }
    {
        let commit = self.0.ok()??;
        Some(commit.count())
    }

    // A parent by its number, if it is a commit with so many.
    pub fn parent(self, n: usize) -> Option<ObjectId>
        ensures { result ≡ parent_of (meant self.entry) n }
    {
        let commit = self.0.ok()??;
        commit.parent(n)
    }
}

// The plain store, which is read from its front at each question: its meaning is that of its bytes.
#[derive(Clone, Copy, Debug)]
pub struct Store<'a> {
    bytes: &'a [u8],
}

impl<'a> Store<'a> {
    // The store in a buffer. Any bytes will do: what is wrong with them shows when an id is asked for.
    pub fn new(bytes: &'a [u8]) -> Store<'a>
        ensures { result.bytes.now ≡ bytes.now }
    {
        Store { bytes }
    }

    // What the store has of an id.
    fn held(&self, id: ObjectId) -> Held<'a>
        ensures { meant result ≡ store_of self.now.bytes.now id }
    {
        Held::of(self.bytes, fields::find(self.bytes, id))
    }
}

impl Source for Store<'_> {
    ghost meaning = { λ s id. store_of s.bytes.now id };

    ghost layers = { λ _. 1 };

    fn kind(&self, id: ObjectId) -> Kind {
        self.held(id).kind()
    }

    fn fault(&self, id: ObjectId) -> Option<Fault> {
        self.held(id).fault()
    }

    fn date(&self, id: ObjectId) -> Option<i64> {
        self.held(id).date()
    }

    fn parent_count(&self, id: ObjectId) -> Option<usize> {
        self.held(id).parent_count()
    }

    fn parent(&self, id: ObjectId, n: usize) -> Option<ObjectId> {
        self.held(id).parent(n)
    }

    fn depth(&self) -> u8 {
        1
    }
}

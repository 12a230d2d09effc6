// A store with an index: opened in one pass, then a question costs one search of the index and one text.
#![tactic(auto)]

ghost use Rattle.std.specs.Prelude.{◌≡◌, length};
ghost use Rattle.std.specs.BTreeMap.{get as place_in, IsOrdered, keys};
ghost use Rattle.std.proofs.lemmas.Map.Keys.{IsStrictlySortedBy-prop};
ghost use Rattle.source.specs.declared.ObjectId.{ObjectId as Id};
ghost use Rattle.fields.specs.Pairs.{scan};
ghost use Rattle.store.specs.Stores.{store_of};
ghost use Rattle.indexed.specs.Places.{by_bytes, known};

use fields::Misfit;
use source::{Fault, Kind, ObjectId, Source};
use std::collections::BTreeMap;

mod opening;

// A store with the place of each id's first pair, and with what any other id is: absent, or failing where the store
// misfits. It means what the plain store of its bytes means.
#[derive(Drop)]
pub struct Indexed<'a> {
    bytes: &'a [u8],
    rest: Result<(), Misfit>,
    map: BTreeMap<ObjectId, usize>,
    ghost lawful: { IsOrdered by_bytes map } by { IsStrictlySortedBy-prop by_bytes (keys map) },
    ghost agrees: { (q : Id) → known (place_in by_bytes map q) rest ≡ scan (length bytes.now) q.bytes bytes.now 0 },
}

// The plain store has these six methods too. A wrapper generic in the search, with its bound and its laws, would be no
// shorter, and Rust takes no impl of another crate's trait for every type that looks ids up.
impl Source for Indexed<'_> {
    ghost meaning = { λ s id. store_of s.bytes.now id };

    ghost layers = { λ _. 1 };

    fn kind(&self, id: ObjectId) -> Kind {
        self.held(id).kind()
    }

    fn fault(&self, id: ObjectId) -> Option<Fault> {
        self.held(id).fault()
    }

    fn date(&self, id: ObjectId) -> Option<i64> {
        self.held(id).date()
    }

    fn parent_count(&self, id: ObjectId) -> Option<usize> {
        self.held(id).parent_count()
    }

    fn parent(&self, id: ObjectId, n: usize) -> Option<ObjectId> {
        self.held(id).parent(n)
    }

    fn depth(&self) -> u8 {
        1
    }
}

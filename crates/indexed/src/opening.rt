// How an index is made, and searched.
ghost use Rattle.std.specs.Prelude.{◌≡◌, cond, length, Some, unwrap_or, IfOk, OnOk};
ghost use Rattle.std.specs.BTreeMap.{get as place_in, IsOrdered, is_at};
ghost use Rattle.source.specs.declared.ObjectId.{ObjectId as Id};
ghost use Rattle.fields.specs.Pairs.{scan};
ghost use Rattle.store.specs.Stores.{store_of, meant};
ghost use Rattle.indexed.specs.Places.{by_bytes, known};

use crate::Indexed;
use fields::{Misfit, Pairs};
use source::ObjectId;
use std::alloc::{AllocError, Global};
use std::collections::BTreeMap;
use store::Held;

// The places of the first pairs, and what an id without one is.
type Places = (BTreeMap<ObjectId, usize>, Result<(), Misfit>);

// Notes a pair under its id, unless an earlier one stands there.
fn note(map: &mut BTreeMap<ObjectId, usize>, id: ObjectId, place: usize) -> Result<(), AllocError>
    requires { IsOrdered by_bytes map.old }
    ensures lawful { IsOrdered by_bytes map.new }
    ensures after { OnOk result ((q : Id) → place_in by_bytes map.new q ≡ cond (is_at (by_bytes id) q) (Some (unwrap_or (place_in by_bytes map.old id) place)) (place_in by_bytes map.old q)) }
{
    map.entry(id)?.or_insert(place);
    Ok(())
}

// Goes through the pairs of a store, to its end or to the first misfit.
fn places(heap: Global, store: &[u8]) -> Result<Places, AllocError>
    ensures { IfOk result (λ x. IsOrdered by_bytes x.0 × ((q : Id) → known (place_in by_bytes x.0 q) x.1 ≡ scan (length store.now) q.bytes store.now 0)) }
{
    let mut map = BTreeMap::new(heap);
    for pair in Pairs::of(store) {
        match pair {
            Ok((place, pair)) => note(&mut map, pair.id, place)?,
            Err(misfit) => return Ok((map, Err(misfit))),
        }
    }
    Ok((map, Ok(())))
}

impl<'a> Indexed<'a> {
    // Goes through a store once, and fails only for want of memory.
    pub fn open(heap: Global, bytes: &'a [u8]) -> Result<Indexed<'a>, AllocError>
        ensures { IfOk result (λ x. x.bytes.now ≡ bytes.now) }
    {
        let (map, rest) = places(heap, bytes)?;
        Ok(Indexed { bytes, rest, map })
    }

    // What the store has of an id.
    fn find(&self, id: ObjectId) -> Result<Option<usize>, Misfit>
        ensures { result ≡ scan (length self.now.bytes.now) id.bytes self.now.bytes.now 0 }
    {
        match self.map.get(&id) {
            Some(place) => Ok(Some(*place)),
            None => self.rest.map(|()| None),
        }
    }

    // The same, with its text read.
    pub(crate) fn held(&self, id: ObjectId) -> Held<'a>
        ensures { meant result ≡ store_of self.now.bytes.now id }
    {
        Held::of(self.bytes, self.find(id))
    }
}

// Fields of a buffer, and the pairs of an id and a text that they make up.
#![tactic(auto)]

ghost use Rattle.std.specs.Prelude.{◌≡◌, ℕ, ◌+◌, ◌-◌, ◌^◌, ◌<◌, ◌≤◌, length, drop, MatchResult};
ghost use Rattle.std.specs.Iterator.{at_most};
ghost use Rattle.fields.specs.Fields.{long, Field as IsField};
ghost use Rattle.fields.specs.Laws.{Finds};
ghost use Rattle.fields.specs.Steps.{GivesField, GivesPair};
ghost use Rattle.fields.specs.Pairs.{paired, misfit, text_of, pair_of, pair_at, Within, scan};

pub mod tail;
pub mod writing;

use source::{Cause, Fault, ObjectId};
use tail::Tail;

// The tag of a field that holds an id. A field may have any byte as its tag, so the tags are numbers.
const ID: u8 = 1;

// The tag of a field that holds the text of the id before it.
const TEXT: u8 = 2;

// The first field of a tail: its place, its tag, its bytes and what follows.
#[derive(Clone, Copy, Debug)]
pub struct Field<'a> {
    pub at: usize,
    pub tag: u8,
    pub body: &'a [u8],
    pub rest: Tail<'a>,
}

// What is wrong with a buffer, and where.
#[derive(Clone, Copy, Debug, PartialEq, Eq)]
pub struct Misfit {
    pub cause: Cause,
    pub place: usize,
}

impl Misfit {
    pub fn new(cause: Cause, place: usize) -> Misfit
        ensures { result ≡ record { cause = cause; place = place } }
    {
        Misfit { cause, place }
    }
}

// A misfit of a store's bytes is a fault of the one layer that a store is.
impl From<Misfit> for Fault {
    ghost from_gives = { λ misfit fault. fault ≡ record { cause = misfit.cause; place = misfit.place; layer = 1 } };

    fn from(misfit: Misfit) -> Fault {
        Fault {
            cause: misfit.cause,
            place: misfit.place,
            layer: 1,
        }
    }
}

// An id with its text, the text's place and the place behind the pair.
#[derive(Clone, Copy, Debug)]
pub struct Pair<'a> {
    pub id: ObjectId,
    pub text: &'a [u8],
    pub place: usize,
    pub next: usize,
}

// The first field; or a misfit where it runs past the end.
pub fn first_field<'a>(tail: Tail<'a>) -> Result<Field<'a>, Misfit>
    ensures { MatchResult result
        (λ f. (f.at ≡ tail.entry.at) × (f.rest.at ≡ f.at + (3 + length f.body.now)) × IsField tail.entry.bytes.now f.tag f.body.now f.rest.bytes.now)
        (λ m. (result ≡ misfit Cause.PastEnd tail.entry.at) × (length tail.entry.bytes.now < 3 + long tail.entry.bytes.now)) }
{
    let at = tail.at;
    let [tag, hi, lo, left @ ..] = tail.bytes else {
        return Err(Misfit::new(Cause::PastEnd, at));
    };
    let len = usize::from(u16::from_be_bytes([*hi, *lo]));
    let Some((body, bytes)) = left.split_at_checked(len) else {
        return Err(Misfit::new(Cause::PastEnd, at));
    };
    Ok(Field {
        at,
        tag: *tag,
        body,
        rest: Tail {
            bytes,
            at: at + 3 + len,
        },
    })
}

// The text's field, behind the field of its id at `before`.
fn text_pair<'a>(id: ObjectId, before: usize, tail: Tail<'a>) -> Result<Pair<'a>, Misfit>
    ensures pair { paired result ≡ text_of id.bytes tail.entry.bytes.now before tail.entry.at }
    ensures within { Within tail.entry.at (tail.entry.at + length tail.entry.bytes.now) result }
{
    if tail.bytes.is_empty() {
        return Err(Misfit::new(Cause::Misplaced, before));
    }
    let field = first_field(tail)?;
    if field.tag != TEXT {
        return Err(Misfit::new(Cause::Misplaced, field.at));
    }
    Ok(Pair {
        id,
        text: field.body,
        place: field.at + 3,
        next: field.rest.at,
    })
}

// The pair at the front of a tail.
fn first_pair<'a>(tail: Tail<'a>) -> Result<Pair<'a>, Misfit>
    ensures pair { paired result ≡ pair_of tail.entry.bytes.now tail.entry.at }
    ensures within { Within tail.entry.at (tail.entry.at + length tail.entry.bytes.now) result }
{
    let field = first_field(tail)?;
    match ObjectId::try_from(field.body) {
        Ok(id) if field.tag == ID => text_pair(id, field.at, field.rest),
        _ => Err(Misfit::new(Cause::Misplaced, field.at)),
    }
}

// The pair that begins at a place of a store.
pub fn pair_at<'a>(store: &'a [u8], at: usize) -> Result<Pair<'a>, Misfit>
    ensures pair { paired result ≡ pair_at store.now at }
    ensures within { Within at (length store.now) result }
{
    first_pair(Tail::of(store, at))
}

// The fields of a tail, from its front to the first that runs past the end.
#[derive(Debug, Drop)]
pub struct Fields<'a> {
    rest: Tail<'a>,
}

impl<'a> Fields<'a> {
    pub fn of(rest: Tail<'a>) -> Fields<'a>
        ensures { result.rest ≡ rest.entry }
    {
        Fields { rest }
    }
}

impl<'a> Iterator for Fields<'a> {
    type Item = Result<Field<'a>, Misfit>;

    ghost next_gives = { GivesField };

    ghost remaining = { λ s. at_most (length s.rest.bytes.now) };

    fn next(&mut self) -> Option<Result<Field<'a>, Misfit>> {
        if self.rest.bytes.is_empty() {
            return None;
        }
        match first_field(self.rest) {
            Ok(field) => {
                self.rest = field.rest;
                Some(Ok(field))
            }
            Err(misfit) => {
                self.rest = Tail {
                    bytes: &[],
                    at: misfit.place,
                };
                Some(Err(misfit))
            }
        }
    }
}

// The pairs of a store with their places, from the front to the first misfit.
#[derive(Debug, Drop)]
pub struct Pairs<'a> {
    store: &'a [u8],
    at: usize,
}

impl<'a> Pairs<'a> {
    pub fn of(store: &'a [u8]) -> Pairs<'a>
        ensures store { result.store.now ≡ store.now }
        ensures at { result.at ≡ 0 }
    {
        Pairs { store, at: 0 }
    }
}

impl<'a> Iterator for Pairs<'a> {
    type Item = Result<(usize, Pair<'a>), Misfit>;

    ghost next_gives = { GivesPair };

    ghost remaining = { λ s. at_most (length s.store.now - s.at) };

    fn next(&mut self) -> Option<Result<(usize, Pair<'a>), Misfit>> {
        let at = self.at;
        if at >= self.store.len() {
            return None;
        }
        match pair_at(self.store, at) {
            Ok(pair) => {
                self.at = pair.next;
                Some(Ok((at, pair)))
            }
            Err(misfit) => {
                self.at = self.store.len();
                Some(Err(misfit))
            }
        }
    }
}

// The place of the first pair with the id, if there is one; or the first misfit before it.
pub fn find(store: &[u8], id: ObjectId) -> Result<Option<usize>, Misfit>
    ensures value { result ≡ scan (length store.now) id.bytes store.now 0 }
    ensures finds { Finds store.now id.bytes result }
{
    for pair in Pairs::of(store) {
        let (at, pair) = pair?;
        if pair.id == id {
            return Ok(Some(at));
        }
    }
    Ok(None)
}

#[cfg(test)]
mod tests {
    use super::*;
    use std::test::Fail;
    use writing::{Unwritten, push_field, push_pair};

    #[test]
    fn what_is_written_is_found(rt: HostRuntime) -> Result<(), Fail> {
        let mut store = Vec::new(rt.alloc());
        let mut other = ObjectId::NULL;
        other.bytes[0] = 1;
        push_pair(&mut store, ObjectId::NULL, b"one")?;
        push_pair(&mut store, other, b"")?;
        let bytes = store.as_slice();
        assert_eq!(rt; bytes.len(), 55);
        assert_eq!(rt; find(bytes, ObjectId::NULL), Ok(Some(0)));
        assert_eq!(rt; find(bytes, other), Ok(Some(29)));
        assert_eq!(rt; Pairs::of(bytes).count(), 2);
        Ok(())
    }

    #[test]
    fn fields_end_at_the_first_that_is_cut_short(rt: HostRuntime) -> Result<(), Fail> {
        let mut store = Vec::new(rt.alloc());
        push_field(&mut store, 9, b"abc")?;
        store.push(9)?;
        assert_eq!(rt; store.as_slice(), b"\x09\x00\x03abc\x09".as_slice());
        let mut places = [7; 2];
        for field in Fields::of(Tail::of(store.as_slice(), 0)) {
            match field {
                Ok(field) => places[0] = field.at,
                Err(misfit) => places[1] = misfit.place,
            }
        }
        assert_eq!(rt; places, [0, 6]);
        Ok(())
    }

    #[test]
    fn a_field_has_at_most_65_535_bytes(rt: HostRuntime) -> Result<(), Fail> {
        let mut store = Vec::new(rt.alloc());
        let bytes = vec![in rt.alloc(); 5u8; 65_536]?;
        assert_eq!(rt;
            push_field(&mut store, 1, bytes.as_slice()),
            Err(Unwritten::TooLong)
        );
        push_field(&mut store, 1, &bytes.as_slice()[1..])?;
        assert_eq!(rt; store.len(), 65_538);
        Ok(())
    }
}

// What a recorded walk holds: a store, a negotiator and calls, one field after another.
#![tactic(auto)]

ghost use Rattle.std.specs.Prelude.{◌≡◌, ℕ, ◌+◌, length, IfOk, MatchResult, Some, None};
ghost use Rattle.input.specs.Inputs.{tag_of, tagged, algorithm_of, call_of, misfit_from, refused, calls_of, numbered, parsed, parsed_within, heard};

use book::types::Remark;
use fields::tail::Tail;
use fields::{Field, Fields};
use model::{Algorithm, Call};
use source::ObjectId;
use std::alloc::{AllocError, Global};

// The most bytes of an input.
const MOST_BYTES: usize = 65_536;

// What a field holds, by its tag: which negotiator, or a call.
#[derive(Clone, Copy, Debug, PartialEq, Eq)]
enum Tag {
    Negotiator = 16,
    KnownCommon = 17,
    Tip = 18,
    Next = 19,
    Acknowledgement = 20,
    Complete = 21,
}

// A number that is no tag.
#[derive(Clone, Copy, Debug)]
struct UnknownTag;

impl TryFrom<u8> for Tag {
    type Error = UnknownTag;

    ghost try_from_gives = { λ number res. MatchResult res (λ tag. tagged number ≡ Some tag) (λ _. tagged number ≡ None) };

    fn try_from(number: u8) -> Result<Tag, UnknownTag> {
        match number {
            16 => Ok(Tag::Negotiator),
            17 => Ok(Tag::KnownCommon),
            18 => Ok(Tag::Tip),
            19 => Ok(Tag::Next),
            20 => Ok(Tag::Acknowledgement),
            21 => Ok(Tag::Complete),
            _ => Err(UnknownTag),
        }
    }
}

// An input taken apart: the store, the negotiator, and the fields of the calls.
#[derive(Clone, Copy)]
pub struct Walk<'a> {
    pub store: &'a [u8],
    pub algorithm: Algorithm,
    pub calls: &'a [u8],
}

// The place of the first field that misfits: an error of its own, since no cause is told, and no commit's line is meant.
#[derive(Clone, Copy, Debug, PartialEq, Eq)]
pub struct Misfit {
    pub place: usize,
}

impl From<fields::Misfit> for Misfit {
    ghost from_gives = { λ m r. r ≡ record { place = m.place } };

    fn from(misfit: fields::Misfit) -> Misfit {
        Misfit {
            place: misfit.place,
        }
    }
}

// The tag of a call.
pub fn tag_of(call: Call) -> u8
    ensures { result ≡ tag_of call }
{
    let tag = match call {
        Call::KnownCommon(_) => Tag::KnownCommon,
        Call::AddTip(_) => Tag::Tip,
        Call::NextHave => Tag::Next,
        Call::InCommonWithRemote(_) => Tag::Acknowledgement,
        Call::Note(_, _) => Tag::Complete,
    };
    tag as u8
}

// The call that a field holds.
fn call_of(field: Field<'_>) -> Option<Call>
    ensures { result ≡ call_of field.entry.tag field.entry.body.now }
{
    let tag = Tag::try_from(field.tag).ok()?;
    if tag == Tag::Next {
        return field.body.is_empty().then_some(Call::NextHave);
    }
    let id = ObjectId::try_from(field.body).ok()?;
    match tag {
        Tag::KnownCommon => Some(Call::KnownCommon(id)),
        Tag::Tip => Some(Call::AddTip(id)),
        Tag::Acknowledgement => Some(Call::InCommonWithRemote(id)),
        Tag::Complete => Some(Call::Note(id, Remark::Complete)),
        Tag::Negotiator | Tag::Next => None,
    }
}

// The negotiator that a body names by its number.
fn algorithm_of(body: &[u8]) -> Option<Algorithm>
    ensures { result ≡ algorithm_of body.now }
{
    match body {
        [number] => Algorithm::try_from(*number).ok(),
        _ => None,
    }
}

// Refuses the first call that misfits.
fn check(calls: Tail<'_>) -> Result<(), Misfit>
    ensures { result ≡ refused (misfit_from (length calls.entry.bytes.now) calls.entry.bytes.now calls.entry.at) }
{
    for field in Fields::of(calls) {
        let field = field?;
        if call_of(field).is_none() {
            return Err(Misfit { place: field.at });
        }
    }
    Ok(())
}

// The walk behind a store, from the negotiator's field on.
fn walk_from<'a>(store: &'a [u8], negotiator: Field<'a>) -> Result<Walk<'a>, Misfit>
    requires { negotiator.rest.at ≡ negotiator.at + (3 + length negotiator.body.now) }
    ensures { heard result ≡ numbered store.now negotiator.entry.body.now negotiator.entry.rest.bytes.now negotiator.entry.at }
{
    let Some(algorithm) = algorithm_of(negotiator.body) else {
        return Err(Misfit {
            place: negotiator.at,
        });
    };
    check(negotiator.rest)?;
    Ok(Walk {
        store,
        algorithm,
        calls: negotiator.rest.bytes,
    })
}

// An input taken apart.
pub fn read<'a>(bytes: &'a [u8]) -> Result<Walk<'a>, Misfit>
    ensures { heard result ≡ parsed bytes.now }
{
    read_within(bytes, MOST_BYTES)
}

// The same of an input that may have `most` bytes.
pub fn read_within<'a>(bytes: &'a [u8], most: usize) -> Result<Walk<'a>, Misfit>
    ensures { heard result ≡ parsed_within most bytes.now }
{
    if bytes.len() > most {
        return Err(Misfit { place: most });
    }
    for field in Fields::of(Tail::of(bytes, 0)) {
        let field = field?;
        if field.tag == Tag::Negotiator as u8 {
            return walk_from(&bytes[..field.at], field);
        }
    }
    Err(Misfit { place: bytes.len() })
}

// The calls that the fields hold, up to the first that misfits.
pub fn calls(heap: Global, fields: &[u8]) -> Result<Vec<Call>, AllocError>
    ensures { IfOk result (λ v. v.items ≡ calls_of fields.now) }
{
    let mut calls = Vec::new(heap);
    for field in Fields::of(Tail::of(fields, 0)) {
        let Ok(field) = field else {
            break;
        };
        let Some(call) = call_of(field) else {
            break;
        };
        calls.push(call)?;
    }
    Ok(calls)
}

#[cfg(test)]
mod tests {
    use super::*;
    use std::test::Fail;

    #[test]
    fn a_walk_is_taken_apart(rt: HostRuntime) -> Result<(), Fail> {
        let walk = read(b"\x01\x00\x00\x10\x00\x01\x01\x13\x00\x00")
            .ok()
            .ok_or("a walk")?;
        assert_eq!(rt; walk.store, b"\x01\x00\x00".as_slice());
        assert_eq!(rt; walk.algorithm, Algorithm::Consecutive);
        assert_eq!(rt; calls(rt.alloc(), walk.calls)?.len(), 1);
        assert_eq!(rt; read(b"\x10\x00\x01\x03").err(), Some(Misfit { place: 0 }));
        Ok(())
    }
}

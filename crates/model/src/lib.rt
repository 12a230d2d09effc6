// The walk's rules as relations between states, and the laws that hold of every past.
#![tactic(auto)]

ghost use Rattle.std.specs.Prelude.{◌≡◌};
ghost use Rattle.model.specs.Laws.{EveryPastLawful, EveryCallPops, EveryCallFixed};
ghost use Rattle.model.specs.Walks.{WalkChain, WalkWaits, WalkLost, WalkKnown, WalkMerge, WalkFull, WalkNear, WalkNearTold};
ghost use Rattle.model.specs.Walks.{WalkLostTold, WalkDates, WalkSkips, WalkSkipTold, WalkPins, WalkEdge, WalkNoop};
ghost use Rattle.model.specs.Numbers.{number_of, numbered, Named};
ghost use Rattle.model.specs.Parts.{dones, haves, tolds};

use book::types::{Denial, Remark};
use source::ObjectId;
use std::str::FromStr;

// One of the five calls of a walk.
#[derive(Clone, Copy, Debug, PartialEq, Eq)]
pub enum Call {
    KnownCommon(ObjectId),
    AddTip(ObjectId),
    NextHave,
    InCommonWithRemote(ObjectId),
    Note(ObjectId, Remark),
}

// What a call gives back: done, a row to offer as a have, no have left, whether the commit was known to be common
// before, or a denial. Flat, and no Result of an answer, so that each rule names what it gives by one word.
#[derive(Clone, Copy, Debug, PartialEq, Eq)]
pub enum Reply {
    Done,
    Have(usize),
    NoneLeft,
    Told(bool),
    Denied(Denial),
}

impl From<Result<(), Denial>> for Reply {
    ghost from_gives = { λ res reply. reply ≡ dones res };

    fn from(res: Result<(), Denial>) -> Reply {
        match res {
            Ok(()) => Reply::Done,
            Err(denial) => Reply::Denied(denial),
        }
    }
}

impl From<Result<Option<usize>, Denial>> for Reply {
    ghost from_gives = { λ res reply. reply ≡ haves res };

    fn from(res: Result<Option<usize>, Denial>) -> Reply {
        match res {
            Ok(Some(row)) => Reply::Have(row),
            Ok(None) => Reply::NoneLeft,
            Err(denial) => Reply::Denied(denial),
        }
    }
}

impl From<Result<bool, Denial>> for Reply {
    ghost from_gives = { λ res reply. reply ≡ tolds res };

    fn from(res: Result<bool, Denial>) -> Reply {
        match res {
            Ok(known) => Reply::Told(known),
            Err(denial) => Reply::Denied(denial),
        }
    }
}

// A call with what it gave back.
#[derive(Clone, Copy, Debug, PartialEq, Eq)]
pub struct Event {
    pub asked: Call,
    pub gave: Reply,
}

// The way the negotiation is performed. A walk's number in the program's input and output is its discriminant.
#[derive(Clone, Copy, Debug, PartialEq, Eq)]
pub enum Algorithm {
    Noop = 0,
    Consecutive = 1,
    Skipping = 2,
}

impl From<Algorithm> for u8 {
    ghost from_gives = { λ algorithm number. number ≡ number_of algorithm };

    fn from(algorithm: Algorithm) -> u8 {
        algorithm as u8
    }
}

// A number that is no algorithm's.
#[derive(Clone, Copy, Debug, PartialEq, Eq)]
pub struct UnknownNumber(pub u8);

impl TryFrom<u8> for Algorithm {
    type Error = UnknownNumber;

    ghost try_from_gives = { λ number res. res ≡ numbered number };

    fn try_from(number: u8) -> Result<Algorithm, UnknownNumber> {
        match number {
            0 => Ok(Algorithm::Noop),
            1 => Ok(Algorithm::Consecutive),
            2 => Ok(Algorithm::Skipping),
            _ => Err(UnknownNumber(number)),
        }
    }
}

// Reads a negotiator's name exactly as written; `default` is consecutive.
impl FromStr for Algorithm {
    type Err = Denial;

    ghost from_str_gives = { Named };

    fn from_str(name: &str) -> Result<Algorithm, Denial> {
        match name {
            "noop" => Ok(Algorithm::Noop),
            "consecutive" => Ok(Algorithm::Consecutive),
            "skipping" => Ok(Algorithm::Skipping),
            "default" => Ok(Algorithm::Consecutive),
            _ => Err(Denial::UnknownName),
        }
    }
}

// A row in the marking queue, with its generation.
#[derive(Clone, Copy, Debug, Default, PartialEq, Eq)]
pub struct Step {
    pub row: usize,
    pub generation: usize,
}

// A row that was drawn: whether it is answered, and whether it passes on COMMON beside SEEN. Two flags with names, since an
// enum of the three cases that occur would be taken apart into them again.
#[derive(Clone, Copy, Debug, PartialEq, Eq)]
pub struct Turn {
    pub row: usize,
    pub answered: bool,
    pub both: bool,
}

// The laws of every negotiator stand: of every past, of every call, and that an outcome is fixed.
pub fn laws_stand()
    ensures lawful { EveryPastLawful }
    ensures popping { EveryCallPops }
    ensures fixed { EveryCallFixed }
{}

// The worked walks go as told.
pub fn walks_stand()
    ensures chain { WalkChain }
    ensures waits { WalkWaits }
    ensures lost { WalkLost }
    ensures known { WalkKnown }
    ensures merge { WalkMerge }
    ensures full { WalkFull }
    ensures near { WalkNear }
    ensures near_told { WalkNearTold }
    ensures lost_told { WalkLostTold }
    ensures dates { WalkDates }
    ensures skips { WalkSkips }
    ensures skip_told { WalkSkipTold }
    ensures pins { WalkPins }
    ensures edge { WalkEdge }
    ensures noop { WalkNoop }
{}

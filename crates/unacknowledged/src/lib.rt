// The haves of a run that no accepted acknowledgement named, and whether the run may be acted on.
#![tactic(auto)]

ghost use Rattle.std.specs.Prelude.{◌≡◌};
ghost use Rattle.unacknowledged.specs.declared.NoList.TheVariants.{Unfinished, Memory};

use source::ObjectId;
use std::alloc::AllocError;
use std::error::Error;
use std::fmt;

pub mod judging;
pub mod listing;
pub mod running;

// What a run lacks to be finished.
#[derive(Clone, Copy, Debug, PartialEq, Eq)]
pub enum Missing {
    // A none: no next_have was accepted, or the last one offered a have.
    LastNone,
    // A none behind the last tip: one was added after the last none.
    NoneAfterTip,
    // A walk that goes on: a denial has stopped it.
    Going,
}

impl fmt::Display for Missing {
    ghost use Rattle.std.specs.Prelude.{Some};
    ghost use Rattle.unacknowledged.specs.Words.{missing_text};

    ghost output = { λ missing. Some (missing_text missing) };

    fn fmt<W: fmt::Write>(&self, f: &mut fmt::Formatter<W>) -> fmt::Result {
        f.write_str(match self {
            Missing::LastNone => "the last next have did not answer none",
            Missing::NoneAfterTip => "a tip was added after the last none",
            Missing::Going => "a denial stopped the walk",
        })
    }
}

impl Error for Missing {}

// A commit to copy.
#[derive(Clone, Copy, Debug, PartialEq, Eq)]
pub struct Commit {
    pub id: ObjectId,
    pub date: i64,
}

// The commits that are to be copied, and the run's numbers: the rows that it took, the haves that it offered, and the
// acknowledgements that it accepted.
#[derive(Debug, Drop)]
pub struct SwapList {
    pub commits: Vec<Commit>,
    pub rows: usize,
    pub haves: usize,
    pub acknowledgements: usize,
}

// Why a run has no list: only a finished one has.
#[derive(Clone, Copy, Debug, PartialEq, Eq)]
pub enum NoList {
    Unfinished(Missing),
    Memory(AllocError),
}

impl fmt::Display for NoList {
    ghost use Rattle.std.specs.Prelude.{Some};
    ghost use Rattle.unacknowledged.specs.Words.{no_list_text};

    ghost output = { λ why. Some (no_list_text why) };

    fn fmt<W: fmt::Write>(&self, f: &mut fmt::Formatter<W>) -> fmt::Result {
        match self {
            NoList::Unfinished(missing) => write!(f, "unfinished: {missing}"),
            NoList::Memory(_) => f.write_str("memory allocation failed"),
        }
    }
}

impl Error for NoList {}

impl From<Missing> for NoList {
    ghost from_gives = { λ missing e. e ≡ Unfinished missing };

    fn from(missing: Missing) -> NoList {
        Self::Unfinished(missing)
    }
}

impl From<AllocError> for NoList {
    ghost from_gives = { λ error e. e ≡ Memory error };

    fn from(error: AllocError) -> NoList {
        Self::Memory(error)
    }
}

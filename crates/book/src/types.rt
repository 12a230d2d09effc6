// The values that a book holds and answers with.
ghost use Rattle.std.specs.Prelude.{◌≡◌, bit_or};
ghost use Rattle.book.specs.Bits.{has, bit_of};
ghost use Rattle.book.specs.Denials.{number_of, fault_in, stops_walk};
ghost use Rattle.book.specs.Rows.{empty_row, metadata, taken_row};

use source::{Fault, ObjectId};

// What a walk has learned of a commit, a bit for each fact. Written by hand, since `bitflags` asks for an impl that is
// longer than the two questions.
#[derive(Clone, Copy, Debug, Default, PartialEq, Eq)]
pub struct Flags {
    pub bits: u8,
}

impl Flags {
    pub const NONE: Flags = Flags { bits: 0 };
    // All that the commit reaches is here.
    pub const COMPLETE: Flags = Flags { bits: 1 };
    // Known from an alternate object store.
    pub const ALTERNATE: Flags = Flags { bits: 2 };
    // The remote has it.
    pub const COMMON: Flags = Flags { bits: 4 };
    // It has entered the queue.
    pub const SEEN: Flags = Flags { bits: 8 };
    // It has been drawn from the queue.
    pub const POPPED: Flags = Flags { bits: 16 };
    // The remote has a ref to it.
    pub const COMMON_REF: Flags = Flags { bits: 32 };
    // The remote has advertised it.
    pub const ADVERTISED: Flags = Flags { bits: 64 };

    pub const COMMON_AND_SEEN: Flags = Flags {
        bits: Flags::COMMON.bits | Flags::SEEN.bits,
    };

    pub const COMMON_REF_AND_SEEN: Flags = Flags {
        bits: Flags::COMMON_REF.bits | Flags::SEEN.bits,
    };

    pub const ADVERTISED_AND_SEEN: Flags = Flags {
        bits: Flags::ADVERTISED.bits | Flags::SEEN.bits,
    };

    // Whether a bit stands in both.
    pub fn intersects(self, other: Flags) -> bool
        ensures { result ≡ has self.bits other.bits }
    {
        self.bits & other.bits != 0
    }

    // The bits of either.
    pub fn union(self, other: Flags) -> Flags
        ensures { result.bits ≡ bit_or self.bits other.bits }
    {
        Flags {
            bits: self.bits | other.bits,
        }
    }
}

// What the user of a book says of a commit.
#[derive(Clone, Copy, Debug, PartialEq, Eq)]
pub enum Remark {
    Complete,
    Alternate,
}

impl Remark {
    pub fn flag(self) -> Flags
        ensures { result.bits ≡ bit_of self }
    {
        match self {
            Remark::Complete => Flags::COMPLETE,
            Remark::Alternate => Flags::ALTERNATE,
        }
    }
}

// What the walks keep of a commit: the skip numbers and the flags.
#[derive(Clone, Copy, Debug, Default, PartialEq, Eq)]
pub struct Metadata {
    pub original_ttl: u16,
    pub ttl: u16,
    pub flags: Flags,
}

impl Metadata {
    // The same with the bits of `mask` set.
    pub(crate) fn flagged(self, mask: Flags) -> Metadata
        ensures { result ≡ metadata self.original_ttl self.ttl (bit_or self.flags.bits mask.bits) }
    {
        Metadata {
            flags: self.flags.union(mask),
            ..self
        }
    }

    // The same with these skip numbers.
    pub(crate) fn renumbered(self, original_ttl: u16, ttl: u16) -> Metadata
        ensures { result ≡ metadata original_ttl ttl self.flags.bits }
    {
        Metadata {
            original_ttl,
            ttl,
            ..self
        }
    }
}

// A commit of the book. Its parents' ids are `count` links from `first` on: a row is of one size, and nothing may
// allocate while a walk runs.
#[derive(Clone, Copy, Debug, PartialEq, Eq)]
pub struct Row {
    pub(crate) date: i64,
    pub(crate) first: usize,
    pub(crate) count: usize,
    pub(crate) id: ObjectId,
    // Of the bucket with this row's number: the row that came in last, plus one, or 0. An `Option` takes four bytes, even
    // of a `NonZeroU16`, and a row would have more than 56.
    pub(crate) head: u16,
    // The row of the same bucket that came in before, plus one, or 0.
    pub(crate) next: u16,
    pub(crate) metadata: Metadata,
}

impl Row {
    // A row of zeroes, to make a buffer of.
    pub fn empty() -> Row
        ensures { result ≡ empty_row }
    {
        let metadata = Metadata::default();
        Row {
            date: 0,
            first: 0,
            count: 0,
            id: ObjectId::NULL,
            head: 0,
            next: 0,
            metadata,
        }
    }

    // The row as a commit takes it: only the bucket of its number is kept of what it was.
    pub(crate) fn taken(self, id: ObjectId, date: i64, first: usize, count: usize, next: u16) -> Row
        ensures { result ≡ taken_row id date first count self.head next }
    {
        Row {
            date,
            first,
            count,
            id,
            next,
            metadata: Metadata::default(),
            ..self
        }
    }
}

// What is read of a row at once: its date, its number of parents, its flags.
#[derive(Clone, Copy, Debug, PartialEq, Eq)]
pub struct Head {
    pub date: i64,
    pub parents: usize,
    pub flags: Flags,
}

// Why a call is refused.
#[derive(Clone, Copy, Debug, PartialEq, Eq)]
pub enum Denial {
    // A denial stopped the walk before this call.
    Stopped,
    // An acknowledged id has no row, or its row has not entered the queue.
    NotSeen,
    // The source cannot say what it has.
    Failing(Fault),
    // A commit without a row, while every row is taken.
    RowsFull,
    // A commit with more parents than there are free links.
    LinksFull,
    // A parent is absent, and no common or advertised commit names it.
    MissingParent,
    // A round so large that the next one would not fit.
    WindowTooLarge,
    // A name that is no negotiator's.
    UnknownName,
    // A read of a row that is not taken, or of a parent that the row lacks.
    NoSuchRow,
}

impl Denial {
    // The number by which a denial is reported: a match, since `Failing` carries a fault.
    pub fn number(self) -> u8
        ensures { result ≡ number_of self }
    {
        match self {
            Denial::Stopped => 1,
            Denial::NotSeen => 2,
            Denial::Failing(_) => 3,
            Denial::RowsFull => 4,
            Denial::LinksFull => 5,
            Denial::MissingParent => 6,
            Denial::WindowTooLarge => 7,
            Denial::UnknownName => 8,
            Denial::NoSuchRow => 9,
        }
    }

    // What the source found wrong, where that is the reason.
    pub fn fault(self) -> Option<Fault>
        ensures { result ≡ fault_in self }
    {
        match self {
            Denial::Failing(fault) => Some(fault),
            _ => None,
        }
    }

    // Whether no call is accepted any more.
    pub fn stops(self) -> bool
        ensures { result ≡ stops_walk self }
    {
        matches!(
            self,
            Denial::Failing(_) | Denial::RowsFull | Denial::LinksFull | Denial::MissingParent
        )
    }
}

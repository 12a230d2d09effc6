// How fields and pairs are written.
ghost use Rattle.std.specs.Prelude.{◌≡◌, ◌+◌, ◌^◌, ◌<◌, ◌≤◌, ◌++◌, ◌↔◌, length, OnOk, IsErrOf, Some};
ghost use Rattle.fields.specs.Fields.{written};
ghost use Rattle.fields.specs.Writing.{message};
ghost use Rattle.fields.specs.declared.writing.Unwritten.TheVariants.{TooLong, NoMemory};

use crate::{ID, TEXT};
use source::ObjectId;
use std::alloc::{AllocError, AllocFailed};
use std::error::Error;
use std::fmt;

// Why a field was not written.
#[derive(Clone, Copy, Debug, PartialEq, Eq)]
pub enum Unwritten {
    // A field has at most 65,535 bytes.
    TooLong,
    NoMemory,
}

impl fmt::Display for Unwritten {
    ghost output = { λ e. Some (message e) };

    fn fmt<W: fmt::Write>(&self, f: &mut fmt::Formatter<W>) -> fmt::Result {
        f.write_str(match self {
            Unwritten::TooLong => "more bytes than a field can have",
            Unwritten::NoMemory => "memory allocation failed",
        })
    }
}

impl Error for Unwritten {}

impl<T: Drop> From<AllocFailed<T>> for Unwritten {
    ghost from_gives = { λ _ e. e ≡ NoMemory };

    fn from(_error: AllocFailed<T>) -> Unwritten {
        Unwritten::NoMemory
    }
}

impl From<AllocError> for Unwritten {
    ghost from_gives = { λ _ e. e ≡ NoMemory };

    fn from(_error: AllocError) -> Unwritten {
        Unwritten::NoMemory
    }
}

// Adds a field: its tag, two length bytes with the high one first, and its bytes. Where memory ends, a part of it may be added.
pub fn push_field(store: &mut Vec<u8>, tag: u8, bytes: &[u8]) -> Result<(), Unwritten>
    ensures too_long { IsErrOf result TooLong ↔ (2 ^ 16 ≤ length bytes.now) }
    ensures added { OnOk result (store.new.items ≡ store.old.items ++ written tag bytes.now) }
    ensures unchanged { IsErrOf result TooLong → store.new ≡ store.old }
{
    let Ok(len) = u16::try_from(bytes.len()) else {
        return Err(Unwritten::TooLong);
    };
    let [hi, lo] = len.to_be_bytes();
    store.push(tag)?;
    store.push(hi)?;
    store.push(lo)?;
    store.extend_from_slice(bytes)?;
    Ok(())
}

// Adds an id with its text. Where it fails, a part may be added.
pub fn push_pair(store: &mut Vec<u8>, id: ObjectId, text: &[u8]) -> Result<(), Unwritten>
    ensures too_long { IsErrOf result TooLong → 2 ^ 16 ≤ length text.now }
    ensures fits { OnOk result (length text.now < 2 ^ 16) }
    ensures added { OnOk result (store.new.items ≡ store.old.items ++ (written 1 id.bytes ++ written 2 text.now)) }
{
    push_field(store, ID, &id.bytes)?;
    push_field(store, TEXT, text)
}

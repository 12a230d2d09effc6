// Where commits come from: ids, faults, and what every source of commits promises.
#![tactic(auto)]

ghost use Rattle.std.specs.Prelude.{◌≡◌, ℕ, ◌≢◌, ◌<◌, ◌/◌, ◌%◌, length, Some, MatchResult};
ghost use Rattle.std.specs.Cmp.Rules.{comparing};
ghost use Rattle.std.specs.Str.{bytes_eq};
ghost use Rattle.std.proofs.Common.{rules};
ghost use Rattle.source.specs.Hex.{hex_digit, hex_of, half};
ghost use Rattle.source.specs.Meaning.{Meaning, number_of, kind_of, fault_of, date_of, count_of, parent_of};
ghost use Rattle.source.specs.declared.ObjectId.{ObjectId as Id};

use std::array::TryFromSliceError;
use std::{array, fmt, str};

pub mod overlay;

// An object's name: 20 bytes.
#[derive(Clone, Copy, Debug, Eq, PartialOrd, Ord, Hash)]
pub struct ObjectId {
    pub bytes: [u8; 20],
}

// Two names are the same where they are so byte for byte. By hand, since a derive has no clause of ours that a wrong
// body could be held to.
impl PartialEq for ObjectId {
    ghost eq = { λ a b. bytes_eq a.bytes b.bytes };

    ghost laws = { Prim.search (comparing, rules) };

    fn eq(&self, other: &ObjectId) -> bool {
        self.bytes == other.bytes
    }
}

impl ObjectId {
    // The name of no object: twenty zeroes.
    pub const NULL: ObjectId = ObjectId { bytes: [0; 20] };

    // The name in hex, two digits to a byte.
    fn digits(self) -> [u8; 40]
        ensures { result ≡ hex_of self.bytes }
    {
        array::from_fn(|i| self.digit_at(i))
    }

    // The digit at a place: each byte has its high half first.
    fn digit_at(self, place: usize) -> u8
        requires { place < 40 }
        ensures { result ≡ half self.bytes (place / 2) (place % 2) }
    {
        let b = self.bytes[place / 2];
        if place % 2 == 0 {
            digit(b / 16)
        } else {
            digit(b % 16)
        }
    }
}

// The name that twenty bytes are; none at any other length.
impl TryFrom<&[u8]> for ObjectId {
    type Error = TryFromSliceError;

    ghost try_from_gives = { λ bytes r. MatchResult r (λ id. (length bytes.now ≡ 20) × (id.bytes ≡ bytes.now)) (λ _. length bytes.now ≢ 20) };

    fn try_from(bytes: &[u8]) -> Result<ObjectId, TryFromSliceError> {
        let bytes = <[u8; 20]>::try_from(bytes)?;
        Ok(ObjectId { bytes })
    }
}

// A lower-case hex digit.
fn digit(n: u8) -> u8
    requires { n < 16 }
    ensures { result ≡ hex_digit n }
{
    if n < 10 { 48 + n } else { 87 + n }
}

// Forty lower-case hex digits, written at once: a formatted write for each byte took several times as long.
impl fmt::Display for ObjectId {
    ghost output = { λ id. Some (hex_of id.bytes) };

    fn fmt<W: fmt::Write>(&self, f: &mut fmt::Formatter<W>) -> fmt::Result {
        let digits = self.digits();
        let Ok(text) = str::from_utf8(&digits) else {
            return Err(fmt::Error);
        };
        f.write_str(text)
    }
}

// What is wrong with a source's bytes. The number by which a cause is reported is its discriminant.
#[derive(Clone, Copy, Debug, PartialEq, Eq)]
pub enum Cause {
    // A field runs past the end.
    PastEnd = 21,
    // A field has the wrong tag or length, or stands out of order.
    Misplaced = 22,
    // A commit's text does not fit the layout.
    Layout = 23,
}

impl Cause {
    // The cause's number.
    pub fn number(self) -> u8
        ensures { result ≡ number_of self }
    {
        self as u8
    }
}

// What a source found wrong: the cause, the byte where it stands, and the layer that met it, counted from 1.
#[derive(Clone, Copy, Debug, PartialEq, Eq)]
pub struct Fault {
    pub cause: Cause,
    pub place: usize,
    pub layer: u8,
}

// What a source has of an id.
#[derive(Clone, Copy, Debug, PartialEq, Eq)]
pub enum Kind {
    Absent,
    Failing,
    Commit,
}

// A source of commits. Its meaning gives each id exactly one of: absent; failing, with a cause, a byte's place and a
// layer; a commit, with its date and its parents in order. Each question answers the meaning, with none where the
// meaning has none, and changes nothing.
pub trait Source {
    ghost meaning: { Self → Id → Meaning };

    ghost layers: { Self → ℕ };

    // Which of the three the id is.
    fn kind(&self, id: ObjectId) -> Kind
        ensures { result ≡ kind_of (meaning self.now id) };

    // The fault of a failing id.
    fn fault(&self, id: ObjectId) -> Option<Fault>
        ensures { result ≡ fault_of (meaning self.now id) };

    // A commit's date, in seconds since 1970.
    fn date(&self, id: ObjectId) -> Option<i64>
        ensures { result ≡ date_of (meaning self.now id) };

    // How many parents a commit has.
    fn parent_count(&self, id: ObjectId) -> Option<usize>
        ensures { result ≡ count_of (meaning self.now id) };

    // A commit's parent by its number, from 0.
    fn parent(&self, id: ObjectId, n: usize) -> Option<ObjectId>
        ensures { result ≡ parent_of (meaning self.now id) n };

    // How many layers of sources this one is.
    fn depth(&self) -> u8
        ensures { result ≡ layers self.now };
}

#[cfg(test)]
mod tests {
    use super::*;
    use std::test::Fail;

    #[test]
    fn an_id_is_printed_as_forty_digits(rt: HostRuntime) -> Result<(), Fail> {
        let mut id = ObjectId::NULL;
        id.bytes[0] = 0x1f;
        id.bytes[19] = 0xa0;
        let text = format!(in rt.alloc(); "{id}")?;
        assert_eq!(rt; text.as_str(), "1f000000000000000000000000000000000000a0");
        Ok(())
    }

    #[test]
    fn twenty_bytes_are_an_id(rt: HostRuntime) -> Result<(), Fail> {
        let bytes = [7u8; 20];
        assert_eq!(rt;
            ObjectId::try_from(bytes.as_slice()).ok(),
            Some(ObjectId { bytes })
        );
        assert_eq!(rt; ObjectId::try_from(&bytes[..19]).ok(), None);
        Ok(())
    }
}

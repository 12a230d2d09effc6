// Ids by number, as scenarios write them.
ghost use Rattle.std.specs.Prelude.{◌≡◌, ◌+◌, ◌*◌, slice_index};

use source::ObjectId;

// The id of a number: its low and its high byte, and zeroes.
pub(crate) fn id_of(n: u16) -> ObjectId
    ensures { slice_index result.bytes 0 + 256 * slice_index result.bytes 1 ≡ n }
{
    let [low, high] = n.to_le_bytes();
    let mut id = ObjectId::NULL;
    id.bytes[0] = low;
    id.bytes[1] = high;
    id
}

// The number of an id.
pub(crate) fn number_of(id: ObjectId) -> u16
    ensures { result ≡ slice_index id.bytes 0 + 256 * slice_index id.bytes 1 }
{
    u16::from_le_bytes([id.bytes[0], id.bytes[1]])
}

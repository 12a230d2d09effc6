// What waits in a queue, and the places that it waits in.
ghost use Rattle.std.specs.Prelude.{◌≡◌};
ghost use Rattle.queue.specs.Places.{empty_place, entry};

// What waits: a value with its date.
#[derive(Clone, Copy, Debug, PartialEq, Eq)]
pub struct Entry<V> {
    pub date: i64,
    pub value: V,
}

// A place of the heap: an entry with its number in the order of entering.
#[derive(Clone, Copy, Debug, PartialEq, Eq)]
pub struct Place<V> {
    pub(crate) date: i64,
    pub(crate) order: u64,
    pub(crate) value: V,
}

impl<V> Place<V> {
    // A place of zeroes, to make a buffer of, with the value that stands for nothing.
    pub fn empty(value: V) -> Place<V>
        ensures { result ≡ empty_place value }
    {
        Place {
            date: 0,
            order: 0,
            value,
        }
    }

    // What waits in the place.
    pub(crate) fn entry(self) -> Entry<V>
        ensures { result ≡ entry self }
    {
        Entry {
            date: self.date,
            value: self.value,
        }
    }
}

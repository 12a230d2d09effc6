// What is done with a queue.
ghost use Rattle.std.specs.Prelude.{◌≡◌, ℕ, ◌+◌, ◌-◌, ◌^◌, ◌<◌, ◌≤◌, List, [], length, replicate, if◌then◌else◌, vec_len, nat_eq};
ghost use Rattle.queue.specs.Places.{empty_place};
ghost use Rattle.queue.specs.Waiting.{enter, tail, head};
ghost use Rattle.queue.specs.Queue.{waiting, room, entered};

use crate::entry::{Entry, Place};
use crate::heap::{add, pull, wiped};
use crate::queue::Queue;

impl<V: Copy> Queue<V> {
    // A queue over these places, which are emptied whatever they held: nothing waits.
    pub fn new(places: Vec<Place<V>>, nothing: V) -> Queue<V>
        ensures waits { waiting result ≡ [] }
        ensures len { length (waiting result) ≡ 0 }
        ensures room { room result ≡ vec_len places }
        ensures entered { entered result ≡ 0 }
        ensures places { result.places.items ≡ replicate (vec_len places) (empty_place nothing) }
    {
        Queue::over(wiped(places, Place::empty(nothing)))
    }

    // A queue over these places as they are, in which nothing waits.
    fn over(places: Vec<Place<V>>) -> Queue<V>
        ensures waits { waiting result ≡ [] }
        ensures room { room result ≡ vec_len places }
        ensures entered { entered result ≡ 0 }
        ensures places { result.places ≡ places }
    {
        Queue {
            places,
            len: 0,
            next: 0,
        }
    }

    // The places, of which `room` says how many there are.
    pub fn into_places(self) -> Vec<Place<V>>
        ensures places { result ≡ self.places }
        ensures room { vec_len result ≡ room self }
    {
        self.places
    }

    // Nothing waits any more.
    pub fn clear(&mut self)
        ensures waits { waiting self.new ≡ [] }
        ensures len { length (waiting self.new) ≡ 0 }
        ensures room { room self.new ≡ room self.old }
        ensures entered { entered self.new ≡ 0 }
    {
        self.len = 0;
        self.next = 0;
    }

    // The number of the next entry.
    fn order(&self) -> u64
        ensures { result ≡ (if nat_eq self.now.len 0 then 0 else self.now.next) }
    {
        if self.len == 0 { 0 } else { self.next }
    }

    // Puts a value behind all that wait with its date or a later one. A place has to be free. The number that
    // tells entries of one date apart starts again at 0 with each entry into an empty queue, so a caller that enters
    // each of its rows at most once, or clears the queue before each use, shows that it fits: no entry is refused for it.
    pub fn insert(&mut self, date: i64, value: V)
        requires space { length (waiting self.old) < room self.old }
        requires count { entered self.old + 1 < 2 ^ 64 }
        ensures waits { waiting self.new ≡ enter (record { date = date; value = value }) (waiting self.old) }
        ensures len { length (waiting self.new) ≡ length (waiting self.old) + 1 }
        ensures room { room self.new ≡ room self.old }
        ensures entered { entered self.new ≤ entered self.old + 1 }
    {
        let at = self.len;
        let order = self.order();
        add(self.places.as_mut_slice(), at, Place { date, order, value });
        self.len = at + 1;
        self.next = order + 1;
    }

    // Takes what waits with the latest date, and of one date what entered first.
    pub fn draw(&mut self) -> Option<Entry<V>>
        ensures value { result ≡ head (waiting self.old) }
        ensures waits { waiting self.new ≡ tail (waiting self.old) }
        ensures len { length (waiting self.new) ≡ length (waiting self.old) - 1 }
        ensures room { room self.new ≡ room self.old }
        ensures entered { entered self.new ≡ entered self.old }
    {
        let last = self.len.checked_sub(1)?;
        let top = pull(self.places.as_mut_slice(), last);
        self.len = last;
        Some(top.entry())
    }
}

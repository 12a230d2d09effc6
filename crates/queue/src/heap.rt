// A binary heap in places that the caller lends. The first is drawn next; entries of one date are told apart by the
// order in which they entered. std's `BinaryHeap` would own the places, lose those that are free, and maybe allocate.
ghost use Rattle.std.specs.Prelude.{◌≡◌, ℕ, ◌+◌, ◌-◌, ◌*◌, ◌^◌, ◌<◌, ◌≤◌, List, [], ◌∷◌, length, take, replicate, vec_len, slice_index_or};
ghost use Rattle.std.specs.List.Sorted.{IsPermutation};
ghost use Rattle.queue.specs.Waiting.{enter, tail, head};
ghost use Rattle.queue.specs.Order.{before, Heaped, Topless, Chief};

use crate::entry::Place;
use std::cmp::Reverse;

// Whether the place a is drawn before the place b.
fn sooner<V>(places: &[Place<V>], a: usize, b: usize) -> bool
    requires { (a < length places.now) × (b < length places.now) }
    ensures { (d : Place V) → before (slice_index_or places.now a d) (slice_index_or places.now b d) ≡ result }
{
    first(&places[a], &places[b])
}

// Whether p is drawn before q. No `Ord` of places, since those of equal keys may hold different values.
fn first<V>(p: &Place<V>, q: &Place<V>) -> bool
    ensures { result ≡ before p.now q.now }
{
    (Reverse(p.date), p.order) < (Reverse(q.date), q.order)
}

// The places before `at` are a heap; afterwards so are they with the one at `at`. The index goes from child to parent.
fn rise<V>(places: &mut [Place<V>], mut at: usize)
    requires { at < length places.old }
    ensures shuffled { IsPermutation (take (at + 1) places.old) (take (at + 1) places.new) }
    ensures heap { Heaped places.old at → Heaped places.new (at + 1) }
{
    while at > 0 {
        let parent = (at - 1) / 2;
        if !sooner(places, at, parent) {
            return;
        }
        places.swap(parent, at);
        at = parent;
    }
}

// The child of `at` that is drawn first.
fn child<V>(places: &[Place<V>], at: usize, len: usize) -> usize
    requires { (2 * at + 1 < len) × (len ≤ length places.now) }
    ensures bound { (result < len) × (at * 2 + 1 ≤ result) × (result ≤ at * 2 + 2) }
    ensures best { Chief places.now at result len }
{
    let left = 2 * at + 1;
    if len <= left + 1 || sooner(places, left, left + 1) {
        left
    } else {
        left + 1
    }
}

// The first `len` places are a heap but for the top; afterwards they are one. The index goes from parent to child.
fn sink<V>(places: &mut [Place<V>], len: usize)
    requires { len ≤ length places.old }
    ensures shuffled { IsPermutation (take len places.old) (take len places.new) }
    ensures heap { Topless places.old len → Heaped places.new len }
{
    let mut at = 0;
    while at < len / 2 {
        let next = child(places, at, len);
        if !sooner(places, next, at) {
            return;
        }
        places.swap(at, next);
        at = next;
    }
}

// Puts p behind the first `at` places, and mends the heap.
pub(crate) fn add<V: Copy>(places: &mut [Place<V>], at: usize, p: Place<V>)
    requires { at < length places.old }
    ensures shuffled { IsPermutation (p ∷ take at places.old) (take (at + 1) places.new) }
    ensures heap { Heaped places.old at → Heaped places.new (at + 1) }
{
    places[at] = p;
    rise(places, at);
}

// Takes the first of `last + 1` places, and mends the heap of the others.
pub(crate) fn pull<V: Copy>(places: &mut [Place<V>], last: usize) -> Place<V>
    requires { last < length places.old }
    ensures value { result ≡ slice_index_or places.old 0 result }
    ensures shuffled { IsPermutation (take (last + 1) places.old) (result ∷ take last places.new) }
    ensures heap { Heaped places.old (last + 1) → Heaped places.new last }
{
    let top = places[0];
    places.swap(0, last);
    sink(places, last);
    top
}

// The places with `empty` in every one. `fill` would ask what a clone of a `V` is.
pub(crate) fn wiped<V: Copy>(mut places: Vec<Place<V>>, empty: Place<V>) -> Vec<Place<V>>
    ensures items { result.items ≡ replicate (vec_len places) empty }
    ensures len { vec_len result ≡ vec_len places }
{
    places.fill_with(|| empty);
    places
}

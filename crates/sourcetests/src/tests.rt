ghost use Rattle.source.specs.Meaning.{absent};

use fields::writing::push_pair;
use indexed::Indexed;
use source::overlay::Overlay;
use source::{Cause, Fault, Kind, ObjectId, Source};
use std::alloc::{AllocError, AllocGlobal};
use std::process::Abort;
use std::test::Fail;
use store::Store;

// An id of one byte, twenty times. The tests of the book have this line too: it is no part of a library.
fn id(b: u8) -> ObjectId {
    ObjectId { bytes: [b; 20] }
}

// A text with a tree, no parents, and this line for its committer.
fn text_of(rt: &impl AllocGlobal, committer: &[u8]) -> Result<Vec<u8>, AllocError> {
    let mut text = Vec::new(rt.alloc());
    text.extend_from_slice(b"tree 0123456789abcdef0123456789abcdef01234567\nauthor a\n")?;
    text.extend_from_slice(committer)?;
    text.push(b'\n')?;
    Ok(text)
}

// What a source should say of an id: nothing, a commit's date and how many parents it has, or a fault.
type Expect = Result<Option<(i64, usize)>, Fault>;

fn fails(cause: Cause, place: usize, layer: u8) -> Expect {
    Err(Fault {
        cause,
        place,
        layer,
    })
}

// Each question's answer, held to what is expected. A failure names the source.
fn ask<S: Source>(rt: &impl Abort, what: &str, source: &S, id: ObjectId, expect: Expect) {
    let kind = match expect {
        Ok(None) => Kind::Absent,
        Ok(Some(_)) => Kind::Commit,
        Err(_) => Kind::Failing,
    };
    let (date, parents) = expect.ok().flatten().unzip();
    assert_eq!(rt; source.kind(id), kind, "{what}");
    assert_eq!(rt; source.fault(id), expect.err(), "{what}");
    assert_eq!(rt; source.date(id), date, "{what}");
    assert_eq!(rt; source.parent_count(id), parents, "{what}");
    let count = parents.unwrap_or(0);
    assert_eq!(rt; source.parent(id, 0).is_some(), count > 0, "{what}");
    assert_eq!(rt; source.parent(id, count), None, "{what}");
}

// The same of the plain and of the indexed store.
fn both(
    rt: &(impl Abort + AllocGlobal),
    bytes: &[u8],
    id: ObjectId,
    expect: Expect,
) -> Result<(), Fail> {
    ask(rt, "plain", &Store::new(bytes), id, expect);
    let indexed = Indexed::open(rt.alloc(), bytes)?;
    ask(rt, "indexed", &indexed, id, expect);
    Ok(())
}

// Fields that are wrong. At the front of a store, every id fails; behind a pair with the id `p`, that id is found, and
// for others the fault lies so much further on.
fn bad_fields(
    rt: &(impl Abort + AllocGlobal),
    bytes: &[u8],
    cause: Cause,
    place: usize,
) -> Result<(), Fail> {
    both(rt, bytes, id(b'a'), fails(cause, place, 1))?;
    both(rt, bytes, id(b'b'), fails(cause, place, 1))?;
    let text = text_of(rt, b"committer x 7 +0000")?;
    let mut store = Vec::new(rt.alloc());
    push_pair(&mut store, id(b'p'), text.as_slice())?;
    let far = store.len().wrapping_add(place);
    store.extend_from_slice(bytes)?;
    both(rt, store.as_slice(), id(b'p'), Ok(Some((7, 0))))?;
    both(rt, store.as_slice(), id(b'a'), fails(cause, far, 1))
}

#[test]
fn fields_that_run_past_the_end(rt: HostRuntime) -> Result<(), Fail> {
    let table: [(&[u8], usize); 10] = [
        (b"\x01", 0),
        (b"\x01\x00", 0),
        (b"\x01\x00\x14", 0),
        (b"\x01\x00\x14aaaaaaaaaaaaaaaaaaa", 0),
        (b"\x09\x00\x05abcd", 0),
        (b"\x01\xff\xffaaaaaaaaaaaaaaaaaaaa", 0),
        (b"\x01\x00\x14aaaaaaaaaaaaaaaaaaaa\x02", 23),
        (b"\x01\x00\x14aaaaaaaaaaaaaaaaaaaa\x02\x00", 23),
        (b"\x01\x00\x14aaaaaaaaaaaaaaaaaaaa\x02\x00\x03ab", 23),
        (b"\x01\x00\x14aaaaaaaaaaaaaaaaaaaa\x03\x00\x03ab", 23),
    ];
    for (bytes, place) in table {
        bad_fields(&rt, bytes, Cause::PastEnd, place)?;
    }
    Ok(())
}

#[test]
fn fields_that_are_misplaced(rt: HostRuntime) -> Result<(), Fail> {
    let table: [(&[u8], usize); 8] = [
        (b"\x02\x00\x00", 0),
        (b"\x00\x00\x01a", 0),
        (b"\x01\x00\x00", 0),
        (b"\x01\x00\x13aaaaaaaaaaaaaaaaaaa", 0),
        (b"\x01\x00\x15aaaaaaaaaaaaaaaaaaaaa", 0),
        (b"\x01\x00\x14aaaaaaaaaaaaaaaaaaaa", 0),
        (b"\x01\x00\x14aaaaaaaaaaaaaaaaaaaa\x03\x00\x00", 23),
        (
            b"\x01\x00\x14aaaaaaaaaaaaaaaaaaaa\x01\x00\x14aaaaaaaaaaaaaaaaaaaa",
            23,
        ),
    ];
    for (bytes, place) in table {
        bad_fields(&rt, bytes, Cause::Misplaced, place)?;
    }
    Ok(())
}

// The start of the line that a text breaks off in.
fn line_start(text: &[u8]) -> usize {
    text.iter().rposition(|b| *b == b'\n').map_or(0, |i| i + 1)
}

// One commit of the id `a` with this text.
fn one(rt: &(impl Abort + AllocGlobal), text: &[u8], expect: Expect) -> Result<(), Fail> {
    let mut store = Vec::new(rt.alloc());
    push_pair(&mut store, id(b'a'), text)?;
    both(rt, store.as_slice(), id(b'a'), expect)?;
    both(rt, store.as_slice(), id(b'b'), Ok(None))
}

// A text that misfits at the line that begins at this place of it; the text begins 26 bytes into the store.
fn misfit(rt: &(impl Abort + AllocGlobal), text: &[u8], place: usize) -> Result<(), Fail> {
    one(rt, text, fails(Cause::Layout, place.wrapping_add(26), 1))
}

#[test]
fn texts_cut_at_every_byte(rt: HostRuntime) -> Result<(), Fail> {
    let text =
        b"tree 0123456789abcdef0123456789abcdef01234567\nparent 0123456789abcdef0123456789abcdef01234567\nauthor A <a@b> 5 +0000\ncommitter C <c@d> 6 -0130\n\nWords\n";
    let header = 143;
    for n in 0..text.len() {
        let cut = &text[..n];
        if n < header {
            misfit(&rt, cut, line_start(cut))?;
        } else {
            one(&rt, cut, Ok(Some((6, 1))))?;
        }
    }
    one(&rt, text, Ok(Some((6, 1))))
}

// A date as it stands on the committer's line.
fn dated(rt: &(impl Abort + AllocGlobal), committer: &[u8], date: Option<i64>) -> Result<(), Fail> {
    let text = text_of(rt, committer)?;
    match date {
        Some(date) => one(rt, text.as_slice(), Ok(Some((date, 0)))),
        None => misfit(rt, text.as_slice(), 55),
    }
}

#[test]
fn dates_to_both_ends_of_64_bits(rt: HostRuntime) -> Result<(), Fail> {
    let table: [(&[u8], Option<i64>); 13] = [
        (b"committer x 9223372036854775807 +0000", Some(i64::MAX)),
        (b"committer x 9223372036854775808 +0000", None),
        (b"committer x -9223372036854775808 +0000", Some(i64::MIN)),
        (b"committer x -9223372036854775809 +0000", None),
        (b"committer x 9999999999999999999 +0000", None),
        (b"committer x 00000000000000000001 +0000", None),
        (b"committer x 0000000000000000001 +0000", Some(1)),
        (b"committer x -0 +0000", Some(0)),
        (b"committer x -1 +0000", Some(-1)),
        (b"committer x - +0000", None),
        (b"committer x +1 +0000", None),
        (b"committer x 1a +0000", None),
        (b"committer x --1 +0000", None),
    ];
    for (committer, date) in table {
        dated(&rt, committer, date)?;
    }
    Ok(())
}

#[test]
fn words_of_the_committer_line(rt: HostRuntime) -> Result<(), Fail> {
    let table: [(&[u8], Option<i64>); 15] = [
        (b"committer 5 +0000", Some(5)),
        (b"committer  5 -9999", Some(5)),
        (b"committer A B <c> 5 +0000", Some(5)),
        (b"committer +0000", None),
        (b"committer 5", None),
        (b"committer ", None),
        (b"committer x 5  +0000", None),
        (b"committer x 5 +0000 ", None),
        (b"committer x 5 +000", None),
        (b"committer x 5 +00000", None),
        (b"committer x 5 0000", None),
        (b"committer x 5 +00a0", None),
        (b"committer x 5 +0000\r", None),
        (b"Committer x 5 +0000", None),
        (b"author x 5 +0000", None),
    ];
    for (committer, date) in table {
        dated(&rt, committer, date)?;
    }
    Ok(())
}

#[test]
fn lines_that_misfit(rt: HostRuntime) -> Result<(), Fail> {
    let table: [(usize, &[&[u8]]); 3] = [
        (
            0,
            &[
                b"",
                b"\n",
                b"tree 0123456789ABCDEF0123456789abcdef01234567\nauthor a\ncommitter x 5 +0000\n",
                b"tree 0123456789abcdeg0123456789abcdef01234567\nauthor a\ncommitter x 5 +0000\n",
                b"tree 123456789abcdef0123456789abcdef01234567\nauthor a\ncommitter x 5 +0000\n",
                b"tree 00123456789abcdef0123456789abcdef01234567\nauthor a\ncommitter x 5 +0000\n",
                b"tree 0123456789abcdef0123456789abcdef01234567\r\nauthor a\r\ncommitter x 5 +0000\r\n",
                b"author a\ncommitter x 5 +0000\n",
            ],
        ),
        (
            46,
            &[
                b"tree 0123456789abcdef0123456789abcdef01234567\ncommitter x 5 +0000\n",
                b"tree 0123456789abcdef0123456789abcdef01234567\nparent 0123456789abcdef0123456789ABCDEF01234567\nauthor a\ncommitter x 5 +0000\n",
            ],
        ),
        (
            55,
            &[
                b"tree 0123456789abcdef0123456789abcdef01234567\nauthor a\n",
                b"tree 0123456789abcdef0123456789abcdef01234567\nauthor a\n\nwords\n",
                b"tree 0123456789abcdef0123456789abcdef01234567\nauthor a\nparent 0123456789abcdef0123456789abcdef01234567\ncommitter x 5 +0000\n",
            ],
        ),
    ];
    for (place, texts) in table {
        for text in texts {
            misfit(&rt, text, place)?;
        }
    }
    Ok(())
}

#[test]
fn parents_in_their_order(rt: HostRuntime) -> Result<(), Fail> {
    let mut bytes = Vec::new(rt.alloc());
    push_pair(
        &mut bytes,
        id(1),
        b"tree 0000000000000000000000000000000000000000\nparent 0a0a0a0a0a0a0a0a0a0a0a0a0a0a0a0a0a0a0a0a\nparent fefefefefefefefefefefefefefefefefefefefe\nparent 0a0a0a0a0a0a0a0a0a0a0a0a0a0a0a0a0a0a0a0a\nauthor a\ncommitter b 9 +0000\n",
    )?;
    both(&rt, bytes.as_slice(), id(1), Ok(Some((9, 3))))?;
    let indexed = Indexed::open(rt.alloc(), bytes.as_slice())?;
    assert_eq!(rt; indexed.parent(id(1), 0), Some(id(10)));
    assert_eq!(rt; indexed.parent(id(1), 1), Some(id(254)));
    assert_eq!(rt; indexed.parent(id(1), 2), Some(id(10)));
    assert_eq!(rt; indexed.parent(id(1), usize::MAX), None);
    Ok(())
}

#[test]
fn the_first_pair_counts(rt: HostRuntime) -> Result<(), Fail> {
    let five = text_of(&rt, b"committer x 5 +0000")?;
    let six = text_of(&rt, b"committer x 6 +0000")?;
    let near = ObjectId {
        bytes: *b"aaaaaaaaaaaaaaaaaaab",
    };
    let mut store = Vec::new(rt.alloc());
    both(&rt, store.as_slice(), id(b'a'), Ok(None))?;
    push_pair(&mut store, id(b'c'), b"")?;
    push_pair(&mut store, near, six.as_slice())?;
    push_pair(&mut store, id(b'a'), five.as_slice())?;
    push_pair(&mut store, id(b'a'), six.as_slice())?;
    push_pair(&mut store, near, five.as_slice())?;
    push_pair(&mut store, id(b'c'), five.as_slice())?;
    let bytes = store.as_slice();
    both(&rt, bytes, id(b'a'), Ok(Some((5, 0))))?;
    both(&rt, bytes, near, Ok(Some((6, 0))))?;
    both(&rt, bytes, id(b'c'), fails(Cause::Layout, 26, 1))?;
    both(&rt, bytes, id(b'b'), Ok(None))
}

// A source of any depth that has nothing.
#[derive(Clone, Copy)]
struct Hollow {
    depth: u8,
}

impl Source for Hollow {
    ghost meaning = { λ _ _. absent };

    ghost layers = { λ s. s.depth };

    fn kind(&self, _id: ObjectId) -> Kind {
        Kind::Absent
    }

    fn fault(&self, _id: ObjectId) -> Option<Fault> {
        None
    }

    fn date(&self, _id: ObjectId) -> Option<i64> {
        None
    }

    fn parent_count(&self, _id: ObjectId) -> Option<usize> {
        None
    }

    fn parent(&self, _id: ObjectId, _n: usize) -> Option<ObjectId> {
        None
    }

    fn depth(&self) -> u8 {
        self.depth
    }
}

#[test]
fn overlays_answer_as_their_front_first(rt: HostRuntime) -> Result<(), Fail> {
    let text = text_of(&rt, b"committer x 5 +0000")?;
    let mut bytes = Vec::new(rt.alloc());
    push_pair(&mut bytes, id(b'a'), text.as_slice())?;
    let holding = Store::new(bytes.as_slice());
    let broken = Store::new(b"\x01");
    let open = Overlay {
        front: holding,
        back: broken,
    };
    ask(&rt, "open", &open, id(b'a'), Ok(Some((5, 0))));
    ask(&rt, "open", &open, id(b'b'), fails(Cause::PastEnd, 0, 2));
    let shut = Overlay {
        front: broken,
        back: holding,
    };
    ask(&rt, "shut", &shut, id(b'a'), fails(Cause::PastEnd, 0, 1));
    let bare = Overlay {
        front: holding,
        back: holding,
    };
    ask(&rt, "bare", &bare, id(b'b'), Ok(None));
    Ok(())
}

#[test]
fn overlays_of_indexed_stores(rt: HostRuntime) -> Result<(), Fail> {
    let text = text_of(&rt, b"committer x 5 +0000")?;
    let mut bytes = Vec::new(rt.alloc());
    push_pair(&mut bytes, id(b'a'), text.as_slice())?;
    let pile = Overlay {
        front: Indexed::open(rt.alloc(), b"")?,
        back: Indexed::open(rt.alloc(), bytes.as_slice())?,
    };
    ask(&rt, "pile", &pile, id(b'a'), Ok(Some((5, 0))));
    let deep = Overlay {
        front: pile,
        back: Store::new(b"\x02\x00\x00"),
    };
    ask(&rt, "deep", &deep, id(b'a'), Ok(Some((5, 0))));
    ask(&rt, "deep", &deep, id(b'b'), fails(Cause::Misplaced, 0, 3));
    Ok(())
}

// The depth of a pile of overlays, and the layer of a fault at its foot.
fn pile(rt: &impl Abort, upper: u8, lower: u8, depth: u8) {
    let foot = Overlay {
        front: Hollow { depth: lower },
        back: Store::new(b"\x01"),
    };
    let whole = Overlay {
        front: Hollow { depth: upper },
        back: foot,
    };
    assert_eq!(rt; whole.depth(), depth);
    ask(
        rt,
        "whole",
        &whole,
        id(b'a'),
        fails(Cause::PastEnd, 0, depth),
    );
}

#[test]
fn piles_of_overlays_count_their_layers(rt: HostRuntime) {
    pile(&rt, 0, 0, 1);
    pile(&rt, 1, 1, 3);
    pile(&rt, 100, 29, 130);
    pile(&rt, 127, 126, 254);
    pile(&rt, 127, 127, 255);
    pile(&rt, 127, 128, 255);
    pile(&rt, 0, 255, 255);
    pile(&rt, 255, 0, 255);
    pile(&rt, 255, 255, 255);
}

#[test]
fn numbers_of_causes(rt: HostRuntime) {
    assert_eq!(rt; Cause::PastEnd.number(), 21);
    assert_eq!(rt; Cause::Misplaced.number(), 22);
    assert_eq!(rt; Cause::Layout.number(), 23);
}

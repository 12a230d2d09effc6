// Each test goes over a small table of cases.
use crate::twig::{Commit, Twig};
use book::book::Book;
use book::types::{Denial, Flags, Remark, Row};
use queue::entry::Place;
use queue::queue::Queue;
use source::{Cause, Fault, ObjectId, Source};
use std::test::Fail;

// The id of twenty times this byte. The other tests have this line too: it is no part of a library.
fn id(byte: u8) -> ObjectId {
    ObjectId { bytes: [byte; 20] }
}

// A source whose commits have this date and so many parents, all of them the id of nines.
fn twig(date: i64, count: usize) -> Twig {
    Twig {
        says: Ok(Commit {
            date,
            count,
            parent: id(9),
        }),
    }
}

// What a source finds that fails.
const FAULT: Fault = Fault {
    cause: Cause::PastEnd,
    place: 7,
    layer: 1,
};

// A source that fails.
const BROKEN: Twig = Twig { says: Err(FAULT) };

// A book of so many rows and links, whose buffers held something.
fn book_of(rt: &HostRuntime, rows: usize, links: usize) -> Result<Book, Fail> {
    let rows = vec![in rt.alloc(); Row::empty(); rows]?;
    let links = vec![in rt.alloc(); id(7); links]?;
    Ok(Book::new(rows, links, 100))
}

#[test]
fn denials_have_their_numbers(rt: HostRuntime) {
    let table = [
        (Denial::Stopped, 1u8, false),
        (Denial::NotSeen, 2, false),
        (Denial::Failing(FAULT), 3, true),
        (Denial::RowsFull, 4, true),
        (Denial::LinksFull, 5, true),
        (Denial::MissingParent, 6, true),
        (Denial::WindowTooLarge, 7, false),
        (Denial::UnknownName, 8, false),
        (Denial::NoSuchRow, 9, false),
    ];
    for (denial, number, stops) in table {
        assert_eq!(rt;
            (denial.number(), denial.stops(), denial.fault().is_some()),
            (number, stops, number == 3)
        );
    }
    assert!(rt; size_of::<Row>() <= 56, "a row is small");
}

#[test]
fn rows_come_in_and_are_read(rt: HostRuntime) -> Result<(), Fail> {
    let mut book = book_of(&rt, 2, 3)?;
    let looked = [
        book.lookup(&twig(1, 1), id(0)).ok(),
        book.lookup(&twig(-5, 2), id(1)).ok(),
        book.lookup(&twig(3, 1), id(2)).ok(),
        book.lookup(&BROKEN, id(1)).ok(),
    ];
    assert_eq!(rt;
        looked,
        [Some(None), Some(Some(0)), Some(Some(1)), Some(Some(0))],
        "rows by id"
    );
    assert_eq!(rt; [book.find(id(2)), book.find(id(3))], [Some(1), None]);
    assert_eq!(rt; [book.date(0).ok(), book.date(1).ok()], [Some(-5), Some(3)]);
    assert_eq!(rt;
        [book.parent_count(0).ok(), book.parent_count(1).ok()],
        [Some(2), Some(1)]
    );
    let parents = [
        book.parent_of(0, 0),
        book.parent_of(0, 1),
        book.parent_of(1, 0),
        book.parent_of(1, 1),
    ];
    assert_eq!(rt; parents, [id(9), id(9), id(9), ObjectId::NULL]);
    assert_eq!(rt; book.row_count(), 2);
    Ok(())
}

#[test]
fn stray_reads_are_denied(rt: HostRuntime) -> Result<(), Fail> {
    let mut book = book_of(&rt, 3, 1)?;
    assert_eq!(rt; book.lookup(&twig(1, 1), id(1)).ok(), Some(Some(0)));
    for row in [1usize, 2, 65535] {
        let denials = [
            book.id(row).err(),
            book.date(row).err(),
            book.metadata(row).err(),
            book.flags(row).err(),
            book.skip(row).err(),
            book.parent_count(row).err(),
            book.parent(row, 0).err(),
        ];
        assert_eq!(rt; denials, [Some(Denial::NoSuchRow); 7]);
    }
    assert_eq!(rt;
        (
            book.parent(0, 0).err(),
            book.parent(0, 1).err(),
            book.is_stopped(),
        ),
        (None, Some(Denial::NoSuchRow), false)
    );
    Ok(())
}

#[test]
fn a_denied_lookup_stops_the_walk(rt: HostRuntime) -> Result<(), Fail> {
    // Rows, links and source; the denial.
    let table = [
        (1usize, 1usize, BROKEN, Some(Denial::Failing(FAULT))),
        (0, 0, BROKEN, Some(Denial::Failing(FAULT))),
        (0, 9, twig(1, 1), Some(Denial::RowsFull)),
        (0, 0, twig(1, 1), Some(Denial::RowsFull)),
        (9, 1, twig(1, 2), Some(Denial::LinksFull)),
        (1, 0, twig(1, 1), Some(Denial::LinksFull)),
        (1, 1, twig(1, 1), None),
    ];
    for (rows, links, source, denial) in table {
        let mut book = book_of(&rt, rows, links)?;
        let first = book.lookup(&source, id(1)).err();
        let noted = book.note(&twig(1, 0), id(0), Remark::Complete).err();
        let stopped = denial.is_some();
        assert_eq!(rt;
            (
                first,
                noted.is_some(),
                book.is_stopped(),
                book.going().is_err(),
                book.find(id(1)).is_none(),
            ),
            (denial, stopped, stopped, stopped, stopped)
        );
    }
    Ok(())
}

#[test]
fn flags_and_skip_numbers_are_written(rt: HostRuntime) -> Result<(), Fail> {
    let mut book = book_of(&rt, 1, 0)?;
    let source = twig(1, 0);
    let notes = [
        book.note(&source, id(1), Remark::Alternate),
        book.note(&source, id(1), Remark::Complete),
    ];
    assert_eq!(rt; notes, [Ok(()), Ok(())]);
    let old = book.set_flags(0, Flags::COMMON_REF_AND_SEEN);
    let set = book.set_skip(0, 5, 4);
    let flags = book.head(0).flags;
    assert_eq!(rt;
        (old, set, flags),
        (Ok(Flags { bits: 3 }), Ok(()), Flags { bits: 43 }),
        "the flags before and after"
    );
    assert_eq!(rt; book.skip(0).ok(), Some((5, 4)));
    assert_eq!(rt;
        [
            flags.intersects(Flags::SEEN),
            flags.intersects(Flags::POPPED),
        ],
        [true, false]
    );
    Ok(())
}

#[test]
fn buffers_come_back(rt: HostRuntime) -> Result<(), Fail> {
    let mut book = book_of(&rt, 3, 5)?;
    assert_eq!(rt; book.lookup(&twig(1, 2), id(1)), Ok(Some(0)));
    let (rows, links) = book.into_buffers();
    assert_eq!(rt; [rows.len(), links.len()], [3, 5]);
    // The same buffers serve again, and nothing of the first book is left.
    let again = Book::new(rows, links, 2);
    assert_eq!(rt; again.find(id(1)), None);
    let (rows, links) = again.into_buffers();
    assert!(rt; rows.len() == 3 && links.len() == 5);
    assert_eq!(rt; links[0].bytes[0], 0);
    Ok(())
}

#[test]
fn the_queue_draws_in_order(rt: HostRuntime) -> Result<(), Fail> {
    let places = vec![in rt.alloc(); Place::empty(0u16); 6]?;
    assert!(rt; places.len() == 6);
    let mut queue = Queue::new(places, 0u16);
    queue.insert(5, 1);
    queue.insert(-7, 2);
    queue.insert(5, 3);
    queue.insert(9, 4);
    queue.insert(-7, 5);
    queue.insert(5, 6);
    for value in [4u16, 1, 3, 6, 2, 5] {
        match queue.draw() {
            Some(entry) => assert_eq!(rt; entry.value, value),
            None => return Err(Fail::new("the queue is empty")),
        }
    }
    assert!(rt; queue.draw().is_none());
    assert_eq!(rt; queue.into_places().len(), 6);
    Ok(())
}

// The haves that no accepted acknowledgement named.
ghost use Rattle.std.specs.Prelude.{◌≡◌, ℕ, get_or, IfOk, count_by, slice_index_or};
ghost use Rattle.book.specs.Model.{model};
ghost use Rattle.model.specs.Book.{no_row};
ghost use Rattle.model.specs.View.{rows_of};
ghost use Rattle.unacknowledged.specs.Listing.{is_accepted, names, named, commit_of, commit_in, listed, is_have, is_ack};

use crate::Commit;
use book::book::Book;
use model::{Call, Event, Reply};
use source::ObjectId;
use std::alloc::{AllocError, Global};

// Whether a call was accepted.
fn accepts(reply: Reply) -> bool
    ensures { result ≡ is_accepted reply }
{
    !matches!(reply, Reply::Denied(_))
}

// Whether a call is an accepted acknowledgement of this id.
fn acknowledges(event: Event, id: ObjectId) -> bool
    ensures { result ≡ names id event }
{
    // What was asked first: most events of a run ask for a have.
    matches!(event.asked, Call::InCommonWithRemote(other) if accepts(event.gave) && other == id)
}

// Whether an accepted acknowledgement of the run names this id.
fn is_acknowledged(events: &[Event], id: ObjectId) -> bool
    ensures { result ≡ named events.now id }
{
    events.iter().any(|event| acknowledges(*event, id))
}

// The id of a row, or zeroes past the last row.
fn id_at(book: &Book, row: usize) -> ObjectId
    ensures { result ≡ (get_or (rows_of (model book.now)) row no_row).id }
{
    book.id(row).unwrap_or(ObjectId::NULL)
}

// The commit of a row, or zeroes past the last row.
fn commit_at(book: &Book, row: usize) -> Commit
    ensures { result ≡ commit_of (slice_index_or (rows_of (model book.now)) row no_row) }
{
    let id = id_at(book, row);
    let date = book.head(row).date;
    Commit { id, date }
}

// The commit that a reply offers.
fn commit_in(reply: Reply, book: &Book) -> Option<Commit>
    ensures { result ≡ commit_in (rows_of (model book.now)) reply }
{
    match reply {
        Reply::Have(row) => Some(commit_at(book, row)),
        Reply::Done | Reply::NoneLeft | Reply::Told(_) | Reply::Denied(_) => None,
    }
}

// The haves that no accepted acknowledgement of the run names, in the order in which they were offered.
pub fn list(heap: Global, events: &[Event], book: &Book) -> Result<Vec<Commit>, AllocError>
    ensures { IfOk result (λ v. v.items ≡ listed events.now (rows_of (model book.now)) events.now) }
{
    events
        .iter()
        .filter_map(|event| commit_in(event.gave, book))
        .filter(|commit| !is_acknowledged(events, commit.id))
        .collect(heap)
}

// Whether a call gave a have.
fn is_have(event: Event) -> bool
    ensures { result ≡ is_have event }
{
    matches!(event.gave, Reply::Have(_))
}

// Whether a call is an accepted acknowledgement.
fn is_acknowledgement(event: Event) -> bool
    ensures { result ≡ is_ack event }
{
    matches!(event.asked, Call::InCommonWithRemote(_)) && accepts(event.gave)
}

// How many haves the run offered.
pub fn haves(events: &[Event]) -> usize
    ensures { result ≡ count_by is_have events.now }
{
    events.iter().filter(|event| is_have(**event)).count()
}

// How many acknowledgements the run accepted.
pub fn acknowledgements(events: &[Event]) -> usize
    ensures { result ≡ count_by is_ack events.now }
{
    events
        .iter()
        .filter(|event| is_acknowledgement(**event))
        .count()
}

// What a recorded walk prints: the negotiator's number, then a line to a call.
ghost use Rattle.std.specs.Prelude.{◌≡◌, ℕ, IfOk, string_bytes};
ghost use Rattle.book.specs.Denials.{number_of};
ghost use Rattle.book.specs.Model.{model};
ghost use Rattle.input.specs.Inputs.{calls_of, parsed};
ghost use Rattle.model.specs.View.{rows_of};
ghost use Rattle.store.specs.Stores.{store_of};
ghost use Rattle.session.specs.Printed.{denied, said, line_of, lines_of, titled, Tells, Printed};

use crate::run;
use book::book::Book;
use book::types::Denial;
use consecutive::Algorithm as Consecutive;
use indexed::Indexed;
use input::{Misfit, Walk};
use model::{Algorithm, Event, Reply};
use negotiate::Negotiator;
use negotiate::noop::Noop;
use skipping::Algorithm as Skipping;
use std::alloc::{AllocError, Global};

// The size of the book.
const ROWS: usize = 1_024;

const LINKS: usize = 2_048;

fn denied(heap: Global, denial: Denial) -> Result<String, AllocError>
    ensures { IfOk result (λ t. string_bytes t ≡ denied (number_of denial)) }
{
    let number = denial.number();
    format!(in heap; "no {number}")
}

// What a call gave back.
#[tactic(auto, using(crate::proofs::Prints::id_read))]
fn outcome(heap: Global, book: &Book, reply: Reply) -> Result<String, AllocError>
    ensures { IfOk result (λ t. string_bytes t ≡ said (rows_of (model book.now)) reply) }
{
    match reply {
        Reply::Done => String::from_str(heap, "ok"),
        Reply::NoneLeft => String::from_str(heap, "none"),
        Reply::Told(known) => format!(in heap; "{known}"),
        Reply::Have(row) => match book.id(row) {
            Ok(id) => format!(in heap; "{id}"),
            Err(denial) => denied(heap, denial),
        },
        Reply::Denied(denial) => denied(heap, denial),
    }
}

// The line of a call: its place from 1, its tag, and what it gave back.
fn line(heap: Global, book: &Book, place: usize, event: Event) -> Result<String, AllocError>
    ensures { IfOk result (λ t. string_bytes t ≡ line_of (rows_of (model book.now)) place event.asked event.gave) }
{
    let tag = input::tag_of(event.asked);
    let said = outcome(heap, book, event.gave)?;
    format!(in heap; "{place} {tag} {said}\n")
}

// The lines of calls with what they gave back.
fn lines(heap: Global, book: &Book, events: &[Event]) -> Result<String, AllocError>
    ensures { IfOk result (λ t. string_bytes t ≡ lines_of (rows_of (model book.now)) 1 events.now) }
{
    let mut text = String::new(heap);
    for (i, event) in events.iter().enumerate() {
        let said = line(heap, book, i + 1, *event)?;
        text.push_str(said.as_str())?;
    }
    Ok(text)
}

// The negotiator's number above the lines.
fn headed(heap: Global, number: u8, lines: &str) -> Result<String, AllocError>
    ensures { IfOk result (λ t. string_bytes t ≡ titled number lines.now) }
{
    format!(in heap; "walk {number}\n{lines}")
}

// A walk under one negotiator.
fn walked<N: Negotiator + Drop>(heap: Global, walk: Walk<'_>) -> Result<String, AllocError>
    ensures { IfOk result (λ t. Tells N.Negotiator.ALGORITHM (store_of walk.entry.store.now) (calls_of walk.entry.calls.now) (string_bytes t)) }
{
    let source = Indexed::open(heap, walk.store)?;
    let calls = input::calls(heap, walk.calls)?;
    let session = run::<N, Indexed>(heap, ROWS, LINKS, &source, calls.as_slice())?;
    // Each call stands in its event too: the text may have the memory.
    drop(calls);
    let said = lines(heap, session.walk.book(), session.events.as_slice())?;
    headed(heap, N::ALGORITHM.into(), said.as_str())
}

// All that an input has the program print: the place where it misfits, or a walk's number and a line to each call. The
// walk is one from a book's making, of which the law holds.
pub fn transcript(heap: Global, bytes: &[u8]) -> Result<String, AllocError>
    ensures { IfOk result (λ t. Printed (parsed bytes.now) (string_bytes t)) }
{
    match input::read(bytes) {
        Err(Misfit { place }) => format!(in heap; "bad {place}\n"),
        // Spelled out: a closure cannot be generic in the negotiator, and a trait for it would be longer.
        Ok(walk) => match walk.algorithm {
            Algorithm::Noop => walked::<Noop>(heap, walk),
            Algorithm::Consecutive => walked::<Consecutive>(heap, walk),
            Algorithm::Skipping => walked::<Skipping>(heap, walk),
        },
    }
}

// A scenario played, and what it comes to in text: a line for each call, with its answer and the rows that it changed.
use crate::ids::number_of;
use crate::reading::Scenario;
use book::book::Book;
use book::types::{Denial, Metadata};
use consecutive::Algorithm as Consecutive;
use indexed::Indexed;
use model::{Algorithm, Reply};
use negotiate::Negotiator;
use negotiate::noop::Noop;
use negotiate::play::make;
use skipping::Algorithm as Skipping;
use std::alloc::{AllocError, Global};
use std::fmt::Write;
use walk::state::making::Buffers;

// Adds the number of a denial.
pub(crate) fn push_denial(text: &mut String, denial: Denial) -> Result<(), AllocError> {
    write!(text, "= no {}", denial.number())
}

// Adds what a call gave back.
fn push_reply(text: &mut String, book: &Book, reply: Reply) -> anyhow::Result<()> {
    match reply {
        Reply::Done => text.push_str("= ok")?,
        Reply::NoneLeft => text.push_str("= none")?,
        Reply::Told(known) => write!(text, "= {known}")?,
        Reply::Have(row) => match book.id(row) {
            Ok(id) => write!(text, "= have {}", number_of(id))?,
            Err(denial) => push_denial(text, denial)?,
        },
        Reply::Denied(denial) => push_denial(text, denial)?,
    }
    Ok(())
}

// Adds the rows that are new, or whose flags or skip numbers are not as they were shown last. By number, since a book is
// read by number; what was shown is kept in the order of its rows.
fn push_changes(text: &mut String, book: &Book, shown: &mut Vec<Metadata>) -> anyhow::Result<()> {
    for row in 0..book.row_count() {
        let (Ok(id), Ok(metadata)) = (book.id(row), book.metadata(row)) else {
            break;
        };
        match shown.get_mut(row) {
            Some(old) if *old == metadata => continue,
            Some(old) => *old = metadata,
            None => shown.push(metadata)?,
        }
        let Metadata {
            original_ttl,
            ttl,
            flags,
        } = metadata;
        write!(
            text,
            " {row}:{}:{}:{original_ttl}:{ttl}",
            number_of(id),
            flags.bits
        )?;
    }
    Ok(())
}

fn run<N: Negotiator + Drop>(
    heap: Global,
    text: &mut String,
    scenario: &Scenario,
) -> anyhow::Result<()> {
    let source = Indexed::open(heap, scenario.store.as_slice())?;
    let mut walk = N::new(Buffers::sized(heap, scenario.rows, scenario.links)?);
    let mut shown = Vec::new(heap);
    for call in scenario.calls.iter() {
        let reply = make(&mut walk, &source, *call);
        push_reply(text, walk.book(), reply)?;
        push_changes(text, walk.book(), &mut shown)?;
        text.push_str("\n")?;
    }
    Ok(())
}

// Adds what the scenario's calls give.
pub(crate) fn play(heap: Global, text: &mut String, scenario: &Scenario) -> anyhow::Result<()> {
    // Spelled out: a closure cannot be generic in the negotiator, and a trait for it would be longer.
    match scenario.algorithm {
        Algorithm::Noop => run::<Noop>(heap, text, scenario),
        Algorithm::Consecutive => run::<Consecutive>(heap, text, scenario),
        Algorithm::Skipping => run::<Skipping>(heap, text, scenario),
    }
}

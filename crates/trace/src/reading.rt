// A scenario read line by line: a source's commits, a negotiator with the size of its book, and calls.
use crate::ids::id_of;
use anyhow::{anyhow, ensure};
use book::types::Remark;
use fields::writing::{Unwritten, push_pair};
use model::{Algorithm, Call};
use source::ObjectId;
use std::alloc::Global;
use std::collections::BTreeSet;
use std::fmt::Write;
use std::str::SplitWhitespace;

// What one walk is played on.
#[derive(Drop)]
pub(crate) struct Scenario {
    pub algorithm: Algorithm,
    pub rows: usize,
    pub links: usize,
    // The ids that the store has a pair of.
    stored: BTreeSet<u16>,
    pub store: Vec<u8>,
    pub calls: Vec<Call>,
}

// The next word; an error says what is missing where there is none.
pub(crate) fn word<'a>(words: &mut SplitWhitespace<'a>, what: &str) -> anyhow::Result<&'a str> {
    words.next().ok_or_else(|| anyhow!("{what} is missing"))
}

// The next word as an id's number, or the size of a book.
fn number(words: &mut SplitWhitespace<'_>) -> anyhow::Result<u16> {
    Ok(word(words, "a number")?.parse()?)
}

// No word may be left on a line.
pub(crate) fn at_end(words: &mut SplitWhitespace<'_>) -> anyhow::Result<()> {
    ensure!(words.next().is_none(), "a word too many");
    Ok(())
}

// The negotiator with the number that the next word is. Not `parse`, which would take `01` too.
fn algorithm(words: &mut SplitWhitespace<'_>) -> anyhow::Result<Algorithm> {
    match words.next() {
        Some("0") => Ok(Algorithm::Noop),
        Some("1") => Ok(Algorithm::Consecutive),
        Some("2") => Ok(Algorithm::Skipping),
        _ => Err(anyhow!("no such negotiator")),
    }
}

// The text of a commit with this date and the parents that the words name.
fn text_of(heap: Global, date: i64, words: &mut SplitWhitespace<'_>) -> anyhow::Result<String> {
    let mut text = format!(in heap; "tree {}", ObjectId::NULL)?;
    for word in words {
        write!(text, "\nparent {}", id_of(word.parse()?))?;
    }
    write!(text, "\nauthor a 0 +0000\ncommitter c {date} +0000\n")?;
    Ok(text)
}

impl Scenario {
    // A scenario that begins with the words of its first line.
    pub(crate) fn begin(heap: Global, words: &mut SplitWhitespace<'_>) -> anyhow::Result<Scenario> {
        let algorithm = algorithm(words)?;
        let rows = usize::from(number(words)?);
        let links = usize::from(number(words)?);
        at_end(words)?;
        Ok(Scenario {
            algorithm,
            rows,
            links,
            stored: BTreeSet::new(heap),
            store: Vec::new(heap),
            calls: Vec::new(heap),
        })
    }

    // Adds a pair to the store, the first of its id.
    fn hold(&mut self, id: u16, text: &[u8]) -> anyhow::Result<()> {
        ensure!(self.stored.insert(id)?, "an id stands twice in the source");
        ensure!(self.calls.is_empty(), "a commit after a call");
        push_pair(&mut self.store, id_of(id), text).map_err(|why| match why {
            Unwritten::TooLong => anyhow!("too many parents"),
            Unwritten::NoMemory => anyhow!(why),
        })
    }

    // Takes in one more line: a pair of the source, or a call.
    pub(crate) fn extend(
        &mut self,
        heap: Global,
        head: &str,
        words: &mut SplitWhitespace<'_>,
    ) -> anyhow::Result<()> {
        match head {
            "commit" => {
                let id = number(words)?;
                let date = word(words, "a date")?.parse()?;
                let text = text_of(heap, date, words)?;
                self.hold(id, text.as_bytes())
            }
            "fail" => {
                let id = number(words)?;
                at_end(words)?;
                self.hold(id, b"no commit")
            }
            _ => {
                let call = call(head, words)?;
                at_end(words)?;
                self.calls.push(call)?;
                Ok(())
            }
        }
    }
}

// The call that a line names.
fn call(head: &str, words: &mut SplitWhitespace<'_>) -> anyhow::Result<Call> {
    if head == "next" {
        return Ok(Call::NextHave);
    }
    let id = id_of(number(words)?);
    match head {
        "common" => Ok(Call::KnownCommon(id)),
        "tip" => Ok(Call::AddTip(id)),
        "ack" => Ok(Call::InCommonWithRemote(id)),
        "complete" => Ok(Call::Note(id, Remark::Complete)),
        "alternate" => Ok(Call::Note(id, Remark::Alternate)),
        _ => Err(anyhow!("no such call")),
    }
}

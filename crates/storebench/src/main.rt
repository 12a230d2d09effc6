// Stores of 1,000, 10,000 and 60,000 commits, asked about every one of them. With the argument `time` it also says how
// fast a store is opened and how many questions it answers in a second.
#![tactic(auto)]

use fields::writing::push_pair;
use indexed::Indexed;
use source::{Kind, ObjectId, Source};
use std::alloc::{AllocError, Global};
use std::fmt::Write;
use std::time::Instant;
use std::{env, io};
use store::Store;

// An id for a number, spread over all bytes as a hash is.
fn id_of(n: u32) -> ObjectId {
    let mut id = ObjectId::NULL;
    let mut x = u64::from(n).wrapping_mul(0x9e37_79b9_7f4a_7c15);
    for byte in &mut id.bytes {
        x = (x ^ (x >> 31)).wrapping_mul(0xbf58_476d_1ce4_e5b9);
        *byte = ((x >> 32) & 255) as u8;
    }
    id
}

// The text of the commit with a number: its parents are the one before it and, for every eighth, one more.
fn text_of(heap: Global, n: u32) -> Result<String, AllocError> {
    let mut text = format!(in heap; "tree {}", id_of(n ^ 0xffff_0000))?;
    if n > 0 {
        write!(text, "\nparent {}", id_of(n - 1))?;
    }
    if n > 8 && n % 8 == 0 {
        write!(text, "\nparent {}", id_of(n - 8))?;
    }
    let date = 1_500_000_000 + u64::from(n);
    write!(
        text,
        "\nauthor A Plant Engineer <engineer@plant.example> {date} +0200"
    )?;
    write!(
        text,
        "\ncommitter The Office <office@plant.example> {date} +0200"
    )?;
    write!(text, "\n\nSet the pressure of the second loop\n")?;
    Ok(text)
}

// A store of so many commits.
fn build(heap: Global, commits: u32) -> Result<Vec<u8>, AllocError> {
    let mut store = Vec::new(heap);
    for n in 0..commits {
        let text = text_of(heap, n)?;
        // A text of ours is never too long, so that only memory can be wanting.
        push_pair(&mut store, id_of(n), text.as_bytes()).map_err(|_| AllocError)?;
    }
    Ok(store)
}

// What the answers come to.
#[derive(Clone, Copy, Debug, Default)]
struct Tally {
    commits: u64,
    dates: u64,
    parents: u64,
    bytes: u64,
}

// Four questions about each commit, in an order that jumps about.
fn ask<S: Source>(source: &S, commits: u32) -> Tally {
    let mut tally = Tally::default();
    for n in 0..commits {
        let id = id_of(n.wrapping_mul(7919) % commits);
        if source.kind(id) == Kind::Commit {
            tally.commits = tally.commits.wrapping_add(1);
        }
        if let Some(date) = source.date(id) {
            tally.dates = tally.dates.wrapping_add(date.unsigned_abs());
        }
        if let Some(count) = source.parent_count(id) {
            tally.parents = tally.parents.wrapping_add(count as u64);
        }
        if let Some(parent) = source.parent(id, 0) {
            tally.bytes = tally.bytes.wrapping_add(u64::from(parent.bytes[19]));
        }
    }
    tally
}

// The same, with how many questions were answered in a second.
fn timed_ask<S: Source>(rt: &HostRuntime, source: &S, commits: u32) -> io::Result<(Tally, u128)> {
    let begun = Instant::now(rt)?;
    let tally = ask(source, commits);
    let nanos = begun.elapsed(rt)?.as_nanos().max(1);
    let questions = u128::from(commits).wrapping_mul(4);
    Ok((tally, questions.wrapping_mul(1_000_000_000) / nanos))
}

// Opens a store of so many commits, asks it, and says what the answers come to.
fn bench(rt: &HostRuntime, commits: u32, timed: bool) -> io::Result<()> {
    let bytes = build(rt.alloc(), commits)?;
    let len = bytes.len();
    let begun = Instant::now(rt)?;
    let indexed = Indexed::open(rt.alloc(), bytes.as_slice())?;
    let opened = begun.elapsed(rt)?;
    let (tally, rate) = timed_ask(rt, &indexed, commits)?;
    let Tally {
        commits: found,
        dates,
        parents,
        bytes: sum,
    } = tally;
    println!(rt;
        "{commits} commits, {len} bytes: {found} found, {parents} parents, dates {dates}, bytes {sum}"
    )?;
    if timed {
        let cost = opened.as_nanos().wrapping_mul(1000) / (len.max(1) as u128);
        println!(rt; "  opened in {opened:?}, {cost} ps a byte; {rate} questions a second")?;
    }
    Ok(())
}

// The plain store, for comparison: it reads from its front at each question.
fn bench_plain(rt: &HostRuntime, commits: u32) -> io::Result<()> {
    let bytes = build(rt.alloc(), commits)?;
    let plain = Store::new(bytes.as_slice());
    let (tally, rate) = timed_ask(rt, &plain, commits)?;
    let found = tally.commits;
    println!(rt; "plain store, {commits} commits: {found} found; {rate} questions a second")
}

fn main(rt: HostRuntime) -> io::Result<()> {
    let timed = env::args(&rt)?.skip(1).any(|word| word.as_str() == "time");
    bench(&rt, 1_000, timed)?;
    bench(&rt, 10_000, timed)?;
    bench(&rt, 60_000, timed)?;
    if timed {
        bench_plain(&rt, 1_000)?;
    }
    Ok(())
}

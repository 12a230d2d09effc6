// Prints what is to be copied before a swap: the haves of a recorded walk that no acknowledgement named.
#![tactic(auto)]

use anyhow::{anyhow, bail};
use book::book::MOST_ROWS;
use calendar::at;
use commit::PARENT_LINE;
use consecutive::Algorithm as Consecutive;
use indexed::Indexed;
use input::{Misfit, Walk};
use model::Algorithm;
use negotiate::Negotiator;
use negotiate::noop::Noop;
use skipping::Algorithm as Skipping;
use std::{env, fs};
use unacknowledged::{NoList, SwapList};
use walk::state::making::Buffers;

// A line for each commit, and one with the run's numbers.
fn say_list(rt: &impl Print, list: &SwapList) -> anyhow::Result<()> {
    for commit in list.commits.iter() {
        println!(rt; "{} {} {}", commit.id, commit.date, at(commit.date))?;
    }
    println!(rt;
        "rows {} haves {} acknowledgements {} copies {}",
        list.rows,
        list.haves,
        list.acknowledgements,
        list.commits.len()
    )?;
    Ok(())
}

// Plays the calls under one negotiator, and prints what they come to.
fn run<N: Negotiator + Drop>(rt: &HostRuntime, walk: Walk<'_>) -> anyhow::Result<()> {
    let heap = rt.alloc();
    let source = Indexed::open(heap, walk.store)?;
    let calls = input::calls(heap, walk.calls)?;
    // Each parent takes a line in the store, so that there are no more parents than such lines.
    let links = walk.store.len() / PARENT_LINE;
    let buffers = Buffers::sized(heap, MOST_ROWS, links)?;
    match unacknowledged::running::run::<N, Indexed>(heap, buffers, &source, calls.as_slice()) {
        Ok(list) => say_list(rt, &list),
        Err(why @ NoList::Unfinished(_)) => {
            println!(rt; "{why}")?;
            Err(anyhow!("the run is not finished"))
        }
        Err(NoList::Memory(error)) => Err(error.into()),
    }
}

fn main(rt: HostRuntime) -> anyhow::Result<()> {
    let path = env::args(&rt)?
        .nth(1)
        .ok_or_else(|| anyhow!("usage: swaplist FILE"))?;
    let bytes = match fs::read(&rt, path.as_str()) {
        Ok(bytes) => bytes,
        Err(error) => {
            eprintln!(rt; "{path}: {error}")?;
            bail!("the file cannot be read")
        }
    };
    match input::read_within(bytes.as_slice(), usize::MAX) {
        Err(Misfit { place }) => {
            println!(rt; "bad {place}")?;
            Err(anyhow!("the file is no recorded walk"))
        }
        // Spelled out: a closure cannot be generic in the negotiator, and a trait for it would be longer.
        Ok(walk) => match walk.algorithm {
            Algorithm::Noop => run::<Noop>(&rt, walk),
            Algorithm::Consecutive => run::<Consecutive>(&rt, walk),
            Algorithm::Skipping => run::<Skipping>(&rt, walk),
        },
    }
}

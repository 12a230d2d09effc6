// Plays scenarios from standard input and prints what each call gives. With the argument `replay`, the answers stand in
// the input too, each after a `=`, and it says how many scenarios give another one, and shows the first.
#![tactic(auto)]

use crate::reading::{Scenario, at_end, word};
use crate::running::push_denial;
use anyhow::{anyhow, bail, ensure};
use model::Algorithm;
use negotiate::window::window_size;
use std::alloc::Global;
use std::env;
use std::fmt::Write;
use std::io::{BufRead, BufReader};
use std::str::SplitWhitespace;

mod ids;
mod reading;
mod running;

// What is done with the answers: two cases with a line each, and no closures.
#[derive(Clone, Copy)]
enum Mode {
    Print,
    Replay,
}

// What is at hand between two lines.
#[derive(Drop)]
struct Session {
    mode: Mode,
    scenario: Option<Scenario>,
    // The lines of the scenario, those that it should give, and those that it gives.
    asked: String,
    expected: String,
    given: String,
    played: u64,
    different: u64,
}

impl Session {
    fn new(heap: Global, mode: Mode) -> Session {
        Session {
            mode,
            scenario: None,
            asked: String::new(heap),
            expected: String::new(heap),
            given: String::new(heap),
            played: 0,
            different: 0,
        }
    }

    // Ends the scenario at hand: plays it, and prints or compares what it gives.
    fn finish(&mut self, rt: &HostRuntime) -> anyhow::Result<()> {
        if let Some(scenario) = self.scenario.take() {
            running::play(rt.alloc(), &mut self.given, &scenario)?;
        }
        if self.asked.is_empty() {
            return Ok(());
        }
        self.played = self.played.saturating_add(1);
        match self.mode {
            Mode::Print => rt.print(self.given.as_str())?,
            Mode::Replay => self.compare(rt)?,
        }
        self.asked.clear();
        self.expected.clear();
        self.given.clear();
        Ok(())
    }

    // Counts a scenario that gives other lines than it should, and shows the first.
    fn compare(&mut self, rt: &HostRuntime) -> anyhow::Result<()> {
        if self.expected.as_str() == self.given.as_str() {
            return Ok(());
        }
        if self.different == 0 {
            show(rt, "the scenario", self.asked.as_str())?;
            show(rt, "should give", self.expected.as_str())?;
            show(rt, "and gives", self.given.as_str())?;
        }
        self.different = self.different.saturating_add(1);
        Ok(())
    }

    // Takes in a line that asks something.
    fn ask(&mut self, rt: &HostRuntime, line: &str) -> anyhow::Result<()> {
        let mut words = line.split_whitespace();
        let Some(head) = words.next() else {
            return Ok(());
        };
        if matches!(head, "walk" | "window" | "name") {
            self.finish(rt)?;
        }
        writeln!(self.asked, "{line}")?;
        match head {
            "walk" => {
                self.scenario = Some(Scenario::begin(rt.alloc(), &mut words)?);
                Ok(())
            }
            "window" => push_window(&mut self.given, &mut words),
            "name" => push_name(&mut self.given, &mut words),
            _ => match &mut self.scenario {
                Some(scenario) => scenario.extend(rt.alloc(), head, &mut words),
                None => Err(anyhow!("no walk has begun")),
            },
        }
    }

    fn take(&mut self, rt: &HostRuntime, line: &str) -> anyhow::Result<()> {
        if line.starts_with('#') {
            return Ok(());
        }
        if line.starts_with('=') {
            writeln!(self.expected, "{line}")?;
            return Ok(());
        }
        self.ask(rt, line)
    }
}

// Prints lines under a heading.
fn show(rt: &HostRuntime, heading: &str, lines: &str) -> anyhow::Result<()> {
    print!(rt; "{heading}\n{lines}")?;
    Ok(())
}

// Adds the window that follows the one which the words name.
fn push_window(text: &mut String, words: &mut SplitWhitespace<'_>) -> anyhow::Result<()> {
    let stateless = match words.next() {
        Some("stateless") => true,
        Some("stateful") => false,
        _ => bail!("no such transport"),
    };
    let previous = match word(words, "a size")? {
        "none" => None,
        size => Some(size.parse()?),
    };
    at_end(words)?;
    match window_size(stateless, previous) {
        Ok(size) => write!(text, "= {size}")?,
        Err(denial) => push_denial(text, denial)?,
    }
    text.push_str("\n")?;
    Ok(())
}

// Adds the number of the negotiator that the word names.
fn push_name(text: &mut String, words: &mut SplitWhitespace<'_>) -> anyhow::Result<()> {
    let name = word(words, "a name")?;
    at_end(words)?;
    match name.parse::<Algorithm>() {
        Ok(algorithm) => write!(text, "= {}", u8::from(algorithm))?,
        Err(denial) => push_denial(text, denial)?,
    }
    text.push_str("\n")?;
    Ok(())
}

fn main(rt: HostRuntime) -> anyhow::Result<()> {
    let mut mode = Mode::Print;
    for word in env::args(&rt)?.skip(1) {
        ensure!(word.as_str() == "replay", "the argument is replay, or none");
        mode = Mode::Replay;
    }
    let mut session = Session::new(rt.alloc(), mode);
    let lines = BufReader::new(rt.alloc(), rt.stdin())?.lines(rt.alloc());
    for (number, line) in (1u64..).zip(lines) {
        session
            .take(&rt, line?.as_str())
            .map_err(|error| anyhow!("line {number}: {error}"))?;
    }
    session.finish(&rt)?;
    if let Mode::Replay = mode {
        println!(rt;
            "{} scenarios, {} differences",
            session.played, session.different
        )?;
    }
    Ok(())
}

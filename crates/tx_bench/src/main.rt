//! Drives the manager with seeded work, so that the script `bench` can time it. Its three words are
//! a workload, about how many lines it has, and how often it is run; it prints how many lines the
//! manager answered. Or they are how pairs of transactions that wait lie, how many there are, and
//! how often they are searched; it prints how many searches found a victim.
#![tactic(auto)]

mod driver;
mod paths;
mod search;
mod work;

use search::{Shape, search};
use std::alloc::Global;
use std::process::ExitCode;
use std::{env, io};
use work::{Workload, run};

/// The exit status where a word is missing or means nothing.
const MISUSED: u8 = 2;

/// What is run.
#[derive(Clone, Copy, Debug, PartialEq, Eq)]
enum Task {
    Lines(Workload),
    Searches(Shape),
}

/// The exit status where the manager refused what a workload asks, or memory ran out.
const FAILED: u8 = 1;

fn main(rt: HostRuntime) -> ExitCode {
    let Ok(words) = words_of(&rt) else {
        return ExitCode::from(MISUSED);
    };
    let Some((task, size, rounds)) = task_of(words.as_slice()) else {
        let _ = rt.eprintln(
            "usage: tx_bench WORKLOAD LINES ROUNDS, or tx_bench SHAPE PAIRS ROUNDS",
        );
        return ExitCode::from(MISUSED);
    };
    let (counted, unit) = match task {
        Task::Lines(workload) => (lines_of(rt.alloc(), workload, size, rounds), "lines"),
        Task::Searches(shape) => (found_of(rt.alloc(), shape, size, rounds), "found"),
    };
    match counted {
        Some(count) => {
            let _ = println!(rt; "{count} {unit}");
            ExitCode::from(0)
        }
        None => ExitCode::from(FAILED),
    }
}

// The words after the program's name.
fn words_of(rt: &HostRuntime) -> io::Result<Vec<String>> {
    let mut words = Vec::new(rt.alloc());
    for word in env::args(rt)?.skip(1) {
        words.push(word)?;
    }
    Ok(words)
}

// What is run by this name.
fn task_named(name: &str) -> Option<Task> {
    if let Some(workload) = Workload::named(name) {
        Some(Task::Lines(workload))
    } else {
        Some(Task::Searches(Shape::named(name)?))
    }
}

// What the words ask for.
fn task_of(words: &[String]) -> Option<(Task, u32, u32)> {
    let task = task_named(words.get(0)?.as_str())?;
    let size = words.get(1)?.as_str().parse().ok()?;
    let rounds = words.get(2)?.as_str().parse().ok()?;
    Some((task, size, rounds))
}

// How many lines were answered in all rounds, each over a manager of its own.
fn lines_of(alloc: Global, workload: Workload, size: u32, rounds: u32) -> Option<u64> {
    let mut lines: u64 = 0;
    for round in 0..rounds {
        let answered = run(alloc, workload, size, round as u64)?;
        lines = lines.saturating_add(answered as u64);
    }
    Some(lines)
}

// How many of the searches found a victim.
fn found_of(alloc: Global, shape: Shape, size: u32, rounds: u32) -> Option<u64> {
    Some(search(alloc, shape, size, rounds)? as u64)
}

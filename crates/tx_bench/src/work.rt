//! The workloads. Each has about as many lines as asked for, and scales by the number of its
//! transactions.
ghost use Rattle.std.specs.Prelude.{◌<◌};

use crate::driver::Driver;
use crate::paths::{key_of, name_of};
use rand_core::utils::NextWord;
use rand_pcg::Pcg32;
use serial_spec::{MOST_KEYS, Op};
use std::alloc::Global;
use txn_names::Name;

/// What the manager is asked.
#[derive(Clone, Copy, Debug, PartialEq, Eq)]
pub enum Workload {
    /// Top-level transactions of 14 accesses each, one after another.
    Small,
    /// One transaction that goes over all keys that may be known again and again.
    Wide,
    /// One parent, and its children of 14 accesses each, one after another.
    Children,
    /// Trees of depth 8, with 14 accesses in each transaction; every fourth one below the top is
    /// aborted.
    Deep,
    /// Top-level transactions that read the same 16 keys, all begun before the first commits.
    Readers,
    /// Groups of 64 top-level transactions that wait behind each other in a chain, which is closed
    /// to a cycle again and again: the last of them is a victim each time, until one is left.
    Waits,
}

// The most keys that may be known.
const KEYS: u32 = MOST_KEYS as u32;

/// The accesses of one transaction.
const ACCESSES: u32 = 14;

/// The lines of such a transaction: it begins and ends besides.
const LINES: u32 = ACCESSES + 2;

/// The depth of a tree.
const DEPTH: usize = 8;

/// How many wait behind each other.
const GROUP: u32 = 64;

/// The accesses of each of them to keys that nobody else asks for.
const OWN: u32 = 11;

impl Workload {
    /// The workload of this name.
    pub fn named(name: &str) -> Option<Workload> {
        match name {
            "small" => Some(Workload::Small),
            "wide" => Some(Workload::Wide),
            "children" => Some(Workload::Children),
            "deep" => Some(Workload::Deep),
            "readers" => Some(Workload::Readers),
            "waits" => Some(Workload::Waits),
            _ => None,
        }
    }
}

/// Runs the workload once, by this seed, and tells how many lines were answered. `None` where a
/// line was not done.
pub fn run(alloc: Global, workload: Workload, size: u32, seed: u64) -> Option<u32> {
    // One place where the driver is dropped: each further one is proved anew.
    match Driver::open(alloc) {
        Some(mut driver) => {
            let done = serve(&mut driver, workload, size, seed).is_some();
            let lines = driver.lines();
            if done { Some(lines) } else { None }
        }
        None => None,
    }
}

fn serve(driver: &mut Driver, workload: Workload, size: u32, seed: u64) -> Option<()> {
    let mut random = Pcg32::new(seed, 54);
    match workload {
        Workload::Small => small(driver, &mut random, size / LINES),
        Workload::Wide => wide(driver, size),
        Workload::Children => children(driver, &mut random, size / 1024 * 63),
        Workload::Deep => deep(driver, &mut random, size / (LINES * 8)),
        Workload::Readers => readers(driver, size / 1024 * 62),
        Workload::Waits => waits(driver, size / (GROUP * LINES)),
    }
}

// Reads one key and adds to the next.
fn access(driver: &mut Driver, name: &Name, key: u32, turn: u32) -> Option<()> {
    let op = if turn % 2 == 0 { Op::Get } else { Op::Add(1) };
    driver.access(name, &key_of(key)?, op)
}

// The accesses of one transaction, at random among so many keys.
fn accesses(driver: &mut Driver, random: &mut Pcg32, name: &Name, keys: u32) -> Option<()>
    requires { 0 < keys }
{
    for turn in 0..ACCESSES {
        access(driver, name, random.next_word() % keys, turn)?;
    }
    Some(())
}

fn small(driver: &mut Driver, random: &mut Pcg32, count: u32) -> Option<()> {
    for number in 0..count {
        let name = name_of(&[number])?;
        driver.begin(&name)?;
        accesses(driver, random, &name, 1024)?;
        driver.commit(&name)?;
    }
    Some(())
}

fn wide(driver: &mut Driver, size: u32) -> Option<()> {
    let name = name_of(&[0])?;
    driver.begin(&name)?;
    for turn in 0..size {
        access(driver, &name, turn % KEYS, turn)?;
    }
    driver.commit(&name)
}

fn children(driver: &mut Driver, random: &mut Pcg32, count: u32) -> Option<()> {
    let parent = name_of(&[0])?;
    driver.begin(&parent)?;
    for number in 0..count {
        let child = name_of(&[0, number])?;
        driver.begin(&child)?;
        accesses(driver, random, &child, 1024)?;
        driver.commit(&child)?;
    }
    driver.commit(&parent)
}

fn deep(driver: &mut Driver, random: &mut Pcg32, trees: u32) -> Option<()> {
    let mut ended: u32 = 0;
    for tree in 0..trees {
        let path = [tree, 0, 0, 0, 0, 0, 0, 0];
        for depth in 1..DEPTH + 1 {
            let name = name_of(&path[..depth])?;
            driver.begin(&name)?;
            accesses(driver, random, &name, KEYS)?;
        }
        for above in 0..DEPTH {
            let name = name_of(&path[..DEPTH - above])?;
            ended = ended.wrapping_add(1);
            if ended % 4 == 0 && above + 1 < DEPTH {
                driver.abort(&name)?;
            } else {
                driver.commit(&name)?;
            }
        }
    }
    Some(())
}

fn readers(driver: &mut Driver, count: u32) -> Option<()> {
    for number in 0..count {
        let name = name_of(&[number])?;
        driver.begin(&name)?;
        for key in 0..16 {
            driver.access(&name, &key_of(key)?, Op::Get)?;
        }
    }
    for number in 0..count {
        driver.commit(&name_of(&[number])?)?;
    }
    Some(())
}

// The name of a member of a group.
fn member_of(group: u32, member: u32) -> Option<Name> {
    name_of(&[group.wrapping_mul(GROUP).wrapping_add(member)])
}

// Waits for the member that holds this key.
fn wait_for(driver: &mut Driver, group: u32, member: u32, key: u32) -> Option<()> {
    driver.wait(&member_of(group, member)?, &key_of(key)?, Op::Add(1))
}

// Each begins, goes over keys of its own, and writes the key that the one before it will wait for.
fn begin_group(driver: &mut Driver, group: u32) -> Option<()> {
    for member in 0..GROUP {
        let name = member_of(group, member)?;
        driver.begin(&name)?;
        for turn in 0..OWN {
            access(driver, &name, GROUP + member * OWN + turn, turn)?;
        }
        driver.access(&name, &key_of(member)?, Op::Add(1))?;
    }
    Some(())
}

// Each waits for the next one, which waits already unless it is the last.
fn chain_group(driver: &mut Driver, group: u32) -> Option<()> {
    for turn in 2..GROUP + 1 {
        let member = GROUP - turn;
        wait_for(driver, group, member, member + 1)?;
    }
    Some(())
}

// The last one waits for the first, and is the victim. The one before it goes on, and is the last
// one then.
fn break_group(driver: &mut Driver, group: u32) -> Option<()> {
    for turn in 1..GROUP {
        let last = GROUP - turn;
        wait_for(driver, group, last, 0)?;
        driver.retry(&member_of(group, last - 1)?)?;
        driver.commit_victim(&member_of(group, last)?)?;
    }
    driver.commit(&member_of(group, 0)?)
}

fn waits(driver: &mut Driver, groups: u32) -> Option<()> {
    for group in 0..groups {
        begin_group(driver, group)?;
        chain_group(driver, group)?;
        break_group(driver, group)?;
    }
    Some(())
}

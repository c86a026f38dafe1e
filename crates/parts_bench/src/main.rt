//! Times searches of a region's parts and copies of its values. The words are what is timed, two sizes, and how often it
//! is done; with no words each is done a few times in a small region, and no time is written. `bench/parts` runs it.
#![tactic(auto)]

mod blocks;
mod region;
mod table;

use crate::blocks::Blocks;
use crate::table::Table;
use std::alloc::Global;
use std::process::ExitCode;
use std::time::Instant;
use std::{env, io};
use uw_base::Memory;

// What the words ask for.
#[derive(Clone, Copy)]
struct Load {
    size: u64,
    part: u64,
    turns: u64,
    timed: bool,
}

// Keys of a table of so many items, found in a scattered order, or so many of them again and again.
#[derive(Clone, Copy)]
enum Finds {
    Scattered,
    Near,
}

// A number that has no common factor with a power of ten.
const STRIDE: u64 = 618_033;

// The blocks that are marked at a time.
const MARKED: u64 = 65_536;

fn number_of(finds: Finds, load: &Load, turn: u64) -> u64 {
    let items = load.size.max(1);
    let part = load.part.max(1);
    match finds {
        Finds::Scattered => turn.wrapping_mul(STRIDE) % items,
        Finds::Near => (turn % part).wrapping_mul(items / part),
    }
}

// The sum of the items that are found.
fn found(table: &Table, finds: Finds, load: &Load) -> u64 {
    let mut sum: u64 = 0;
    for turn in 0..load.turns {
        let item = table.find(number_of(finds, load, turn)).unwrap_or(u64::MAX);
        sum = sum.wrapping_add(item);
    }
    sum
}

fn table_of(alloc: Global, items: u64) -> Result<Table, Memory> {
    let mut table = Table::new(alloc, items)?;
    for _ in 0..items {
        if !table.add() {
            break;
        }
    }
    Ok(table)
}

// The sum of the blocks at which a run of so many begins.
fn runs(blocks: &Blocks, load: &Load) -> u64 {
    let mut sum: u64 = 0;
    for _ in 0..load.turns {
        sum = sum.wrapping_add(blocks.first_run(load.part).unwrap_or(u64::MAX));
    }
    sum
}

// Blocks of which all but the last ones are marked.
fn full_blocks(alloc: Global, load: &Load) -> Result<Blocks, Memory> {
    let mut blocks = Blocks::new(alloc, load.size, MARKED / 64 + 2)?;
    let full = load.size.saturating_sub(load.part);
    for k in 0..full.div_ceil(MARKED) {
        let first = MARKED.wrapping_mul(k);
        blocks.mark(first, full.saturating_sub(first).min(MARKED));
    }
    Ok(blocks)
}

// How often a value was planned.
fn planned(blocks: &mut Blocks, value: &[u8], turns: u64) -> u64 {
    let mut sum: u64 = 0;
    for _ in 0..turns {
        if blocks.plan_value(value) {
            sum = sum.wrapping_add(1);
        }
    }
    sum
}

// The bytes of the values that are read.
fn read(alloc: Global, blocks: &Blocks, turns: u64) -> u64 {
    let mut sum: u64 = 0;
    for _ in 0..turns {
        if let Some(value) = blocks.value(alloc) {
            sum = sum.wrapping_add(value.as_slice().len() as u64);
        }
    }
    sum
}

// Prints what came, and how many seconds it took where times are asked for.
fn print(rt: &HostRuntime, name: &str, begin: Instant, load: &Load, sum: u64) -> io::Result<()> {
    let passed = begin.elapsed(rt)?;
    if load.timed {
        let seconds = passed.as_secs_f64();
        println!(rt; "{name} {seconds} {sum}")
    } else {
        println!(rt; "{name} {sum}")
    }
}

fn report_finds(rt: &HostRuntime, load: &Load) -> io::Result<()> {
    let Ok(table) = table_of(rt.alloc(), load.size) else {
        return Ok(());
    };
    let begin = Instant::now(rt)?;
    let sum = found(&table, Finds::Scattered, load);
    print(rt, "scattered", begin, load, sum)?;
    let begin = Instant::now(rt)?;
    let sum = found(&table, Finds::Near, load);
    print(rt, "near", begin, load, sum)
}

fn report_runs(rt: &HostRuntime, load: &Load) -> io::Result<()> {
    let Ok(blocks) = full_blocks(rt.alloc(), load) else {
        return Ok(());
    };
    let begin = Instant::now(rt)?;
    let sum = runs(&blocks, load);
    print(rt, "run", begin, load, sum)
}

fn report_values(rt: &HostRuntime, load: &Load) -> io::Result<()> {
    let words = load.size.div_ceil(8);
    let Ok(mut blocks) = Blocks::new(rt.alloc(), words, words.saturating_add(3)) else {
        return Ok(());
    };
    let Ok(value) = vec![in rt.alloc(); 7u8; load.size as usize] else {
        return Ok(());
    };
    let begin = Instant::now(rt)?;
    let sum = planned(&mut blocks, &value, load.turns);
    print(rt, "put", begin, load, sum)?;
    blocks.write_value(&value);
    let begin = Instant::now(rt)?;
    let sum = read(rt.alloc(), &blocks, load.turns);
    print(rt, "read", begin, load, sum)
}

// A few of each, without times.
fn report_few(rt: &HostRuntime) -> io::Result<()> {
    let few = |size: u64, part: u64| Load {
        size,
        part,
        turns: size,
        timed: false,
    };
    report_finds(rt, &few(100, 7))?;
    report_runs(rt, &few(200, 65))?;
    report_values(rt, &few(20, 0))
}

fn report(rt: &HostRuntime, words: &[String]) -> Option<io::Result<()>> {
    if words.len() < 5 {
        return Some(report_few(rt));
    }
    let load = Load {
        size: words[2].parse::<u64>().ok()?,
        part: words[3].parse::<u64>().ok()?,
        turns: words[4].parse::<u64>().ok()?,
        timed: true,
    };
    match words[1].as_str() {
        "finds" => Some(report_finds(rt, &load)),
        "runs" => Some(report_runs(rt, &load)),
        "values" => Some(report_values(rt, &load)),
        _ => None,
    }
}

fn main(rt: HostRuntime) -> io::Result<ExitCode> {
    let words = env::args(&rt)?.collect::<Vec<String>>(rt.alloc())?;
    match report(&rt, &words) {
        Some(outcome) => {
            outcome?;
            Ok(ExitCode::SUCCESS)
        }
        None => Ok(ExitCode::FAILURE),
    }
}

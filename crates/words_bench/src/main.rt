//! Times plans of word writes. The words are the room of a plan, the number of its words, and how often each is done;
//! with no words a plan of three in a room of ten is done twice, and no time is written. `bench/words` runs it.
#![tactic(auto)]

mod region;

use crate::region::{FEW, MANY, Region, STRIDE};
use std::alloc::Global;
use std::process::ExitCode;
use std::time::Instant;
use std::{env, io};
use uw_base::Memory;

// What the words ask for.
#[derive(Clone, Copy)]
struct Load {
    room: u64,
    words: u64,
    turns: u64,
    timed: bool,
}

const SMALL: Load = Load {
    room: 10,
    words: 3,
    turns: 2,
    timed: false,
};

// What is timed. Words are read along links, or at many places or few that follow from no word; each through the plan,
// too, which names none of them.
#[derive(Clone, Copy)]
enum Work {
    Links,
    LinksThrough,
    Many,
    ManyThrough,
    Few,
    FewThrough,
    Clear,
    Plan,
    Commit,
    Recover,
}

const WORKS: [(Work, &str); 10] = [
    (Work::Links, "links"),
    (Work::LinksThrough, "links_through"),
    (Work::Many, "many"),
    (Work::ManyThrough, "many_through"),
    (Work::Few, "few"),
    (Work::FewThrough, "few_through"),
    (Work::Clear, "clear"),
    (Work::Plan, "plan"),
    (Work::Commit, "commit"),
    (Work::Recover, "recover"),
];

// How many words a turn of reading reads.
const READS: u64 = 400;

fn put_words(region: &mut Region, words: u64, first: u64) {
    for k in 0..words {
        region.put(first.wrapping_add(k), k);
    }
}

fn planned_words(region: &Region, words: u64, first: u64) -> u64 {
    let mut sum: u64 = 0;
    for k in 0..words {
        sum = sum.wrapping_add(region.planned(first.wrapping_add(k)));
    }
    sum
}

// One turn of a work: a sum of the words that it read.
fn turn(
    alloc: Global,
    work: Work,
    region: &mut Region,
    words: u64,
    number: u64,
) -> Result<u64, Memory> {
    let first = number.wrapping_mul(words);
    let start = number.wrapping_mul(READS).wrapping_mul(STRIDE);
    match work {
        Work::Links => Ok(region.follow(start, READS)),
        Work::LinksThrough => Ok(region.follow_through(start, READS)),
        Work::Many => Ok(region.sum::<MANY>(start, READS / 4)),
        Work::ManyThrough => Ok(region.sum_through::<MANY>(start, READS / 4)),
        Work::Few => Ok(region.sum::<FEW>(start, READS / 4)),
        Work::FewThrough => Ok(region.sum_through::<FEW>(start, READS / 4)),
        Work::Clear => {
            region.clear();
            put_words(region, words, first);
            Ok(0)
        }
        Work::Plan => {
            region.clear();
            put_words(region, words, first);
            Ok(planned_words(region, words, first))
        }
        Work::Commit => {
            region.clear();
            put_words(region, words, first);
            let sum = planned_words(region, words, first);
            region.commit();
            Ok(sum)
        }
        Work::Recover => {
            region.clear();
            put_words(region, words, first);
            let sum = planned_words(region, words, first);
            region.recover(alloc)?;
            Ok(sum)
        }
    }
}

fn turns(alloc: Global, work: Work, region: &mut Region, load: Load) -> Result<u64, Memory> {
    region.clear();
    put_words(region, load.words, 0);
    let mut sum: u64 = 0;
    for number in 0..load.turns {
        sum = sum.wrapping_add(turn(alloc, work, region, load.words, number)?);
    }
    Ok(sum)
}

// Does a work as often as asked, and prints what it read, and the nanoseconds of a turn where times are asked for.
fn report(
    rt: &HostRuntime,
    name: &str,
    work: Work,
    region: &mut Region,
    load: Load,
) -> io::Result<()> {
    let begin = Instant::now(rt)?;
    let sum = turns(rt.alloc(), work, region, load).unwrap_or(0);
    let passed = begin.elapsed(rt)?;
    if load.timed {
        let seconds = passed.as_secs_f64();
        println!(rt; "{name} {seconds} {sum}")
    } else {
        println!(rt; "{name} {sum}")
    }
}

fn load_of(rt: &HostRuntime, alloc: Global) -> Option<Load> {
    let words = env::args(rt).ok()?.collect::<Vec<String>>(alloc).ok()?;
    if words.len() < 4 {
        return Some(SMALL);
    }
    Some(Load {
        room: words.get(1)?.parse::<u64>().ok()?,
        words: words.get(2)?.parse::<u64>().ok()?,
        turns: words.get(3)?.parse::<u64>().ok()?,
        timed: true,
    })
}

fn main(rt: HostRuntime) -> io::Result<ExitCode> {
    let alloc = rt.alloc();
    let Some(load) = load_of(&rt, alloc) else {
        return Ok(ExitCode::FAILURE);
    };
    let Ok(mut region) = Region::new(alloc, load.room) else {
        return Ok(ExitCode::FAILURE);
    };
    for (work, name) in WORKS {
        report(&rt, name, work, &mut region, load)?;
    }
    Ok(ExitCode::SUCCESS)
}

//! Times calls of a cache on a region: each is planned and committed. The words are what is timed, how many items the
//! cache has, and how often it is done; with no words a few of each are done in small caches, and no time is written.
//! `bench/plan` runs it.
#![tactic(auto)]

mod cache;

ghost use Rattle.uw_model.specs.Entries.{IsCacheConf};

use crate::cache::Cache;
use std::alloc::Global;
use std::process::ExitCode;
use std::time::Instant;
use std::{env, io};
use uw_base::{Bytes, Memory};
use uw_model::{CacheConf, Call};

// What the words ask for.
#[derive(Clone, Copy)]
struct Load {
    items: u64,
    turns: u64,
    timed: bool,
}

// What is called.
#[derive(Clone, Copy)]
enum What {
    Get,
    Set(usize),
    Update(usize),
    Del,
}

// How many keys are called again and again.
const NEAR: u64 = 200;

// The bytes of a value of a hundred blocks.
const HUNDRED: usize = 800;

fn conf_of(alloc: Global, items: u64, bitmap: bool, purge_lru: bool) -> CacheConf
    ensures { IsCacheConf result }
{
    let items = items.clamp(1, 1_048_576);
    CacheConf {
        name: Bytes::new(alloc),
        items,
        blocksize: 8,
        blocks: items,
        keysize: 8,
        chains: items,
        bitmap,
        purge_lru,
        sweep_on_full: false,
        clear_on_full: false,
    }
}

// The call of the key of a number, with a value of so many bytes.
fn call_of(alloc: Global, what: What, number: u64) -> Result<Call, Memory> {
    let key = Bytes::from_slice(
        alloc,
        &number.wrapping_mul(0x9E37_79B9_7F4A_7C15).to_le_bytes(),
    )?;
    let bytes = |length: usize| Bytes::from_slice(alloc, &[7; HUNDRED][..length.min(HUNDRED)]);
    Ok(match what {
        What::Get => Call::Get { key },
        What::Set(length) => {
            let value = bytes(length)?;
            Call::Set { key, value, ttl: 0 }
        }
        What::Update(length) => {
            let value = bytes(length)?;
            Call::Update { key, value, ttl: 0 }
        }
        What::Del => Call::Del { key },
    })
}

// The calls of so many keys from a first one on.
fn calls_of(alloc: Global, what: What, first: u64, count: u64) -> Result<Vec<Call>, Memory> {
    let mut calls = Vec::new(alloc);
    for k in 0..count {
        calls.push(call_of(alloc, what, first.wrapping_add(k))?)?;
    }
    Ok(calls)
}

// So many keys that go and come again, one after the other.
fn pairs_of(alloc: Global, count: u64) -> Result<Vec<Call>, Memory> {
    let mut calls = Vec::new(alloc);
    for k in 0..count {
        calls.push(call_of(alloc, What::Del, k)?)?;
        calls.push(call_of(alloc, What::Set(8), k)?)?;
    }
    Ok(calls)
}

// How many of so many calls were done: these, one after the other, again and again.
fn done(cache: &mut Cache, calls: &[Call], turns: u64) -> u64 {
    let mut sum: u64 = 0;
    if calls.is_empty() {
        return sum;
    }
    for turn in 0..turns {
        let at = turn as usize % calls.len();
        if cache.call(&calls[at]) {
            sum = sum.wrapping_add(1);
        }
    }
    sum
}

fn print(rt: &HostRuntime, name: &str, begin: Instant, load: &Load, sum: u64) -> io::Result<()> {
    let passed = begin.elapsed(rt)?;
    if load.timed {
        let seconds = passed.as_secs_f64();
        println!(rt; "{name} {seconds} {sum}")
    } else {
        println!(rt; "{name} {sum}")
    }
}

// Each of the calls once, or so many of them, timed.
fn report(
    rt: &HostRuntime,
    name: &str,
    cache: &mut Cache,
    calls: &[Call],
    load: &Load,
) -> io::Result<()> {
    let begin = Instant::now(rt)?;
    let sum = done(cache, calls, load.turns);
    print(rt, name, begin, load, sum)
}

// A cache of so many items, of which so many are in use, each in one block.
fn cache_of(alloc: Global, load: &Load, used: u64, bitmap: bool) -> Result<Cache, Memory> {
    let mut cache = Cache::new(alloc, conf_of(alloc, load.items, bitmap, true))?;
    for k in 0..used {
        cache.call(&call_of(alloc, What::Set(8), k)?);
    }
    Ok(cache)
}

// A few keys in a cache that has room: gets, updates, and dels each with a set behind it.
fn report_few(rt: &HostRuntime, load: &Load) -> io::Result<()> {
    let alloc = rt.alloc();
    let (Ok(gets), Ok(updates), Ok(pairs), Ok(mut cache)) = (
        calls_of(alloc, What::Get, 0, NEAR),
        calls_of(alloc, What::Update(8), 0, NEAR),
        pairs_of(alloc, NEAR),
        cache_of(alloc, load, NEAR, false),
    ) else {
        return Ok(());
    };
    report(rt, "get", &mut cache, &gets, load)?;
    report(rt, "update", &mut cache, &updates, load)?;
    report(rt, "pair", &mut cache, &pairs, load)
}

// A cache in which each item is in use: an update of its keys, and sets of new ones, each of which purges one.
fn report_full(rt: &HostRuntime, load: &Load) -> io::Result<()> {
    let alloc = rt.alloc();
    let (Ok(updates), Ok(sets), Ok(mut cache)) = (
        calls_of(alloc, What::Update(8), 0, NEAR),
        calls_of(alloc, What::Set(8), load.items, load.turns),
        cache_of(alloc, load, load.items, false),
    ) else {
        return Ok(());
    };
    report(rt, "update", &mut cache, &updates, load)?;
    report(rt, "set", &mut cache, &sets, load)
}

// A full cache of blocks: a set of a hundred blocks, which purges a hundred, and dels of a hundred.
fn report_hundred(rt: &HostRuntime, load: &Load) -> io::Result<()> {
    let alloc = rt.alloc();
    let (Ok(dels), Ok(sets), Ok(mut cache)) = (
        calls_of(
            alloc,
            What::Del,
            load.items / 2,
            load.turns.saturating_mul(100),
        ),
        calls_of(alloc, What::Set(HUNDRED), load.items, load.turns),
        cache_of(alloc, load, load.items, true),
    ) else {
        return Ok(());
    };
    report(rt, "set", &mut cache, &sets, load)?;
    let hundred = Load {
        turns: load.turns.saturating_mul(100),
        ..*load
    };
    report(rt, "del", &mut cache, &dels, &hundred)
}

// A full cache is cleared, once.
fn report_clear(rt: &HostRuntime, load: &Load) -> io::Result<()> {
    let Ok(mut cache) = cache_of(rt.alloc(), load, load.items, false) else {
        return Ok(());
    };
    let once = Load { turns: 1, ..*load };
    report(rt, "clear", &mut cache, &[Call::Clear], &once)
}

// A few of each, without times.
fn report_all(rt: &HostRuntime) -> io::Result<()> {
    let few = |items: u64, turns: u64| Load {
        items,
        turns,
        timed: false,
    };
    report_few(rt, &few(500, 300))?;
    report_full(rt, &few(300, 100))?;
    report_hundred(rt, &few(1000, 3))?;
    report_clear(rt, &few(300, 1))
}

fn asked(rt: &HostRuntime, words: &[String]) -> Option<io::Result<()>> {
    if words.len() < 4 {
        return Some(report_all(rt));
    }
    let load = Load {
        items: words[2].parse::<u64>().ok()?,
        turns: words[3].parse::<u64>().ok()?,
        timed: true,
    };
    match words[1].as_str() {
        "few" => Some(report_few(rt, &load)),
        "full" => Some(report_full(rt, &load)),
        "hundred" => Some(report_hundred(rt, &load)),
        "clear" => Some(report_clear(rt, &load)),
        _ => None,
    }
}

fn main(rt: HostRuntime) -> io::Result<ExitCode> {
    let words = env::args(&rt)?.collect::<Vec<String>>(rt.alloc())?;
    match asked(&rt, &words) {
        Some(outcome) => {
            outcome?;
            Ok(ExitCode::SUCCESS)
        }
        None => Ok(ExitCode::FAILURE),
    }
}

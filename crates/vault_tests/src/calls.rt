// Calls on a cache of six blocks, as a region and as a plain list.
ghost use Rattle.std.specs.Prelude.{◌≡◌, true, IfOk};
ghost use Rattle.uw_model.specs.Entries.{IsCacheConf};

use std::alloc::Global;
use uw_base::{Bytes, Memory};
use uw_cache::Vault;
use uw_intent::{CallFault, recovered_call};
use uw_model::{Answer, CacheConf, Call, ListCache};
use uw_outside::{Fuse, Immortal};

/// What is called.
#[derive(Clone, Copy)]
pub enum What {
    Get(&'static [u8]),
    Set(&'static [u8], &'static [u8], u64),
    Update(&'static [u8], &'static [u8], u64),
    Del(&'static [u8]),
    Clear,
    Keys,
    Sweep,
}

pub fn call_of(alloc: Global, what: What) -> Result<Call, Memory> {
    Ok(match what {
        What::Get(key) => Call::Get {
            key: Bytes::from_slice(alloc, key)?,
        },
        What::Set(key, value, ttl) => Call::Set {
            key: Bytes::from_slice(alloc, key)?,
            value: Bytes::from_slice(alloc, value)?,
            ttl,
        },
        What::Update(key, value, ttl) => Call::Update {
            key: Bytes::from_slice(alloc, key)?,
            value: Bytes::from_slice(alloc, value)?,
            ttl,
        },
        What::Del(key) => Call::Del {
            key: Bytes::from_slice(alloc, key)?,
        },
        What::Clear => Call::Clear,
        What::Keys => Call::Keys,
        What::Sweep => Call::Sweep,
    })
}

/// Four entries, and six blocks of eight bytes. The least recent entries are purged where that is asked.
pub fn conf_of(alloc: Global, purges: bool) -> CacheConf
    ensures { IsCacheConf result }
{
    CacheConf {
        name: Bytes::new(alloc),
        items: 4,
        blocksize: 8,
        blocks: 6,
        keysize: 8,
        chains: 2,
        bitmap: true,
        purge_lru: purges,
        sweep_on_full: false,
        clear_on_full: false,
    }
}

/// A life that refuses its n-th write, counted from 1.
pub fn dies_at(alloc: Global, n: u64) -> Result<Fuse, Memory>
    ensures { IfOk result (λ fuse. fuse.alive ≡ true) }
{
    let mut numbers = Vec::new(alloc);
    if n > 0 {
        numbers.push(n)?;
    }
    Ok(Fuse::new(numbers))
}

/// What a region answers to one who does not die, behind the repair where one is pending.
pub fn ask(alloc: Global, vault: &mut Vault, moment: u64, what: What) -> Result<Answer, Memory> {
    let call = call_of(alloc, what)?;
    match recovered_call(alloc, vault, moment, &call, &mut Immortal::new()) {
        Ok(answer) => Ok(answer),
        Err(_) => Err(Memory),
    }
}

fn are_same_keys(keys: &[Bytes], others: &[Bytes]) -> bool {
    if keys.len() != others.len() {
        return false;
    }
    for at in 0..keys.len() {
        if keys[at].as_slice() != others[at].as_slice() {
            return false;
        }
    }
    true
}

fn are_same(answer: &Answer, other: &Answer) -> bool {
    match (answer, other) {
        (Answer::Value(value), Answer::Value(other)) => value.as_slice() == other.as_slice(),
        (Answer::Missing, Answer::Missing) => true,
        (Answer::Done, Answer::Done) => true,
        (Answer::Full, Answer::Full) => true,
        (Answer::Number(number), Answer::Number(other)) => number == other,
        (Answer::Keys(keys), Answer::Keys(others)) => {
            are_same_keys(keys.as_slice(), others.as_slice())
        }
        _ => false,
    }
}

/// What is read of a cache: its keys, and the values of four of them.
const READS: [What; 5] = [
    What::Keys,
    What::Get(b"a"),
    What::Get(b"b"),
    What::Get(b"c"),
    What::Get(b"d"),
];

/// A region and a plain list answer the same, and do so too when they are read.
pub fn are_twins(
    alloc: Global,
    vault: &mut Vault,
    list: &mut ListCache,
    moment: u64,
) -> Result<bool, Memory> {
    for what in READS.iter() {
        let answer = ask(alloc, vault, moment, *what)?;
        let other = list.call(alloc, moment, &call_of(alloc, *what)?)?;
        if !are_same(&answer, &other) {
            return Ok(false);
        }
    }
    Ok(true)
}

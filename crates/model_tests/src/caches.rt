// Worked examples: tables of calls of one cache, each with the answer that it must have. Those of the other commands and
// policies are run through the program's top call.
ghost use Rattle.uw_model.specs.Entries.{IsCacheConf};

use std::alloc::Global;
use std::process::Abort;
use std::test::Fail;
use uw_base::{Bytes, Memory};
use uw_model::{Answer, CacheConf, Call, ListCache, MathOp};

/// What is asked of a key. A value or a number is written to live for so many seconds, 0 for ever.
#[derive(Clone, Copy)]
enum Ask {
    Get,
    Set(&'static [u8], u64),
    Exists,
    Num,
    Math(MathOp, i64, u64),
    Sweep,
}

/// The answer that is wanted.
#[derive(Clone, Copy)]
enum Want {
    Value(&'static [u8]),
    Missing,
    Done,
    Exists,
    Full,
    KeyLength,
    TooLong,
    Number(i64),
    Flag(bool),
}

/// A call at a moment, with a key, and the answer that is wanted.
type Step = (u64, &'static [u8], Ask, Want);

/// The sizes of a cache: its entries, the bytes of a block divided by 8, the most bytes of a key, and its blocks. Where
/// no number of blocks is given it has as many as entries, and no bitmap.
#[derive(Clone, Copy)]
struct Sizes {
    items: u64,
    eights: u64,
    keysize: u64,
    blocks: Option<u64>,
}

/// The calls made on an empty cache.
#[derive(Clone, Copy)]
struct Case {
    name: &'static str,
    sizes: Sizes,
    sweep_on_full: bool,
    steps: &'static [Step],
}

const CASES: [Case; 4] = [
    Case {
        name: "a set and a get; short and long keys; a value too long",
        sizes: Sizes {
            items: 4,
            eights: 1,
            keysize: 4,
            blocks: None,
        },
        sweep_on_full: false,
        steps: &[
            (10, b"k", Ask::Get, Want::Missing),
            (10, b"k", Ask::Set(b"v", 0), Want::Done),
            (10, b"k", Ask::Get, Want::Value(b"v")),
            (10, b"k", Ask::Set(b"w", 0), Want::Exists),
            (99, b"k", Ask::Get, Want::Value(b"v")),
            (10, b"", Ask::Set(b"v", 0), Want::KeyLength),
            (10, b"four", Ask::Set(b"v", 0), Want::Done),
            (10, b"fives", Ask::Set(b"v", 0), Want::KeyLength),
            (10, b"", Ask::Get, Want::KeyLength),
            (10, b"fives", Ask::Get, Want::KeyLength),
            (10, b"long", Ask::Set(b"12345678", 0), Want::Done),
            (10, b"long", Ask::Set(b"123456789", 0), Want::TooLong),
            (10, b"fives", Ask::Set(b"123456789", 0), Want::KeyLength),
            (10, b"none", Ask::Set(b"", 0), Want::Done),
            (10, b"none", Ask::Get, Want::Value(b"")),
            (10, b"more", Ask::Set(b"v", 0), Want::Full),
            (10, b"more", Ask::Get, Want::Missing),
        ],
    },
    Case {
        name: "expiry at the very moment",
        sizes: Sizes {
            items: 4,
            eights: 8,
            keysize: 2048,
            blocks: None,
        },
        sweep_on_full: false,
        steps: &[
            (10, b"k", Ask::Set(b"a", 10), Want::Done),
            (15, b"k", Ask::Set(b"b", 10), Want::Exists),
            (20, b"k", Ask::Set(b"c", 10), Want::Done),
            (31, b"k", Ask::Set(b"d", 10), Want::Done),
            (10, b"l", Ask::Set(b"e", u64::MAX), Want::Done),
            (u64::MAX - 1, b"l", Ask::Get, Want::Value(b"e")),
            (u64::MAX, b"l", Ask::Get, Want::Missing),
        ],
    },
    Case {
        name: "number calls",
        sizes: Sizes {
            items: 4,
            eights: 8,
            keysize: 2048,
            blocks: None,
        },
        sweep_on_full: false,
        steps: &[
            (10, b"n", Ask::Num, Want::Number(0)),
            (10, b"n", Ask::Math(MathOp::Dec, 7, 10), Want::Number(-7)),
            (10, b"n", Ask::Math(MathOp::Div, 2, 0), Want::Number(-3)),
            (10, b"n", Ask::Math(MathOp::Mul, -6, 0), Want::Number(18)),
            (19, b"n", Ask::Num, Want::Number(18)),
            (10, b"n", Ask::Get, Want::Value(&[18, 0, 0, 0, 0, 0, 0, 0])),
            (20, b"n", Ask::Num, Want::Number(0)),
            (20, b"", Ask::Sweep, Want::Number(1)),
            (10, b"n", Ask::Exists, Want::Flag(false)),
        ],
    },
    Case {
        name: "the least run, across old gaps",
        sizes: Sizes {
            items: 9,
            eights: 1,
            keysize: 2048,
            blocks: Some(7),
        },
        sweep_on_full: true,
        steps: &[
            (10, b"a", Ask::Set(b"nine byte", 5), Want::Done),
            (10, b"b", Ask::Set(b"nine byte", 5), Want::Done),
            (10, b"c", Ask::Set(b"1", 0), Want::Done),
            (10, b"d", Ask::Set(b"1", 0), Want::Done),
            (14, b"e", Ask::Set(b"seventeen bytes..", 0), Want::Full),
            (15, b"e", Ask::Set(b"seventeen bytes..", 0), Want::Done),
            (15, b"f", Ask::Set(b"1", 0), Want::Done),
            (15, b"g", Ask::Set(b"nine byte", 0), Want::Full),
            (15, b"g", Ask::Set(b"1", 0), Want::Done),
        ],
    },
];

/// Whether the answer is the one that is wanted.
fn agrees(answer: &Answer, want: &Want) -> bool {
    match (answer, want) {
        (Answer::Value(value), Want::Value(wanted)) => value.as_slice() == *wanted,
        (Answer::Missing, Want::Missing)
        | (Answer::Done, Want::Done)
        | (Answer::Exists, Want::Exists)
        | (Answer::Full, Want::Full)
        | (Answer::KeyLength, Want::KeyLength)
        | (Answer::TooLong, Want::TooLong) => true,
        (Answer::Number(number), Want::Number(wanted)) => number == wanted,
        (Answer::Flag(flag), Want::Flag(wanted)) => flag == wanted,
        _ => false,
    }
}

/// The configuration of a case.
fn conf_of(alloc: Global, case: &Case) -> CacheConf
    ensures { IsCacheConf result }
{
    let items = case.sizes.items.clamp(1, 1000);
    CacheConf {
        name: Bytes::new(alloc),
        items,
        blocksize: 8 * case.sizes.eights.clamp(1, 1000),
        blocks: case
            .sizes
            .blocks
            .map_or(items, |blocks| blocks.clamp(1, 1000)),
        keysize: case.sizes.keysize.clamp(1, 65_535),
        chains: 1,
        bitmap: case.sizes.blocks.is_some(),
        purge_lru: false,
        sweep_on_full: case.sweep_on_full,
        clear_on_full: false,
    }
}

/// The call that asks this of a key.
fn call_of(alloc: Global, key: &[u8], ask: Ask) -> Result<Call, Memory> {
    let key = Bytes::from_slice(alloc, key)?;
    Ok(match ask {
        Ask::Get => Call::Get { key },
        Ask::Set(value, ttl) => Call::Set {
            key,
            value: Bytes::from_slice(alloc, value)?,
            ttl,
        },
        Ask::Exists => Call::Exists { key },
        Ask::Num => Call::Num { key },
        Ask::Math(op, by, ttl) => Call::Math { op, key, by, ttl },
        Ask::Sweep => Call::Sweep,
    })
}

/// Makes the calls of a case on an empty cache, and compares their answers.
fn follow(rt: &impl Abort, alloc: Global, case: &Case) -> Result<(), Memory> {
    let name = case.name;
    let mut cache = ListCache::new(alloc, &conf_of(alloc, case))?;
    for (number, (moment, key, ask, want)) in case.steps.iter().enumerate() {
        let call = call_of(alloc, key, *ask)?;
        let answer = cache.call(alloc, *moment, &call)?;
        assert!(rt; agrees(&answer, want), "{name}, step {number}");
    }
    Ok(())
}

#[test]
fn calls_answer_as_in_the_worked_examples(rt: HostRuntime) -> Result<(), Fail> {
    for case in CASES.iter() {
        follow(&rt, rt.alloc(), case)?;
    }
    Ok(())
}

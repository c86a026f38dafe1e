// Each call of a cache on a region and on a plain list, side by side.
ghost use Rattle.plan_tests.specs.Twins.{AreTwins};

use crate::small::small_cache;
use crate::twins::Twin;
use std::alloc::Global;
use std::test::Fail;
use uw_base::{Bytes, Memory};
use uw_model::{Answer, CacheConf, Call, MathOp};

/// What is called.
#[derive(Clone, Copy)]
pub enum What {
    Get(&'static [u8]),
    Set(&'static [u8], &'static [u8], u64),
    Update(&'static [u8], &'static [u8], u64),
    Del(&'static [u8]),
    Exists(&'static [u8]),
    Clear,
    Num(&'static [u8]),
    Math(MathOp, &'static [u8], i64, u64),
    Keys,
    Sweep,
}

/// The answer that is wanted.
#[derive(Clone, Copy)]
pub enum Want {
    Value(&'static [u8]),
    Missing,
    Done,
    Exists,
    Full,
    KeyLength,
    TooLong,
    NotNumber,
    Range,
    ZeroDivisor,
    Number(i64),
    Flag(bool),
    Keys(&'static [&'static [u8]]),
}

fn call_of(alloc: Global, what: What) -> Result<Call, Memory> {
    Ok(match what {
        What::Get(key) => Call::Get {
            key: Bytes::from_slice(alloc, key)?,
        },
        What::Set(key, value, ttl) => Call::Set {
            key: Bytes::from_slice(alloc, key)?,
            value: Bytes::from_slice(alloc, value)?,
            ttl,
        },
        What::Update(key, value, ttl) => Call::Update {
            key: Bytes::from_slice(alloc, key)?,
            value: Bytes::from_slice(alloc, value)?,
            ttl,
        },
        What::Del(key) => Call::Del {
            key: Bytes::from_slice(alloc, key)?,
        },
        What::Exists(key) => Call::Exists {
            key: Bytes::from_slice(alloc, key)?,
        },
        What::Clear => Call::Clear,
        What::Num(key) => Call::Num {
            key: Bytes::from_slice(alloc, key)?,
        },
        What::Math(op, key, by, ttl) => Call::Math {
            op,
            key: Bytes::from_slice(alloc, key)?,
            by,
            ttl,
        },
        What::Keys => Call::Keys,
        What::Sweep => Call::Sweep,
    })
}

fn are_keys(keys: &[Bytes], wanted: &[&[u8]]) -> bool {
    if keys.len() != wanted.len() {
        return false;
    }
    for at in 0..keys.len() {
        if keys[at].as_slice() != wanted[at] {
            return false;
        }
    }
    true
}

fn is_wanted(answer: &Answer, want: Want) -> bool {
    match (answer, want) {
        (Answer::Value(value), Want::Value(wanted)) => value.as_slice() == wanted,
        (Answer::Missing, Want::Missing) => true,
        (Answer::Done, Want::Done) => true,
        (Answer::Exists, Want::Exists) => true,
        (Answer::Full, Want::Full) => true,
        (Answer::KeyLength, Want::KeyLength) => true,
        (Answer::TooLong, Want::TooLong) => true,
        (Answer::NotNumber, Want::NotNumber) => true,
        (Answer::Range, Want::Range) => true,
        (Answer::ZeroDivisor, Want::ZeroDivisor) => true,
        (Answer::Number(number), Want::Number(wanted)) => *number == wanted,
        (Answer::Flag(flag), Want::Flag(wanted)) => *flag == wanted,
        (Answer::Keys(keys), Want::Keys(wanted)) => are_keys(keys.as_slice(), wanted),
        _ => false,
    }
}

/// The number of the first row of which the answer of the region or that of the list is not the wanted one.
pub fn first_unwanted(
    alloc: Global,
    twin: &mut Twin,
    rows: &[(u64, What, Want)],
) -> Result<Option<usize>, Memory>
    requires { AreTwins twin.old }
{
    for row in 0..rows.len() {
        let (moment, what, want) = rows[row];
        let call = call_of(alloc, what)?;
        let (answer, other) = twin.call(alloc, moment, &call)?;
        if !is_wanted(&answer, want) || !is_wanted(&other, want) {
            return Ok(Some(row));
        }
    }
    Ok(None)
}

/// Each call with each of its answers but `Full`, in a cache of four blocks without a policy.
const ONE_BLOCK_EACH: &[(u64, What, Want)] = &[
    (10, What::Get(b"a"), Want::Missing),
    (10, What::Get(b""), Want::KeyLength),
    (10, What::Set(b"123456789", b"one", 0), Want::KeyLength),
    (10, What::Update(b"", b"one", 0), Want::KeyLength),
    (10, What::Del(b""), Want::KeyLength),
    (10, What::Exists(b"123456789"), Want::KeyLength),
    (10, What::Num(b""), Want::KeyLength),
    (10, What::Math(MathOp::Div, b"", 0, 0), Want::KeyLength),
    (10, What::Set(b"a", b"123456789", 0), Want::TooLong),
    (10, What::Update(b"a", b"123456789", 0), Want::TooLong),
    (10, What::Set(b"a", b"one", 0), Want::Done),
    (10, What::Set(b"a", b"two", 0), Want::Exists),
    (10, What::Get(b"a"), Want::Value(b"one")),
    // a life of five seconds, which ends at 15
    (10, What::Set(b"b", b"two", 5), Want::Done),
    (14, What::Get(b"b"), Want::Value(b"two")),
    (14, What::Keys, Want::Keys(&[b"b", b"a"])),
    (15, What::Get(b"b"), Want::Missing),
    (15, What::Exists(b"b"), Want::Flag(false)),
    (15, What::Exists(b"a"), Want::Flag(true)),
    (15, What::Del(b"b"), Want::Missing),
    (15, What::Keys, Want::Keys(&[b"a"])),
    (15, What::Set(b"b", b"new", 0), Want::Done),
    (15, What::Update(b"a", b"", 0), Want::Done),
    (15, What::Get(b"a"), Want::Value(b"")),
    (15, What::Keys, Want::Keys(&[b"a", b"b"])),
    // numbers
    (15, What::Num(b"a"), Want::NotNumber),
    (15, What::Math(MathOp::Inc, b"a", 1, 0), Want::NotNumber),
    (15, What::Num(b"c"), Want::Number(0)),
    (15, What::Math(MathOp::Inc, b"c", 5, 0), Want::Number(5)),
    (15, What::Math(MathOp::Mul, b"c", -3, 0), Want::Number(-15)),
    (15, What::Math(MathOp::Div, b"c", 4, 0), Want::Number(-3)),
    (15, What::Math(MathOp::Div, b"c", 0, 0), Want::ZeroDivisor),
    (15, What::Math(MathOp::Dec, b"c", 1, 0), Want::Number(-4)),
    (15, What::Math(MathOp::Dec, b"c", i64::MAX, 0), Want::Range),
    (15, What::Num(b"c"), Want::Number(-4)),
    (
        15,
        What::Get(b"c"),
        Want::Value(b"\xfc\xff\xff\xff\xff\xff\xff\xff"),
    ),
    // full, and an entry less
    (15, What::Set(b"d", b"12345678", 0), Want::Done),
    (15, What::Set(b"e", b"e", 0), Want::Full),
    (15, What::Update(b"e", b"e", 0), Want::Full),
    (15, What::Math(MathOp::Inc, b"e", 1, 0), Want::Full),
    (15, What::Keys, Want::Keys(&[b"d", b"c", b"a", b"b"])),
    (15, What::Update(b"a", b"again", 0), Want::Done),
    (15, What::Del(b"c"), Want::Done),
    (15, What::Set(b"e", b"e", 20), Want::Done),
    (15, What::Keys, Want::Keys(&[b"e", b"a", b"d", b"b"])),
    (34, What::Sweep, Want::Number(0)),
    (35, What::Sweep, Want::Number(1)),
    (35, What::Sweep, Want::Number(0)),
    (35, What::Keys, Want::Keys(&[b"a", b"d", b"b"])),
    (35, What::Get(b"d"), Want::Value(b"12345678")),
    (35, What::Clear, Want::Done),
    (35, What::Keys, Want::Keys(&[])),
    (35, What::Set(b"d", b"one", 0), Want::Done),
    (35, What::Get(b"d"), Want::Value(b"one")),
];

/// Values of several blocks, of which there are six.
const RUNS: &[(u64, What, Want)] = &[
    (0, What::Set(b"a", b"0123456789", 0), Want::Done),
    (0, What::Set(b"b", b"01234567", 0), Want::Done),
    (0, What::Set(b"c", b"01234567012345670", 0), Want::Done),
    (0, What::Set(b"d", b"d", 0), Want::Full),
    (0, What::Del(b"b"), Want::Done),
    (0, What::Set(b"d", b"d", 0), Want::Done),
    (0, What::Del(b"a"), Want::Done),
    (0, What::Del(b"c"), Want::Done),
    // three blocks stand together behind d alone
    (
        0,
        What::Set(b"e", b"012345670123456701234567", 0),
        Want::Done,
    ),
    (0, What::Set(b"f", b"0123456701234567", 0), Want::Done),
    (0, What::Update(b"d", b"0123456789", 0), Want::Full),
    (0, What::Get(b"d"), Want::Value(b"d")),
    (0, What::Update(b"f", b"01234567012345678", 0), Want::Full),
    (0, What::Get(b"f"), Want::Value(b"0123456701234567")),
    (0, What::Del(b"d"), Want::Done),
    (0, What::Update(b"f", b"01234567012345678", 0), Want::Done),
    (0, What::Update(b"e", b"e", 0), Want::Done),
    (0, What::Get(b"f"), Want::Value(b"01234567012345678")),
    (0, What::Get(b"e"), Want::Value(b"e")),
    (0, What::Keys, Want::Keys(&[b"e", b"f"])),
    (
        0,
        What::Set(
            b"g",
            b"0123456701234567012345670123456701234567012345678",
            0,
        ),
        Want::TooLong,
    ),
    (0, What::Clear, Want::Done),
    (
        0,
        What::Set(b"g", b"012345670123456701234567012345670123456701234567", 0),
        Want::Done,
    ),
    (
        0,
        What::Get(b"g"),
        Want::Value(b"012345670123456701234567012345670123456701234567"),
    ),
    (0, What::Math(MathOp::Inc, b"n", 1, 0), Want::Full),
];

/// The least recent ones go; nothing expires, and a get is a use.
const PURGES: &[(u64, What, Want)] = &[
    (0, What::Set(b"a", b"a", 0), Want::Done),
    (0, What::Set(b"b", b"b", 1), Want::Done),
    (0, What::Set(b"c", b"c", 0), Want::Done),
    (0, What::Set(b"d", b"d", 0), Want::Done),
    (9, What::Get(b"a"), Want::Value(b"a")),
    (9, What::Keys, Want::Keys(&[b"a", b"d", b"c", b"b"])),
    (9, What::Set(b"e", b"e", 0), Want::Done),
    (9, What::Keys, Want::Keys(&[b"e", b"a", b"d", b"c"])),
    (9, What::Exists(b"c"), Want::Flag(true)),
    // a stands at block 0, e at b's, 1, c at 2, d at 3: without c and d four blocks are free together
    (
        9,
        What::Set(b"f", b"01234567012345670123456701234567", 0),
        Want::Done,
    ),
    (9, What::Keys, Want::Keys(&[b"f", b"e", b"a"])),
    (9, What::Get(b"e"), Want::Value(b"e")),
    (
        9,
        What::Get(b"f"),
        Want::Value(b"01234567012345670123456701234567"),
    ),
    (9, What::Sweep, Want::Number(0)),
    (9, What::Update(b"f", b"f", 0), Want::Done),
    (9, What::Keys, Want::Keys(&[b"f", b"e", b"a"])),
];

/// The dead go where there is no room, and they alone.
const SWEEPS: &[(u64, What, Want)] = &[
    (0, What::Set(b"a", b"a", 5), Want::Done),
    (0, What::Set(b"b", b"b", 0), Want::Done),
    (4, What::Set(b"c", b"c", 0), Want::Full),
    (5, What::Set(b"c", b"c", 0), Want::Done),
    (5, What::Keys, Want::Keys(&[b"c", b"b"])),
    (5, What::Set(b"d", b"d", 0), Want::Full),
    (5, What::Get(b"b"), Want::Value(b"b")),
];

/// All go where there is no room.
const CLEARS: &[(u64, What, Want)] = &[
    (0, What::Set(b"a", b"a", 0), Want::Done),
    (0, What::Set(b"b", b"b", 0), Want::Done),
    (0, What::Update(b"a", b"again", 0), Want::Done),
    (0, What::Set(b"c", b"c", 0), Want::Done),
    (0, What::Keys, Want::Keys(&[b"c"])),
    (0, What::Get(b"a"), Want::Missing),
];

#[test]
fn each_call_answers_as_the_list_does(rt: HostRuntime) -> Result<(), Fail> {
    let mut twin = Twin::new(rt.alloc(), small_cache(rt.alloc()))?;
    assert_eq!(rt;
        first_unwanted(rt.alloc(), &mut twin, ONE_BLOCK_EACH)?,
        None
    );
    Ok(())
}

#[test]
fn values_of_several_blocks_take_the_first_run(rt: HostRuntime) -> Result<(), Fail> {
    let conf = CacheConf {
        blocks: 6,
        bitmap: true,
        ..small_cache(rt.alloc())
    };
    let mut twin = Twin::new(rt.alloc(), conf)?;
    assert_eq!(rt; first_unwanted(rt.alloc(), &mut twin, RUNS)?, None);
    Ok(())
}

#[test]
fn the_least_recent_ones_are_purged(rt: HostRuntime) -> Result<(), Fail> {
    let conf = CacheConf {
        blocks: 6,
        bitmap: true,
        purge_lru: true,
        ..small_cache(rt.alloc())
    };
    let mut twin = Twin::new(rt.alloc(), conf)?;
    assert_eq!(rt; first_unwanted(rt.alloc(), &mut twin, PURGES)?, None);
    Ok(())
}

#[test]
fn the_dead_are_swept_or_all_are_cleared(rt: HostRuntime) -> Result<(), Fail> {
    let swept = CacheConf {
        items: 2,
        blocks: 2,
        sweep_on_full: true,
        ..small_cache(rt.alloc())
    };
    let mut twin = Twin::new(rt.alloc(), swept)?;
    assert_eq!(rt; first_unwanted(rt.alloc(), &mut twin, SWEEPS)?, None);
    let cleared = CacheConf {
        items: 2,
        blocks: 2,
        clear_on_full: true,
        ..small_cache(rt.alloc())
    };
    let mut twin = Twin::new(rt.alloc(), cleared)?;
    assert_eq!(rt; first_unwanted(rt.alloc(), &mut twin, CLEARS)?, None);
    Ok(())
}

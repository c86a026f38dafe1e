// What is reckoned of keys, values, moments and numbers for a cache, each with the answer that it must have.
ghost use Rattle.uw_model.specs.Entries.{IsCacheConf};

use std::alloc::Global;
use std::test::Fail;
use uw_base::Bytes;
use uw_model::{
    CacheConf, MathOp, dies_at, dies_of_number, is_alive_until, is_bad_key, is_too_long,
    is_zero_division, result_of, span_of,
};

/// What is asked. Moments and times to live are in seconds.
#[derive(Clone, Copy)]
enum What {
    IsBadKey(&'static [u8]),
    IsTooLong(&'static [u8]),
    /// The blocks of a value of so many bytes.
    Span(u64),
    /// When an entry dies that is written at a moment with a time to live.
    Dies(u64, u64),
    /// When a number dies, beside the moment at which the alive entry does.
    DiesOfNumber(u64, u64, Option<u64>),
    /// Whether what dies at the second moment is alive at the first one.
    IsAlive(u64, u64),
    /// A number changed by an amount.
    Math(MathOp, i64, i64),
}

#[derive(Clone, Copy, Debug, PartialEq, Eq)]
enum Want {
    Flag(bool),
    Number(u64),
    Result(Option<i64>),
    ZeroDivision,
}

/// Of a cache of ten blocks of 8 bytes with a bitmap, and of keys of 4 bytes at most.
const ROWS: &[(What, Want)] = &[
    (What::IsBadKey(b""), Want::Flag(true)),
    (What::IsBadKey(b"four"), Want::Flag(false)),
    (What::IsBadKey(b"fives"), Want::Flag(true)),
    (What::IsTooLong(&[7; 80]), Want::Flag(false)),
    (What::IsTooLong(&[7; 81]), Want::Flag(true)),
    (What::Span(0), Want::Number(1)),
    (What::Span(8), Want::Number(1)),
    (What::Span(9), Want::Number(2)),
    (What::Span(u64::MAX), Want::Number(1 << 61)),
    (What::Dies(10, 0), Want::Number(0)),
    (What::Dies(10, 5), Want::Number(15)),
    (What::Dies(10, u64::MAX), Want::Number(u64::MAX)),
    (What::DiesOfNumber(10, 0, None), Want::Number(0)),
    (What::DiesOfNumber(10, 5, None), Want::Number(15)),
    (What::DiesOfNumber(10, 0, Some(12)), Want::Number(12)),
    (What::DiesOfNumber(10, 0, Some(0)), Want::Number(0)),
    (What::DiesOfNumber(10, 5, Some(12)), Want::Number(15)),
    (What::IsAlive(10, 0), Want::Flag(true)),
    (What::IsAlive(10, 11), Want::Flag(true)),
    (What::IsAlive(10, 10), Want::Flag(false)),
    (What::Math(MathOp::Inc, 40, 2), Want::Result(Some(42))),
    (What::Math(MathOp::Inc, i64::MAX, 1), Want::Result(None)),
    (What::Math(MathOp::Dec, i64::MIN, 1), Want::Result(None)),
    (What::Math(MathOp::Mul, -6, 7), Want::Result(Some(-42))),
    (What::Math(MathOp::Div, -7, 2), Want::Result(Some(-3))),
    (What::Math(MathOp::Div, i64::MIN, -1), Want::Result(None)),
    (What::Math(MathOp::Div, 7, 0), Want::ZeroDivision),
    (What::Math(MathOp::Mul, 7, 0), Want::Result(Some(0))),
];

fn conf_of(alloc: Global) -> CacheConf
    ensures { IsCacheConf result }
{
    CacheConf {
        name: Bytes::new(alloc),
        items: 3,
        blocksize: 8,
        blocks: 10,
        keysize: 4,
        chains: 5,
        bitmap: true,
        purge_lru: false,
        sweep_on_full: true,
        clear_on_full: false,
    }
}

fn reckoned(conf: &CacheConf, what: What) -> Want
    requires { IsCacheConf conf.now }
{
    match what {
        What::IsBadKey(key) => Want::Flag(is_bad_key(conf, key)),
        What::IsTooLong(value) => Want::Flag(is_too_long(conf, value)),
        What::Span(len) => Want::Number(span_of(conf, len)),
        What::Dies(moment, ttl) => Want::Number(dies_at(moment, ttl)),
        What::DiesOfNumber(moment, ttl, alive) => Want::Number(dies_of_number(moment, ttl, alive)),
        What::IsAlive(moment, dies) => Want::Flag(is_alive_until(conf, moment, dies)),
        What::Math(op, _, by) if is_zero_division(op, by) => Want::ZeroDivision,
        What::Math(op, number, by) => Want::Result(result_of(op, number, by)),
    }
}

#[test]
fn keys_values_moments_and_numbers_are_reckoned(rt: HostRuntime) {
    let conf = conf_of(rt.alloc());
    for (number, (what, want)) in ROWS.iter().enumerate() {
        assert_eq!(rt; reckoned(&conf, *what), *want, "row {number}");
    }
}

#[test]
fn with_purge_nothing_expires(rt: HostRuntime) {
    let mut conf = conf_of(rt.alloc());
    conf.purge_lru = true;
    assert!(rt; is_alive_until(&conf, 10, 10));
}

#[test]
fn a_copy_of_a_configuration_is_the_same(rt: HostRuntime) -> Result<(), Fail> {
    let mut conf = conf_of(rt.alloc());
    conf.name = Bytes::from_slice(rt.alloc(), b"sessions")?;
    let copy = conf.copy(rt.alloc())?;
    assert_eq!(rt; copy.name.as_slice(), conf.name.as_slice());
    assert_eq!(rt; (copy.items, copy.blocksize, copy.blocks), (3, 8, 10));
    assert_eq!(rt; (copy.keysize, copy.chains, copy.bitmap), (4, 5, true));
    assert_eq!(rt;
        (copy.purge_lru, copy.sweep_on_full, copy.clear_on_full),
        (false, true, false)
    );
    Ok(())
}

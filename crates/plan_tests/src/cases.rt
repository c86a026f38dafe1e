// More tables of calls on a region and on a plain list, side by side; and the words that calls leave.
ghost use Rattle.uw_model.specs.Entries.{IsCacheConf};

use crate::calls::{Want, What, first_unwanted};
use crate::entries::TWO;
use crate::small::small_cache;
use crate::twins::Twin;
use std::alloc::Global;
use std::test::Fail;
use uw_base::Bytes;
use uw_model::{CacheConf, MathOp};

/// What makes room.
#[derive(Clone, Copy)]
enum Policy {
    Refuse,
    Sweep,
    Clear,
    SweepThenClear,
    Purge,
}

/// The sizes of a cache, as those of `CacheConf` but the bytes of a block divided by 8. Where no number of blocks is
/// given it has as many as entries, and no bitmap.
#[derive(Clone, Copy)]
struct Sizes {
    items: u64,
    eights: u64,
    keysize: u64,
    chains: u64,
    blocks: Option<u64>,
}

/// Four entries of eight bytes each, on four chains.
const SMALL: Sizes = Sizes {
    items: 4,
    eights: 1,
    keysize: 8,
    chains: 4,
    blocks: None,
};

/// The calls made on an empty cache.
#[derive(Clone, Copy)]
struct Case {
    name: &'static str,
    sizes: Sizes,
    policy: Policy,
    rows: &'static [(u64, What, Want)],
}

const CASES: [Case; 9] = [
    Case {
        name: "numbers at their limits, and when they die",
        sizes: SMALL,
        policy: Policy::Refuse,
        rows: &[
            (10, What::Num(b"n"), Want::Number(0)),
            (10, What::Math(MathOp::Dec, b"n", 7, 10), Want::Number(-7)),
            (10, What::Math(MathOp::Div, b"n", 2, 0), Want::Number(-3)),
            (10, What::Math(MathOp::Mul, b"n", -6, 0), Want::Number(18)),
            (19, What::Num(b"n"), Want::Number(18)),
            (19, What::Get(b"n"), Want::Value(b"\x12\0\0\0\0\0\0\0")),
            // it died at 20, as the first call said
            (20, What::Num(b"n"), Want::Number(0)),
            (20, What::Exists(b"n"), Want::Flag(false)),
            (
                20,
                What::Math(MathOp::Inc, b"n", i64::MAX, 0),
                Want::Number(i64::MAX),
            ),
            (20, What::Math(MathOp::Inc, b"n", 1, 0), Want::Range),
            (20, What::Math(MathOp::Mul, b"n", 2, 0), Want::Range),
            (20, What::Math(MathOp::Dec, b"n", -1, 0), Want::Range),
            (20, What::Num(b"n"), Want::Number(i64::MAX)),
            (20, What::Set(b"m", b"\0\0\0\0\0\0\0\x80", 0), Want::Done),
            (20, What::Num(b"m"), Want::Number(i64::MIN)),
            (20, What::Math(MathOp::Div, b"m", -1, 0), Want::Range),
            (20, What::Math(MathOp::Div, b"m", 0, 0), Want::ZeroDivisor),
            (
                20,
                What::Math(MathOp::Div, b"m", i64::MIN, 5),
                Want::Number(1),
            ),
            (24, What::Keys, Want::Keys(&[b"m", b"n"])),
            (25, What::Keys, Want::Keys(&[b"n"])),
            (25, What::Sweep, Want::Number(1)),
            // behind the last moment there is none
            (25, What::Set(b"l", b"x", u64::MAX), Want::Done),
            (u64::MAX - 1, What::Get(b"l"), Want::Value(b"x")),
            (u64::MAX, What::Get(b"l"), Want::Missing),
            (u64::MAX, What::Update(b"l", b"y", 5), Want::Done),
            (u64::MAX, What::Get(b"l"), Want::Missing),
            // moments need not rise
            (3, What::Get(b"l"), Want::Value(b"y")),
            (u64::MAX, What::Sweep, Want::Number(1)),
            (3, What::Get(b"l"), Want::Missing),
            (3, What::Keys, Want::Keys(&[b"n"])),
        ],
    },
    Case {
        name: "keys of one hash, and of three words, that differ in the last byte",
        sizes: Sizes {
            items: 4,
            eights: 3,
            keysize: 17,
            chains: 1,
            blocks: None,
        },
        policy: Policy::Refuse,
        rows: &[
            (0, What::Set(b"ap", b"a", 0), Want::Done),
            (0, What::Exists(b"g6"), Want::Flag(false)),
            (
                0,
                What::Set(b"g6", b"123456781234567812345678", 0),
                Want::Done,
            ),
            (0, What::Get(b"ap"), Want::Value(b"a")),
            (
                0,
                What::Get(b"g6"),
                Want::Value(b"123456781234567812345678"),
            ),
            (0, What::Set(b"0123456701234567a", b"", 0), Want::Done),
            (0, What::Get(b"0123456701234567b"), Want::Missing),
            (0, What::Get(b"0123456701234567"), Want::Missing),
            (0, What::Set(b"0123456701234567b", b"b", 0), Want::Done),
            (
                0,
                What::Set(b"0123456701234567ab", b"b", 0),
                Want::KeyLength,
            ),
            (0, What::Del(b"ap"), Want::Done),
            (0, What::Del(b"ap"), Want::Missing),
            (
                0,
                What::Get(b"g6"),
                Want::Value(b"123456781234567812345678"),
            ),
            (0, What::Get(b"0123456701234567a"), Want::Value(b"")),
            (0, What::Update(b"g6", b"12345678123456781", 0), Want::Done),
            (0, What::Get(b"g6"), Want::Value(b"12345678123456781")),
            (0, What::Num(b"g6"), Want::NotNumber),
            (
                0,
                What::Keys,
                Want::Keys(&[b"g6", b"0123456701234567b", b"0123456701234567a"]),
            ),
            (
                0,
                What::Set(b"ap", b"1234567812345678123456789", 0),
                Want::TooLong,
            ),
        ],
    },
    Case {
        name: "a sweep joins the blocks of the dead",
        sizes: Sizes {
            items: 9,
            eights: 1,
            keysize: 8,
            chains: 2,
            blocks: Some(7),
        },
        policy: Policy::Sweep,
        rows: &[
            (10, What::Set(b"a", b"nine byte", 5), Want::Done),
            (10, What::Set(b"b", b"nine byte", 5), Want::Done),
            (10, What::Set(b"c", b"1", 0), Want::Done),
            (10, What::Set(b"d", b"1", 0), Want::Done),
            (14, What::Set(b"e", b"seventeen bytes..", 0), Want::Full),
            (14, What::Keys, Want::Keys(&[b"d", b"c", b"b", b"a"])),
            (15, What::Set(b"e", b"seventeen bytes..", 0), Want::Done),
            (15, What::Set(b"f", b"1", 0), Want::Done),
            (15, What::Set(b"g", b"nine byte", 0), Want::Full),
            (15, What::Set(b"g", b"1", 0), Want::Done),
            (15, What::Get(b"e"), Want::Value(b"seventeen bytes..")),
            (15, What::Keys, Want::Keys(&[b"g", b"f", b"e", b"d", b"c"])),
        ],
    },
    Case {
        name: "a sweep before all are cleared",
        sizes: Sizes {
            items: 2,
            eights: 1,
            keysize: 8,
            chains: 1,
            blocks: None,
        },
        policy: Policy::SweepThenClear,
        rows: &[
            (0, What::Set(b"a", b"a", 5), Want::Done),
            (0, What::Set(b"b", b"b", 0), Want::Done),
            (5, What::Set(b"c", b"c", 0), Want::Done),
            (5, What::Keys, Want::Keys(&[b"c", b"b"])),
            (5, What::Math(MathOp::Inc, b"d", 1, 0), Want::Number(1)),
            (5, What::Keys, Want::Keys(&[b"d"])),
            (5, What::Update(b"d", b"d", 0), Want::Done),
            (5, What::Get(b"d"), Want::Value(b"d")),
        ],
    },
    Case {
        name: "all are cleared for a value of all blocks",
        sizes: Sizes {
            items: 4,
            eights: 1,
            keysize: 8,
            chains: 4,
            blocks: Some(3),
        },
        policy: Policy::Clear,
        rows: &[
            (0, What::Set(b"a", b"a", 0), Want::Done),
            (0, What::Set(b"b", b"b", 0), Want::Done),
            (0, What::Set(b"c", b"c", 0), Want::Done),
            (0, What::Update(b"b", b"0123456701234567", 0), Want::Done),
            (0, What::Keys, Want::Keys(&[b"b"])),
            (0, What::Set(b"a", b"a", 0), Want::Done),
            (
                0,
                What::Set(b"c", b"012345670123456701234567", 0),
                Want::Done,
            ),
            (0, What::Keys, Want::Keys(&[b"c"])),
            (0, What::Get(b"c"), Want::Value(b"012345670123456701234567")),
        ],
    },
    Case {
        name: "an overwrite is purged for as any other entry",
        sizes: Sizes {
            items: 4,
            eights: 1,
            keysize: 8,
            chains: 4,
            blocks: Some(6),
        },
        policy: Policy::Purge,
        rows: &[
            (0, What::Set(b"a", b"0123456701234567", 0), Want::Done),
            (0, What::Set(b"b", b"b", 1), Want::Done),
            (0, What::Set(b"c", b"0123456701", 0), Want::Done),
            // blocks: two of a, one of b, two of c, a free one; without a and b no four of them are free together
            (
                0,
                What::Update(b"a", b"01234567012345670123456701", 0),
                Want::Done,
            ),
            (0, What::Keys, Want::Keys(&[b"a"])),
            (0, What::Set(b"b", b"0123456701234567", 0), Want::Done),
            (0, What::Keys, Want::Keys(&[b"b", b"a"])),
            (
                0,
                What::Get(b"a"),
                Want::Value(b"01234567012345670123456701"),
            ),
            (0, What::Keys, Want::Keys(&[b"a", b"b"])),
            (0, What::Math(MathOp::Inc, b"n", 9, 1), Want::Number(9)),
            (0, What::Keys, Want::Keys(&[b"n", b"a"])),
            // nothing expires
            (9, What::Num(b"n"), Want::Number(9)),
            (9, What::Keys, Want::Keys(&[b"n", b"a"])),
            (9, What::Math(MathOp::Inc, b"n", 1, 0), Want::Number(10)),
            (9, What::Del(b"a"), Want::Done),
            (9, What::Sweep, Want::Number(0)),
            (9, What::Keys, Want::Keys(&[b"n"])),
        ],
    },
    Case {
        name: "a purge where each entry has one block",
        sizes: Sizes {
            items: 2,
            eights: 8,
            keysize: 8,
            chains: 2,
            blocks: None,
        },
        policy: Policy::Purge,
        rows: &[
            (0, What::Set(b"a", b"a", 0), Want::Done),
            (0, What::Set(b"b", b"b", 0), Want::Done),
            (0, What::Get(b"a"), Want::Value(b"a")),
            (0, What::Set(b"c", b"c", 0), Want::Done),
            (0, What::Keys, Want::Keys(&[b"c", b"a"])),
            (0, What::Exists(b"a"), Want::Flag(true)),
            (0, What::Math(MathOp::Inc, b"n", 1, 0), Want::Number(1)),
            (0, What::Keys, Want::Keys(&[b"n", b"c"])),
            (0, What::Get(b"c"), Want::Value(b"c")),
        ],
    },
    Case {
        name: "runs of blocks whose bits stand in two words",
        sizes: Sizes {
            items: 4,
            eights: 1,
            keysize: 8,
            chains: 4,
            blocks: Some(70),
        },
        policy: Policy::Refuse,
        rows: &[
            (0, What::Set(b"a", &[7; 496], 0), Want::Done),
            (
                0,
                What::Set(b"b", b"012345670123456701234567", 0),
                Want::Done,
            ),
            (0, What::Set(b"c", b"0123456701234567", 0), Want::Done),
            (0, What::Del(b"b"), Want::Done),
            // blocks 62 to 64 are free, and 67 to 69
            (
                0,
                What::Set(b"d", b"01234567012345670123456701234567", 0),
                Want::Full,
            ),
            (
                0,
                What::Set(b"d", b"012345670123456701234567", 0),
                Want::Done,
            ),
            (0, What::Get(b"d"), Want::Value(b"012345670123456701234567")),
            (0, What::Get(b"c"), Want::Value(b"0123456701234567")),
            (0, What::Del(b"a"), Want::Done),
            (0, What::Del(b"d"), Want::Done),
            (0, What::Set(b"e", &[8; 520], 0), Want::Done),
            (0, What::Get(b"e"), Want::Value(&[8; 520])),
            (0, What::Get(b"c"), Want::Value(b"0123456701234567")),
        ],
    },
    Case {
        name: "one entry, in one block",
        sizes: Sizes {
            items: 1,
            eights: 1,
            keysize: 1,
            chains: 1,
            blocks: None,
        },
        policy: Policy::Refuse,
        rows: &[
            (0, What::Sweep, Want::Number(0)),
            (0, What::Clear, Want::Done),
            (0, What::Set(b"a", b"a", 1), Want::Done),
            (0, What::Set(b"b", b"b", 1), Want::Full),
            (1, What::Set(b"b", b"b", 1), Want::Full),
            (1, What::Set(b"a", b"", 0), Want::Done),
            (1, What::Get(b"a"), Want::Value(b"")),
            (1, What::Update(b"a", b"12345678", 0), Want::Done),
            (1, What::Num(b"a"), Want::Number(0x3837_3635_3433_3231)),
            (1, What::Del(b"a"), Want::Done),
            (1, What::Set(b"b", b"b", 0), Want::Done),
            (1, What::Keys, Want::Keys(&[b"b"])),
        ],
    },
];

/// The configuration of a case.
fn conf_of(alloc: Global, case: &Case) -> CacheConf
    ensures { IsCacheConf result }
{
    let sizes = case.sizes;
    let policy = case.policy;
    let items = sizes.items.clamp(1, 1000);
    CacheConf {
        name: Bytes::new(alloc),
        items,
        blocksize: 8 * sizes.eights.clamp(1, 1000),
        blocks: sizes.blocks.map_or(items, |blocks| blocks.clamp(1, 1000)),
        keysize: sizes.keysize.clamp(1, 1000),
        chains: sizes.chains.clamp(1, 1000),
        bitmap: sizes.blocks.is_some(),
        purge_lru: matches!(policy, Policy::Purge),
        sweep_on_full: matches!(policy, Policy::Sweep | Policy::SweepThenClear),
        clear_on_full: matches!(policy, Policy::Clear | Policy::SweepThenClear),
    }
}

#[test]
fn calls_of_a_region_answer_as_in_the_tables(rt: HostRuntime) -> Result<(), Fail> {
    for case in CASES.iter() {
        let name = case.name;
        let mut twin = Twin::new(rt.alloc(), conf_of(rt.alloc(), case))?;
        let row = first_unwanted(rt.alloc(), &mut twin, case.rows)?;
        assert_eq!(rt; row, None, "{name}");
    }
    Ok(())
}

/// The two sets of the example.
const SETS: &[(u64, What, Want)] = &[
    (40, What::Set(b"a", b"one", 0), Want::Done),
    (40, What::Set(b"b", b"two", 60), Want::Done),
];

/// All but the used word, at place 11: it has what the last commit left.
#[test]
fn two_sets_leave_the_words_of_the_example(rt: HostRuntime) -> Result<(), Fail> {
    let mut twin = Twin::new(rt.alloc(), small_cache(rt.alloc()))?;
    assert_eq!(rt; first_unwanted(rt.alloc(), &mut twin, SETS)?, None);
    for at in 0..twin.ram.len().min(61) {
        // Sixteen words were planned for the second one: 6, 8, 9, 16, 20, 22, 30 to 38 and 58.
        let word = if at == 11 { 48 } else { TWO[at as usize] };
        assert_eq!(rt; twin.ram.load(at), word, "at {at}");
    }
    Ok(())
}

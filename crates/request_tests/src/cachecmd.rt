// Commands and replies by worked examples.
use std::alloc::Global;
use std::process::Abort;
use std::test::Fail;
use uw_base::{Bytes, BytesList, Memory};
use uw_cachecmd::{CmdFault, cache_reply, command, fault_reply, spool_reply};
use uw_model::{Answer, Ask, Call, MathOp, SpoolAnswer};

// The names of the caches, in most rows.
const NAMES: &[&str] = &["c", "d"];

const NO_NAMES: &[&str] = &[];

// The list of these texts.
fn list(alloc: Global, texts: &[&str]) -> Result<BytesList, Memory> {
    let mut list = BytesList::new(alloc);
    for text in texts {
        list.push(Bytes::from_slice(alloc, text.as_bytes())?)?;
    }
    Ok(list)
}

// What a block asks, at a modifier that asks a cache.
fn ask(
    rt: &impl Abort,
    alloc: Global,
    m2: u8,
    block: &[u8],
    names: &BytesList,
) -> Result<Ask, CmdFault> {
    assert!(rt; m2 == 0 || m2 == 1 || m2 == 2 || m2 == 200);
    assert!(rt; block.len() < 65536 && names.len() < 65536);
    command(alloc, m2, block, names)
}

// The name of a call, its key, its value, its seconds and its amount.
fn parts(call: &Call) -> (&str, &[u8], &[u8], u64, i64) {
    match call {
        Call::Get { key } => ("get", key.as_slice(), &[], 0, 0),
        Call::Set { key, value, ttl } => ("set", key.as_slice(), value.as_slice(), *ttl, 0),
        Call::Update { key, value, ttl } => ("update", key.as_slice(), value.as_slice(), *ttl, 0),
        Call::Del { key } => ("del", key.as_slice(), &[], 0, 0),
        Call::Exists { key } => ("exists", key.as_slice(), &[], 0, 0),
        Call::Clear => ("clear", &[], &[], 0, 0),
        Call::Num { key } => ("num", key.as_slice(), &[], 0, 0),
        Call::Math { op, key, by, ttl } => (op_name(*op), key.as_slice(), &[], *ttl, *by),
        Call::Keys => ("keys", &[], &[], 0, 0),
        Call::Sweep => ("sweep", &[], &[], 0, 0),
    }
}

fn op_name(op: MathOp) -> &'static str {
    match op {
        MathOp::Inc => "inc",
        MathOp::Dec => "dec",
        MathOp::Mul => "mul",
        MathOp::Div => "div",
    }
}

// In each row: modifier2, the block, and the cache, the name, the seconds and the amount of what it asks, of the key `k`.
#[test]
fn blocks_ask_a_cache(rt: HostRuntime) -> Result<(), Fail> {
    let rows: [(u8, &[u8], (u32, &str, u64, i64)); 13] = [
        (0, b"k", (0, "get", 0, 0)),
        (2, b"k", (0, "del", 0, 0)),
        (1, b"\x01\0k\x01\0v", (0, "set", 0, 0)),
        (1, b"\x01\0k\x01\0v\x02\x0060", (0, "set", 60, 0)),
        (1, b"\x01\0k\x01\0v\0\0\x01\0d", (1, "set", 0, 0)),
        (1, b"\x01\0k\x01\0v\x01\x009\x01\0c", (0, "set", 9, 0)),
        (1, b"\x01\0k\0\0\0\0\0\0", (0, "set", 0, 0)),
        (
            200,
            b"\x03\0cmd\x03\0inc\x03\0key\x01\0k\x05\0cache\x01\0d",
            (1, "inc", 0, 1),
        ),
        (
            200,
            b"\x03\0cmd\x03\0dec\x03\0key\x01\0k\x06\0amount\x14\0-9223372036854775808",
            (0, "dec", 0, i64::MIN),
        ),
        (
            200,
            b"\x03\0cmd\x03\0set\x03\0key\x01\0k\x07\0expires\x14\x0018446744073709551615",
            (0, "set", u64::MAX, 0),
        ),
        (
            200,
            b"\x03\0cmd\x03\0get\x03\0key\x01\0x\x03\0cmd\x03\0del\x03\0key\x01\0k",
            (0, "del", 0, 0),
        ),
        (
            200,
            b"\x03\0cmd\x06\0update\x03\0key\x01\0k\x07\0expires\x01\x007",
            (0, "update", 7, 0),
        ),
        (
            200,
            b"\x03\0cmd\x03\0div\x03\0key\x01\0k\x07\0expires\x01\x007\x06\0amount\x02\0-3",
            (0, "div", 7, -3),
        ),
    ];
    let names = list(rt.alloc(), &["c", "d", "d"])?;
    for (m2, block, want) in rows {
        match ask(&rt, rt.alloc(), m2, block, &names) {
            Ok(Ask::Cache { cache, call }) => {
                let found = parts(&call);
                assert_eq!(rt; (cache, found.0, found.3, found.4), want, "{block:?}");
                assert_eq!(rt; found.1, b"k".as_slice(), "{block:?}");
            }
            Ok(_) => panic!(rt; "no call at {block:?}"),
            Err(fault) => panic!(rt; "{fault:?} at {block:?}"),
        }
    }
    Ok(())
}

// In each row: modifier2, the block, the names of the caches, and the refusal; where several fit, the first is given.
#[test]
fn blocks_are_refused(rt: HostRuntime) -> Result<(), Fail> {
    let at = |at| CmdFault::BadBlock { at };
    let rows: [(u8, &[u8], &[&str], CmdFault); 26] = [
        // fewer than two texts, or more than four
        (1, b"", NAMES, at(0)),
        (1, b"\x01\0k", NAMES, at(3)),
        (1, b"\x01\0k\x01\0v\0\0\0\0\0\0", NAMES, at(10)),
        (
            1,
            b"\x01\0k\x02\0vw\x01\x009\x01\0c\x01\0x\0\0",
            NAMES,
            at(13),
        ),
        // a text that is not whole
        (1, b"\x01\0k\x01", NAMES, at(3)),
        (1, b"\x01\0k\x01\0v\x05\0abc", NAMES, at(6)),
        // a key without a value
        (200, b"\x03\0cmd", NAMES, at(5)),
        (200, b"\x03\0cmd\x03\0get\x03\0key", NAMES, at(15)),
        // a pair past the end
        (200, b"\x03\0cmd\x03\0ge", NAMES, at(5)),
        (200, b"\x03\0cmd\x03\0get\x03\0key\x02\0k", NO_NAMES, at(15)),
        // no command, whatever the cache and the numbers
        (200, b"", NO_NAMES, CmdFault::UnknownCommand),
        (200, b"\x03\0cmd\x03\0geT", NAMES, CmdFault::UnknownCommand),
        (
            200,
            b"\x03\0cmd\x07\0replace\x05\0cache\x01\0e\x07\0expires\x02\x001x",
            NAMES,
            CmdFault::UnknownCommand,
        ),
        // no cache, whatever the numbers
        (0, b"k", NO_NAMES, CmdFault::UnknownCache),
        (1, b"\x01\0k\x01\0v", NO_NAMES, CmdFault::UnknownCache),
        (
            1,
            b"\x01\0k\x01\0v\x01\0x\x01\0e",
            NAMES,
            CmdFault::UnknownCache,
        ),
        (2, b"k", NO_NAMES, CmdFault::UnknownCache),
        (
            200,
            b"\x03\0cmd\x05\0clear",
            NO_NAMES,
            CmdFault::UnknownCache,
        ),
        (
            200,
            b"\x03\0cmd\x03\0get\x05\0cache\x01\0e\x06\0amount\x02\0+1",
            NAMES,
            CmdFault::UnknownCache,
        ),
        // seconds and amounts that cannot be read, whatever the command
        (1, b"\x01\0k\x01\0v\x02\0-1", NAMES, CmdFault::BadNumber),
        (
            200,
            b"\x03\0cmd\x03\0set\x07\0expires\x02\x001x",
            NAMES,
            CmdFault::BadNumber,
        ),
        (
            200,
            b"\x03\0cmd\x05\0clear\x07\0expires\x15\x00000000000000000000001",
            NAMES,
            CmdFault::BadNumber,
        ),
        (
            200,
            b"\x03\0cmd\x03\0get\x07\0expires\x14\x0018446744073709551616",
            NAMES,
            CmdFault::BadNumber,
        ),
        (
            200,
            b"\x03\0cmd\x03\0inc\x06\0amount\x02\0+1",
            NAMES,
            CmdFault::BadNumber,
        ),
        (
            200,
            b"\x03\0cmd\x03\0inc\x06\0amount\x13\x009223372036854775808",
            NAMES,
            CmdFault::BadNumber,
        ),
        (
            200,
            b"\x03\0cmd\x04\0keys\x06\0amount\x01\0-",
            NAMES,
            CmdFault::BadNumber,
        ),
    ];
    for (m2, block, names, want) in rows {
        let names = list(rt.alloc(), names)?;
        match ask(&rt, rt.alloc(), m2, block, &names) {
            Ok(_) => panic!(rt; "{block:?} asks a cache"),
            Err(fault) => assert_eq!(rt; fault, want, "{block:?}"),
        }
    }
    Ok(())
}

// In each row: an answer, and its text; for modifier2 0 only a value has bytes.
#[test]
fn answers_have_their_texts(rt: HostRuntime) -> Result<(), Fail> {
    let keys = list(rt.alloc(), &["k", "", "key two"])?;
    let rows: [(Answer, &[u8]); 15] = [
        (Answer::Missing, b"missing"),
        (Answer::Done, b"ok"),
        (Answer::Exists, b"exists"),
        (Answer::Full, b"full"),
        (Answer::KeyLength, b"key length"),
        (Answer::TooLong, b"too long"),
        (Answer::NotNumber, b"not a number"),
        (Answer::Range, b"range"),
        (Answer::ZeroDivisor, b"zero divisor"),
        (Answer::Number(0), b"number 0"),
        (Answer::Number(i64::MIN), b"number -9223372036854775808"),
        (Answer::Flag(true), b"yes"),
        (Answer::Flag(false), b"no"),
        (Answer::Keys(keys), b"keys\n\x01\0k\0\0\x07\0key two"),
        (Answer::Keys(BytesList::new(rt.alloc())), b"keys\n"),
    ];
    for (answer, text) in rows {
        for m2 in [1, 2, 200] {
            let reply = cache_reply(rt.alloc(), m2, &answer)?;
            assert_eq!(rt; reply.as_slice(), text, "{m2}");
        }
        assert_eq!(rt; cache_reply(rt.alloc(), 0, &answer)?.len(), 0, "{text:?}");
    }
    let value = Answer::Value(Bytes::from_slice(rt.alloc(), b"v\0\n")?);
    let reply = cache_reply(rt.alloc(), 200, &value)?;
    assert_eq!(rt; reply.as_slice(), b"value\nv\0\n".as_slice());
    let alone = cache_reply(rt.alloc(), 0, &value)?;
    assert_eq!(rt; alone.as_slice(), b"v\0\n".as_slice());
    Ok(())
}

#[test]
fn refusals_have_their_texts(rt: HostRuntime) -> Result<(), Fail> {
    let rows: [(u8, CmdFault, &[u8]); 4] = [
        (200, CmdFault::UnknownCommand, b"unknown command"),
        (1, CmdFault::UnknownCache, b"unknown cache"),
        (2, CmdFault::BadNumber, b"bad number"),
        (0, CmdFault::UnknownCache, b""),
    ];
    for (m2, fault, text) in rows {
        assert!(rt; !matches!(fault, CmdFault::BadBlock { .. } | CmdFault::Memory));
        assert_eq!(rt; fault_reply(rt.alloc(), m2, &fault)?.as_slice(), text);
    }
    Ok(())
}

#[test]
fn tasks_have_their_replies(rt: HostRuntime) -> Result<(), Fail> {
    let least = SpoolAnswer::Put { number: 7 };
    let most = SpoolAnswer::Put { number: u64::MAX };
    let rows: [(SpoolAnswer, &[u8]); 4] = [
        (least, b"ok 00000000000000000007"),
        (most, b"ok 18446744073709551615"),
        (SpoolAnswer::NoNumber, b"no number"),
        (SpoolAnswer::Failed, b"failed"),
    ];
    for (answer, text) in rows {
        assert_eq!(rt; spool_reply(rt.alloc(), answer)?.as_slice(), text);
    }
    Ok(())
}

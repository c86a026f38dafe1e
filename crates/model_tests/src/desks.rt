// Asks of a desk of two caches and two areas, each with the answer that it must have.
ghost use Rattle.std.specs.Prelude.{◌≡◌, length, IfOk};
ghost use Rattle.std.specs.List.{AllByRecursion};
ghost use Rattle.uw_model.specs.AreaOps.{IsAreaSize};
ghost use Rattle.uw_model.specs.Entries.{IsCacheConf};

use std::alloc::Global;
use std::test::Fail;
use uw_base::{Bytes, Memory, NumberList};
use uw_model::{
    Answer, AreaAnswer, AreaOp, Ask, AskAnswer, CacheConf, CacheConfList, Call, ListDesk, Width,
    make_ask,
};
use uw_outside::Immortal;

/// What is asked of the one key.
#[derive(Clone, Copy)]
enum What {
    Get,
    Set(&'static [u8]),
    Del,
}

/// The number of a cache, what it is asked, and the text of the answer that is wanted.
type Row = (u32, What, &'static [u8]);

const ROWS: &[Row] = &[
    (1, What::Set(b"v"), b"done"),
    (0, What::Get, b"missing"),
    (1, What::Get, b"v"),
    (0, What::Set(b"w"), b"done"),
    (1, What::Set(b"w"), b"exists"),
    (1, What::Get, b"v"),
    (0, What::Get, b"w"),
    (1, What::Del, b"done"),
    (1, What::Get, b"missing"),
    (0, What::Get, b"w"),
];

fn conf_of(alloc: Global) -> CacheConf
    ensures { IsCacheConf result }
{
    CacheConf {
        name: Bytes::new(alloc),
        items: 4,
        blocksize: 64,
        blocks: 4,
        keysize: 8,
        chains: 1,
        bitmap: false,
        purge_lru: false,
        sweep_on_full: false,
        clear_on_full: false,
    }
}

fn two_confs(alloc: Global) -> Result<CacheConfList, Memory>
    ensures each { IfOk result (λ confs. AllByRecursion IsCacheConf confs) }
    ensures two { IfOk result (λ confs. length confs ≡ 2) }
{
    let mut confs = CacheConfList::new(alloc);
    confs.push(alloc, conf_of(alloc))?;
    confs.push(alloc, conf_of(alloc))?;
    Ok(confs)
}

fn two_sizes(alloc: Global) -> Result<NumberList, Memory>
    ensures each { IfOk result (λ sizes. AllByRecursion IsAreaSize sizes) }
    ensures two { IfOk result (λ sizes. length sizes ≡ 2) }
{
    let mut sizes = NumberList::new(alloc);
    sizes.push(1)?;
    sizes.push(2)?;
    Ok(sizes)
}

fn call_of(alloc: Global, what: What) -> Result<Call, Memory> {
    let key = Bytes::from_slice(alloc, b"k")?;
    Ok(match what {
        What::Get => Call::Get { key },
        What::Set(value) => Call::Set {
            key,
            value: Bytes::from_slice(alloc, value)?,
            ttl: 0,
        },
        What::Del => Call::Del { key },
    })
}

fn text(answer: &Answer) -> &[u8] {
    match answer {
        Answer::Value(value) => value.as_slice(),
        Answer::Missing => b"missing",
        Answer::Done => b"done",
        Answer::Exists => b"exists",
        _ => b"another answer",
    }
}

#[test]
fn each_cache_of_a_desk_answers_for_itself(rt: HostRuntime) -> Result<(), Fail> {
    let sizes = NumberList::new(rt.alloc());
    let mut desk = ListDesk::new(rt.alloc(), &two_confs(rt.alloc())?, &sizes)?;
    for (number, (cache, what, want)) in ROWS.iter().enumerate() {
        assert!(rt; *cache < 2);
        let ask = Ask::Cache {
            cache: *cache,
            call: call_of(rt.alloc(), *what)?,
        };
        match make_ask(rt.alloc(), &mut desk, 10, &ask, &mut Immortal::new())? {
            AskAnswer::Cache(answer) => assert_eq!(rt; text(&answer), *want, "row {number}"),
            _ => panic!(rt; "row {number}"),
        }
    }
    Ok(())
}

/// The number of an area, what is added to its first byte, and the sum that is wanted.
const SUMS: &[(u32, u64, u64)] = &[
    (1, 5, 5),
    (0, 1, 1),
    (1, 250, 255),
    (0, 2, 3),
    (1, 1, 0),
    (0, 0, 3),
];

#[test]
fn each_area_of_a_desk_answers_for_itself(rt: HostRuntime) -> Result<(), Fail> {
    let confs = CacheConfList::new(rt.alloc());
    let mut desk = ListDesk::new(rt.alloc(), &confs, &two_sizes(rt.alloc())?)?;
    for (number, (area, by, want)) in SUMS.iter().enumerate() {
        assert!(rt; *area < 2);
        let op = AreaOp::IncNum {
            at: 0,
            width: Width::W8,
            by: *by,
        };
        let ask = Ask::Area { area: *area, op };
        match make_ask(rt.alloc(), &mut desk, 10, &ask, &mut Immortal::new())? {
            AskAnswer::Area(AreaAnswer::Number(sum)) => {
                assert_eq!(rt; sum, *want, "row {number}")
            }
            _ => panic!(rt; "row {number}"),
        }
    }
    Ok(())
}

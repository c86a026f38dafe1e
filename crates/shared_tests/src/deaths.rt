// Asks of a desk over regions, one of which dies in place of a word write, beside the same asks of a desk over lists.
ghost use Rattle.std.specs.Prelude.{◌≡◌, length, true, IfOk};
ghost use Rattle.std.specs.List.{AllByRecursion};
ghost use Rattle.uw_model.specs.AreaOps.{IsAreaSize};
ghost use Rattle.uw_model.specs.Asks.{DeskParts, IsOfPart};
ghost use Rattle.uw_model.specs.Entries.{IsCacheConf};
ghost use Rattle.uw_model.specs.Lists.{parts_of};
ghost use Rattle.uw_shared.specs.Regions.{parts_of_regions};

use std::alloc::Global;
use std::test::Fail;
use uw_base::{Bytes, Memory, NumberList};
use uw_model::{
    Answer, AreaAnswer, AreaOp, Ask, AskAnswer, CacheConf, CacheConfList, Call, DeskFault,
    ListDesk, Width, make_ask,
};
use uw_outside::{Fuse, Immortal};
use uw_shared::LocalDesk;

/// What is asked of a cache of a number, or of the area.
#[derive(Clone, Copy)]
enum What {
    Get(u32, &'static [u8]),
    Set(u32, &'static [u8], &'static [u8]),
    Update(u32, &'static [u8], &'static [u8]),
    Del(u32, &'static [u8]),
    Clear(u32),
    Add(u64, u64),
    Read(u64, u64),
    Updates,
}

/// Each cache and the area are asked in turn, so that an ask of one stands between a death in another and its repair. At
/// the end all is read.
const ASKS: &[What] = &[
    What::Set(0, b"a", b"one"),
    What::Set(1, b"a", b"two"),
    What::Add(3, 300),
    What::Update(1, b"a", b"three"),
    What::Get(0, b"a"),
    What::Add(7, 5),
    What::Set(0, b"b", b"four"),
    What::Get(1, b"a"),
    What::Del(0, b"a"),
    What::Read(0, 16),
    What::Clear(1),
    What::Updates,
    What::Get(0, b"a"),
    What::Get(0, b"b"),
    What::Get(1, b"a"),
    What::Read(0, 16),
];

fn conf_of(alloc: Global) -> CacheConf
    ensures { IsCacheConf result }
{
    CacheConf {
        name: Bytes::new(alloc),
        items: 2,
        blocksize: 8,
        blocks: 2,
        keysize: 8,
        chains: 1,
        bitmap: false,
        purge_lru: true,
        sweep_on_full: false,
        clear_on_full: false,
    }
}

fn two_confs(alloc: Global) -> Result<CacheConfList, Memory>
    ensures each { IfOk result (λ confs. AllByRecursion IsCacheConf confs) }
    ensures two { IfOk result (λ confs. length confs ≡ 2) }
{
    let mut confs = CacheConfList::new(alloc);
    confs.push(alloc, conf_of(alloc))?;
    confs.push(alloc, conf_of(alloc))?;
    Ok(confs)
}

fn one_size(alloc: Global) -> Result<NumberList, Memory>
    ensures each { IfOk result (λ sizes. AllByRecursion IsAreaSize sizes) }
    ensures one { IfOk result (λ sizes. length sizes ≡ 1) }
{
    let mut sizes = NumberList::new(alloc);
    sizes.push(16)?;
    Ok(sizes)
}

/// An ask of one of two caches.
fn cache_ask(cache: u32, call: Call) -> Ask
    ensures { IsOfPart (record { caches = 2; areas = 1 }) result }
{
    Ask::Cache {
        cache: if cache == 0 { 0 } else { 1 },
        call,
    }
}

fn area_ask(op: AreaOp) -> Ask
    ensures { IsOfPart (record { caches = 2; areas = 1 }) result }
{
    Ask::Area { area: 0, op }
}

fn ask_of(alloc: Global, what: What) -> Result<Ask, Memory>
    ensures { IfOk result (λ ask. IsOfPart (record { caches = 2; areas = 1 }) ask) }
{
    Ok(match what {
        What::Get(cache, key) => cache_ask(
            cache,
            Call::Get {
                key: Bytes::from_slice(alloc, key)?,
            },
        ),
        What::Set(cache, key, value) => cache_ask(
            cache,
            Call::Set {
                key: Bytes::from_slice(alloc, key)?,
                value: Bytes::from_slice(alloc, value)?,
                ttl: 0,
            },
        ),
        What::Update(cache, key, value) => cache_ask(
            cache,
            Call::Update {
                key: Bytes::from_slice(alloc, key)?,
                value: Bytes::from_slice(alloc, value)?,
                ttl: 0,
            },
        ),
        What::Del(cache, key) => cache_ask(
            cache,
            Call::Del {
                key: Bytes::from_slice(alloc, key)?,
            },
        ),
        What::Clear(cache) => cache_ask(cache, Call::Clear),
        What::Add(at, by) => area_ask(AreaOp::IncNum {
            at,
            width: Width::W16,
            by,
        }),
        What::Read(at, len) => area_ask(AreaOp::Read { at, len }),
        What::Updates => area_ask(AreaOp::Updates),
    })
}

fn are_same(answer: &AskAnswer, other: &AskAnswer) -> bool {
    match (answer, other) {
        (AskAnswer::Cache(Answer::Value(value)), AskAnswer::Cache(Answer::Value(other))) => {
            value.as_slice() == other.as_slice()
        }
        (AskAnswer::Cache(Answer::Missing), AskAnswer::Cache(Answer::Missing)) => true,
        (AskAnswer::Cache(Answer::Done), AskAnswer::Cache(Answer::Done)) => true,
        (AskAnswer::Cache(Answer::Exists), AskAnswer::Cache(Answer::Exists)) => true,
        (AskAnswer::Area(AreaAnswer::Bytes(bytes)), AskAnswer::Area(AreaAnswer::Bytes(other))) => {
            bytes.as_slice() == other.as_slice()
        }
        (AskAnswer::Area(AreaAnswer::Number(number)), AskAnswer::Area(AreaAnswer::Number(other))) =>
            { number == other }
        _ => false,
    }
}

/// How an ask of both desks ended.
#[derive(Drop)]
enum Told {
    /// Both answered, and the same or not.
    Both { same: bool },
    /// The one over regions died.
    Died { whole: bool },
}

/// Asks the desk over regions, and that over lists where the ask counts. A life that has ended is renewed.
fn ask_both(
    alloc: Global,
    regions: &mut LocalDesk,
    lists: &mut ListDesk,
    what: What,
    life: &mut Fuse,
) -> Result<Told, Memory>
    requires regions { parts_of_regions regions.old ≡ record { caches = 2; areas = 1 } }
    requires lists { parts_of lists.old ≡ record { caches = 2; areas = 1 } }
    requires alive { life.old.alive ≡ true }
    ensures regions { parts_of_regions regions.new ≡ record { caches = 2; areas = 1 } }
    ensures lists { parts_of lists.new ≡ record { caches = 2; areas = 1 } }
    ensures alive { life.new.alive ≡ true }
{
    let ask = ask_of(alloc, what)?;
    match make_ask(alloc, regions, 10, &ask, life) {
        Ok(answer) => match make_ask(alloc, lists, 10, &ask, &mut Immortal::new()) {
            Ok(other) => Ok(Told::Both {
                same: are_same(&answer, &other),
            }),
            Err(_) => Err(Memory),
        },
        Err(DeskFault::Died { whole }) => {
            life.renew();
            if whole {
                if let Err(_) = make_ask(alloc, lists, 10, &ask, &mut Immortal::new()) {
                    return Err(Memory);
                }
            }
            Ok(Told::Died { whole })
        }
        Err(DeskFault::Memory) => Err(Memory),
    }
}

/// A life that refuses its n-th write, counted from 1.
fn dies_at(alloc: Global, n: u64) -> Result<Fuse, Memory>
    ensures { IfOk result (λ fuse. fuse.alive ≡ true) }
{
    let mut numbers = Vec::new(alloc);
    if n > 0 {
        numbers.push(n)?;
    }
    Ok(Fuse::new(numbers))
}

/// What became of the asks where the n-th word write was refused.
#[derive(Drop)]
struct Ending {
    same: bool,
    /// Whether the ask that died counted; None where none died.
    whole: Option<bool>,
}

fn ask_all(alloc: Global, n: u64) -> Result<Ending, Memory> {
    let confs = two_confs(alloc)?;
    let sizes = one_size(alloc)?;
    let mut regions = LocalDesk::new(alloc, &confs, &sizes)?;
    let mut lists = ListDesk::new(alloc, &confs, &sizes)?;
    let mut life = dies_at(alloc, n)?;
    let mut done = Ending {
        same: true,
        whole: None,
    };
    for what in ASKS {
        match ask_both(alloc, &mut regions, &mut lists, *what, &mut life)? {
            Told::Both { same } => done.same = done.same && same,
            Told::Died { whole } => done.whole = Some(whole),
        }
    }
    Ok(done)
}

/// More than the word writes of all the asks.
const WRITES: u64 = 1000;

#[test]
fn each_death_leaves_the_lists_before_the_ask_or_those_behind_it(
    rt: HostRuntime,
) -> Result<(), Fail> {
    let mut absent = 0u64;
    let mut whole = 0u64;
    let mut ended = false;
    for n in 1..WRITES {
        let ending = ask_all(rt.alloc(), n)?;
        assert!(rt; ending.same, "{n}");
        match ending.whole {
            Some(true) => whole = whole.saturating_add(1),
            Some(false) => absent = absent.saturating_add(1),
            None => {
                ended = true;
                break;
            }
        }
    }
    assert!(rt; ended);
    // Nine asks change something; of each more writes come before its gate opens than behind it.
    assert!(rt; whole >= 9);
    assert!(rt; absent > whole);
    Ok(())
}

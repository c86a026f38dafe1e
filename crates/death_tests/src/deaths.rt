// The machine of `pipe` over a desk whose worker dies.
ghost use Rattle.std.specs.Prelude.{◌≡◌, true};
ghost use Rattle.uw_rules.specs.PartNumbers.{AskPartsBelow};
ghost use Rattle.uw_rules.specs.Compiled.{rules_of};
ghost use Rattle.uw_conf.specs.Given.{parts_in};
ghost use Rattle.uw_conf.specs.Sound.{ArePartsOfSite};

use crate::mortal::MortalDesk;
use std::alloc::{AllocError, Global};
use std::test::Fail;
use uw_chain::Searches;
use uw_conf::{Conf, read_conf};
use uw_keeper::MemKeeper;
use uw_model::ListDesk;
use uw_outside::{BytesIn, BytesOut, FixedClock, Fuse};
use uw_rules::RegexPatterns;
use uw_top::{Brief, RunFault, serve_packets};

// The cache `c` of four entries.
const ONE_CACHE: &[u8] = b"[uwsgi]\ncache2 = name=c,items=4,blocksize=64\n";

const SET: &[u8] = b"\x6f\x06\x00\x01\x01\x00k\x01\x00v";

const GET: &[u8] = b"\x6f\x01\x00\x00k";

const OK: &[u8] = b"\x02\x00\x00\x00ok";

const VALUE: &[u8] = b"\x01\x00\x00\x00v";

const MISSING: &[u8] = b"\x00\x00\x00\x00";

const DEAD_ABSENT: &[u8] = b"\xff\xff\xff\xff\x00";

const DEAD_WHOLE: &[u8] = b"\xff\xff\xff\xff\x01";

// What a run wrote, what it told of each packet, and why it ended.
#[derive(Drop)]
struct Report {
    output: Vec<u8>,
    briefs: Vec<Brief>,
    fault: Option<RunFault>,
}

// Packets that are served over a configuration, by a worker with this life.
fn served_over(
    alloc: Global,
    conf: Conf,
    input: Vec<u8>,
    life: &mut Fuse,
    snk: &mut BytesOut,
) -> Result<Report, AllocError>
    requires parts { ArePartsOfSite conf.caches conf.areas }
    requires known { AskPartsBelow (parts_in conf) (rules_of conf.routes) }
    requires alive { life.old.alive ≡ true }
{
    let mut desk = match ListDesk::new(alloc, &conf.caches, &conf.areas) {
        Ok(lists) => MortalDesk { lists },
        Err(_) => return Err(AllocError),
    };
    let mut searches = match Searches::new(alloc, &conf.routes) {
        Ok(searches) => searches,
        Err(_) => return Err(AllocError),
    };
    let mut src = BytesIn::new(input, Vec::new(alloc));
    let mut clock = FixedClock::new([10, 11, 12, 13].to_vec(alloc)?);
    let mut keep = MemKeeper::new(Vec::new(alloc), Vec::new(alloc));
    let mut briefs = Vec::new(alloc);
    let fault = serve_packets(
        alloc,
        &mut searches,
        &conf,
        life,
        &mut desk,
        &mut keep,
        &mut briefs,
        &mut src,
        snk,
        &mut clock,
    );
    Ok(Report {
        output: snk.taken().to_vec(alloc)?,
        briefs,
        fault,
    })
}

// Packets that are served by a worker with this life, where these writes of frames fail.
fn served(
    alloc: Global,
    packets: &[&[u8]],
    life: &mut Fuse,
    write_fails: &[u64],
) -> Result<Report, AllocError>
    requires { life.old.alive ≡ true }
{
    let input = joined(alloc, packets)?;
    let mut snk = BytesOut::new(Vec::new(alloc), write_fails.to_vec(alloc)?);
    let mut make = RegexPatterns::new(Vec::new(alloc));
    match read_conf(alloc, ONE_CACHE, &mut make) {
        Ok(conf) => served_over(alloc, conf, input, life, &mut snk),
        Err(_) => Err(AllocError),
    }
}

// The frames that follow one another.
fn joined(alloc: Global, frames: &[&[u8]]) -> Result<Vec<u8>, AllocError> {
    let mut all = Vec::new(alloc);
    for frame in frames {
        all.extend_from_slice(frame)?;
    }
    Ok(all)
}

// The first death comes before its call counts, the second when it does; the third packet finds what the second left.
#[test]
fn a_death_is_told_and_the_next_packet_is_served(rt: HostRuntime) -> Result<(), Fail> {
    let alloc = rt.alloc();
    let report = served(
        alloc,
        &[SET, SET, GET],
        &mut Fuse::new([1, 2].to_vec(alloc)?),
        &[],
    )?;
    let frames = joined(alloc, &[DEAD_ABSENT, DEAD_WHOLE, VALUE])?;
    assert_eq!(rt; report.output.as_slice(), frames.as_slice());
    assert_eq!(rt; report.fault, None);
    let told = [
        Brief {
            moment: 10,
            died: Some(false),
        },
        Brief {
            moment: 11,
            died: Some(true),
        },
        Brief {
            moment: 12,
            died: None,
        },
    ];
    assert_eq!(rt; report.briefs.as_slice(), told.as_slice());
    Ok(())
}

#[test]
fn a_call_that_died_before_it_counted_left_nothing(rt: HostRuntime) -> Result<(), Fail> {
    let alloc = rt.alloc();
    let report = served(
        alloc,
        &[SET, GET, SET, GET],
        &mut Fuse::new([1].to_vec(alloc)?),
        &[],
    )?;
    let frames = joined(alloc, &[DEAD_ABSENT, MISSING, OK, VALUE])?;
    assert_eq!(rt; report.output.as_slice(), frames.as_slice());
    Ok(())
}

// A worker that is renewed counts from its next number: here it dies of each packet but the last.
#[test]
fn a_worker_dies_as_often_as_it_has_numbers(rt: HostRuntime) -> Result<(), Fail> {
    let alloc = rt.alloc();
    let report = served(
        alloc,
        &[GET, GET, GET, GET],
        &mut Fuse::new([2, 1, 2].to_vec(alloc)?),
        &[],
    )?;
    let frames = joined(alloc, &[DEAD_WHOLE, DEAD_ABSENT, DEAD_WHOLE, MISSING])?;
    assert_eq!(rt; report.output.as_slice(), frames.as_slice());
    Ok(())
}

#[test]
fn a_death_that_cannot_be_told_is_a_write_fault(rt: HostRuntime) -> Result<(), Fail> {
    let alloc = rt.alloc();
    let report = served(
        alloc,
        &[GET, SET, GET],
        &mut Fuse::new([3].to_vec(alloc)?),
        &[2],
    )?;
    assert_eq!(rt; report.output.as_slice(), MISSING);
    assert_eq!(rt; report.fault, Some(RunFault::WriteFault));
    assert_eq!(rt; report.briefs.len(), 1);
    Ok(())
}

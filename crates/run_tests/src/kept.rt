// The desk that `pipe` keeps.
use std::alloc::{AllocError, Global};
use std::test::Fail;
use uw_keeper::MemKeeper;
use uw_outside::{BytesIn, BytesOut, FixedClock};
use uw_rules::RegexPatterns;
use uw_shared::LocalDesk;
use uw_top::run;

const ONE_CACHE: &[u8] = b"[uwsgi]\ncache2 = name=c,items=4,blocksize=64\n";

const SET: &[u8] = b"\x6f\x06\x00\x01\x01\x00k\x01\x00v";

// How a run of these words over an input ends, with this desk kept before it.
fn status(
    alloc: Global,
    words: &[&str],
    input: &[u8],
    kept: &mut Option<LocalDesk>,
) -> Result<u8, AllocError> {
    let mut said = Vec::new(alloc);
    for word in words {
        said.push(String::from_str(alloc, word)?)?;
    }
    let mut conf = BytesIn::new(ONE_CACHE.to_vec(alloc)?, Vec::new(alloc));
    let mut make = RegexPatterns::new(Vec::new(alloc));
    let mut src = BytesIn::new(input.to_vec(alloc)?, Vec::new(alloc));
    let mut snk = BytesOut::new(Vec::new(alloc), Vec::new(alloc));
    let mut clock = FixedClock::new([10].to_vec(alloc)?);
    let mut keep = MemKeeper::new(Vec::new(alloc), Vec::new(alloc));
    let end = run(
        alloc,
        said.as_slice(),
        &mut conf,
        &mut make,
        &mut src,
        &mut snk,
        &mut clock,
        &mut keep,
        kept,
    );
    Ok(end.status)
}

// A desk is kept where `pipe` ends without a fault, a death in it or not, and by no other run; what was kept before stays.
#[test]
fn a_desk_is_kept_where_pipe_ends_without_a_fault(rt: HostRuntime) -> Result<(), Fail> {
    let alloc = rt.alloc();
    let mut kept = None;
    assert_eq!(rt; status(alloc, &["pipe"], b"\x6f", &mut kept)?, 5);
    assert!(rt; kept.is_none());
    assert_eq!(rt; status(alloc, &["spool"], SET, &mut kept)?, 0);
    assert!(rt; kept.is_none());
    assert_eq!(rt;
        status(alloc, &["pipe", "--die", "1,1"], SET, &mut kept)?,
        0
    );
    assert!(rt; kept.is_some());
    assert_eq!(rt; status(alloc, &["pipe"], b"\x6f", &mut kept)?, 5);
    assert!(rt; kept.is_some());
    let mut other = None;
    assert_eq!(rt; status(alloc, &["pipe"], SET, &mut other)?, 0);
    assert!(rt; other.is_some());
    Ok(())
}

// A run whose packets come behind silences: the clock goes on while the source waits.
ghost use Rattle.std.specs.Prelude.{Some};

use std::alloc::Global;
use std::cell::Cell;
use std::rc::Rc;
use std::test::Fail;
use uw_keeper::MemKeeper;
use uw_outside::{BytesIn, BytesOut, Clock, Got, Source};
use uw_rules::RegexPatterns;
use uw_top::{Brief, RunEnd, run};

// The time, which a source and a clock share.
type Time = Rc<Cell<u64>>;

// A source that is silent before each packet: a wait lasts until it is ten times as late.
#[derive(Drop)]
struct Silent {
    bytes: BytesIn,
    time: Time,
}

impl Source for Silent {
    ghost left = { λ s. Some s.bytes.left };

    ghost ended = { λ s. s.bytes.ended };

    ghost faults = { λ s. s.bytes.faults };

    fn read(&mut self, buf: &mut [u8]) -> Got {
        self.bytes.read(buf)
    }

    fn wait(&mut self) {
        let now = self.time.get();
        self.time.set(now.saturating_mul(10));
    }
}

// A clock that shows this time.
#[derive(Drop)]
struct Shown {
    time: Time,
}

impl Clock for Shown {
    ghost gave = { λ _ _ _. Unit {0} };

    ghost gave_none = { λ _. tt };

    ghost gave_more = { λ _ _ _ _ _ _ _. tt };

    fn now(&mut self) -> u64 {
        self.time.get()
    }
}

// `pipe` over the cache `c`, which begins at the moment 1.
fn ran(alloc: Global, input: &[u8], snk: &mut BytesOut) -> Result<RunEnd, Fail> {
    let words = vec![in alloc; String::from_str(alloc, "pipe")?]?;
    let text = b"[uwsgi]\ncache2 = name=c,items=4,blocksize=64\n".to_vec(alloc)?;
    let mut conf = BytesIn::new(text, Vec::new(alloc));
    let mut make = RegexPatterns::new(Vec::new(alloc));
    let time: Time = Rc::new(alloc, Cell::new(1))?;
    let mut src = Silent {
        bytes: BytesIn::new(input.to_vec(alloc)?, Vec::new(alloc)),
        time: time.clone()?,
    };
    let mut keep = MemKeeper::new(Vec::new(alloc), Vec::new(alloc));
    Ok(run(
        alloc,
        words.as_slice(),
        &mut conf,
        &mut make,
        &mut src,
        snk,
        &mut Shown { time },
        &mut keep,
        &mut None,
    ))
}

// `k` is set for 50 seconds, at the moment 10, and asked for at the moment 100. A clock that is asked before each wait
// gives 1 and 10, so that it would be found.
#[test]
fn a_moment_is_not_older_than_the_first_byte_of_its_packet(rt: HostRuntime) -> Result<(), Fail> {
    let alloc = rt.alloc();
    let mut snk = BytesOut::new(Vec::new(alloc), Vec::new(alloc));
    let input = b"\x6f\x0a\x00\x01\x01\x00k\x01\x00v\x02\x0050\x6f\x01\x00\x00k";
    let end = ran(alloc, input, &mut snk)?;
    assert_eq!(rt; end.fault, None);
    let frames = b"\x02\x00\x00\x00ok\x00\x00\x00\x00".as_slice();
    assert_eq!(rt; snk.taken(), frames);
    let told = [
        Brief {
            moment: 10,
            died: None,
        },
        Brief {
            moment: 100,
            died: None,
        },
    ];
    assert_eq!(rt; end.briefs.as_slice(), told.as_slice());
    Ok(())
}

// What a wait meets, and the clock that stands.
use std::io::{self, Read};
use std::test::Fail;
use uw_outside::{BytesIn, Clock, Got, Reading, Source, SteadyClock};

// A reader that gives a byte at a time, fails once after `good` bytes, and goes on past its end.
#[derive(Drop)]
struct Flaky<'a> {
    bytes: &'a [u8],
    good: usize,
    given: usize,
    ends: usize,
}

impl Read for Flaky<'_> {
    fn read(&mut self, buf: &mut [u8]) -> io::Result<usize> {
        if self.given == self.good {
            self.good = usize::MAX;
            return Err(io::Error::from(io::ErrorKind::Other));
        }
        if self.given < self.bytes.len() && !buf.is_empty() {
            buf[0] = self.bytes[self.given];
            self.given += 1;
            return Ok(1);
        }
        self.ends = self.ends.saturating_add(1);
        Ok(if self.ends == 1 || buf.is_empty() {
            0
        } else {
            1
        })
    }
}

// What six reads answer, each after two waits.
fn read_after_waits<S: Source>(src: &mut S) -> [Got; 6] {
    let mut answers = [Got::End; 6];
    for answer in &mut answers {
        src.wait();
        src.wait();
        *answer = src.read(&mut [0; 4]);
    }
    answers
}

// The reader gives a byte more behind its end, which a second look at the end would find.
#[test]
fn what_a_wait_met_is_answered_once(rt: HostRuntime) -> Result<(), Fail> {
    let reader = Flaky {
        bytes: b"abc",
        good: 2,
        given: 0,
        ends: 0,
    };
    let mut src = Reading::new(rt.alloc(), reader)?;
    let want = [
        Got::Count(1),
        Got::Count(1),
        Got::Failed,
        Got::Count(1),
        Got::End,
        Got::End,
    ];
    assert_eq!(rt; read_after_waits(&mut src), want);
    let bytes = b"abcdef".to_vec(rt.alloc())?;
    let mut src = BytesIn::new(bytes, [2].to_vec(rt.alloc())?);
    let want = [
        Got::Count(4),
        Got::Failed,
        Got::Count(2),
        Got::End,
        Got::End,
        Got::End,
    ];
    assert_eq!(rt; read_after_waits(&mut src), want);
    Ok(())
}

// The clock is copied, as for each worker.
#[test]
fn a_steady_clock_stands(rt: HostRuntime) {
    let mut clock = SteadyClock::new(7);
    let mut copy = clock;
    assert_eq!(rt; [clock.now(), clock.now(), copy.now()], [7; 3]);
}

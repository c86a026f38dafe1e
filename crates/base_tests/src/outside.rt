// The forms in memory and the adapters, through their traits.
use std::alloc::{AllocError, Global};
use std::io::{self, Read, Write};
use std::rt;
use std::test::Fail;
use std::time::Duration;
use uw_outside::{
    BytesIn, BytesOut, Clock, Filled, FixedClock, Fuse, Got, Immortal, Life, Put, Reading, Sink,
    Source, SystemClock, Writing, fill, put_all,
};

// What so many reads into a buffer of four bytes answer, and the bytes that they gave.
fn read_times<S: Source>(
    alloc: Global,
    src: &mut S,
    times: usize,
) -> Result<(Vec<Got>, Vec<u8>), AllocError> {
    let mut answers = Vec::new(alloc);
    let mut bytes = Vec::new(alloc);
    for _ in 0..times {
        let mut buf = [0; 4];
        let got = src.read(&mut buf);
        if let Got::Count(count) = got {
            bytes.extend_from_slice(&buf[..count])?;
        }
        answers.push(got)?;
    }
    Ok((answers, bytes))
}

// In two rows a listed read comes after the end.
#[test]
fn listed_reads_fail_until_the_end(rt: HostRuntime) -> Result<(), Fail> {
    let rows: [(&[u64], [Got; 5]); 5] = [
        (
            &[],
            [Got::Count(4), Got::Count(2), Got::End, Got::End, Got::End],
        ),
        (
            &[2, 5],
            [
                Got::Count(4),
                Got::Failed,
                Got::Count(2),
                Got::End,
                Got::End,
            ],
        ),
        (
            &[1, 2],
            [
                Got::Failed,
                Got::Failed,
                Got::Count(4),
                Got::Count(2),
                Got::End,
            ],
        ),
        (
            &[3],
            [
                Got::Count(4),
                Got::Count(2),
                Got::Failed,
                Got::End,
                Got::End,
            ],
        ),
        (
            &[4],
            [Got::Count(4), Got::Count(2), Got::End, Got::End, Got::End],
        ),
    ];
    for (fails, want) in rows {
        let bytes = b"abcdef".to_vec(rt.alloc())?;
        let mut src = BytesIn::new(bytes, fails.to_vec(rt.alloc())?);
        let (answers, read) = read_times(rt.alloc(), &mut src, 5)?;
        assert_eq!(rt; answers.as_slice(), want.as_slice(), "{fails:?}");
        assert_eq!(rt; read.as_slice(), b"abcdef".as_slice(), "{fails:?}");
    }
    Ok(())
}

#[test]
fn a_buffer_is_filled_up_to_the_end_or_a_failed_read(rt: HostRuntime) -> Result<(), Fail> {
    let rows: [(&[u8], &[u64], Filled); 6] = [
        (b"abcdef", &[], Filled::Whole),
        (b"abcd", &[2], Filled::Whole),
        (b"abc", &[], Filled::Short(3)),
        (b"", &[], Filled::Short(0)),
        (b"abc", &[2], Filled::Failed(3)),
        (b"abcd", &[1], Filled::Failed(0)),
    ];
    for (bytes, fails, want) in rows {
        let mut src = BytesIn::new(bytes.to_vec(rt.alloc())?, fails.to_vec(rt.alloc())?);
        let mut buf = [0; 4];
        assert_eq!(rt; fill(&mut src, &mut buf), want, "{bytes:?} {fails:?}");
        let count = match want {
            Filled::Whole => 4,
            Filled::Short(count) => count,
            Filled::Failed(count) => count,
        };
        assert_eq!(rt; buf.get(..count), bytes.get(..count), "{bytes:?} {fails:?}");
    }
    Ok(())
}

#[test]
fn a_listed_write_fails_and_takes_nothing(rt: HostRuntime) -> Result<(), Fail> {
    let out = b"x".to_vec(rt.alloc())?;
    let mut snk = BytesOut::new(out, [2].to_vec(rt.alloc())?);
    assert_eq!(rt; put_all(&mut snk, b"ab"), Ok(()));
    assert_eq!(rt; put_all(&mut snk, b"cd"), Err(0));
    assert_eq!(rt; snk.write(b"ef"), Put::Count(2));
    assert_eq!(rt; snk.taken(), b"xabef".as_slice());
    Ok(())
}

#[test]
fn the_last_moment_repeats(rt: HostRuntime) -> Result<(), Fail> {
    let mut clock = FixedClock::new([5, 3, 9].to_vec(rt.alloc())?);
    for want in [5, 3, 9, 9, 9] {
        assert_eq!(rt; clock.now(), want);
    }
    Ok(())
}

// A reader that gives a byte at a time, fails once after `good` bytes, and goes on past its end.
#[derive(Drop)]
struct Flaky<'a> {
    bytes: &'a [u8],
    good: usize,
    given: usize,
    ends: usize,
}

impl Read for Flaky<'_> {
    fn read(&mut self, buf: &mut [u8]) -> io::Result<usize> {
        if self.given == self.good {
            self.good = usize::MAX;
            return Err(io::Error::from(io::ErrorKind::Other));
        }
        if self.given < self.bytes.len() && !buf.is_empty() {
            buf[0] = self.bytes[self.given];
            self.given += 1;
            return Ok(1);
        }
        self.ends = self.ends.saturating_add(1);
        Ok(if self.ends == 1 || buf.is_empty() {
            0
        } else {
            1
        })
    }
}

#[test]
fn a_reader_is_read_to_its_end_past_a_failed_read(rt: HostRuntime) -> Result<(), Fail> {
    let reader = Flaky {
        bytes: b"abcdef",
        good: 2,
        given: 0,
        ends: 0,
    };
    let mut src = Reading::new(rt.alloc(), reader).ok().ok_or("memory")?;
    let mut buf = [0; 4];
    assert_eq!(rt; fill(&mut src, &mut buf), Filled::Failed(2));
    assert_eq!(rt; buf[..2], b"ab"[..]);
    assert_eq!(rt; fill(&mut src, &mut buf), Filled::Whole);
    assert_eq!(rt; buf, *b"cdef");
    assert_eq!(rt; fill(&mut src, &mut buf), Filled::Short(0));
    assert_eq!(rt; src.read(&mut buf), Got::End);
    Ok(())
}

// A writer that takes two bytes at most, and none once it holds five.
#[derive(Drop)]
struct Narrow<'a> {
    out: &'a mut Vec<u8>,
}

impl Write for Narrow<'_> {
    fn write(&mut self, buf: &[u8]) -> io::Result<usize> {
        let room = 5usize.saturating_sub(self.out.len());
        let count = buf.len().min(2).min(room);
        self.out.extend_from_slice(&buf[..count])?;
        Ok(count)
    }

    fn flush(&mut self) -> io::Result<()> {
        Ok(())
    }
}

#[test]
fn a_write_of_no_byte_fails(rt: HostRuntime) -> Result<(), Fail> {
    let mut out = Vec::new(rt.alloc());
    let mut snk = Writing::new(Narrow { out: &mut out });
    assert_eq!(rt; put_all(&mut snk, b"abc"), Ok(()));
    assert_eq!(rt; put_all(&mut snk, b"defg"), Err(2));
    drop(snk);
    assert_eq!(rt; out.as_slice(), b"abcde".as_slice());
    Ok(())
}

// A clock that stands still, or cannot be read.
#[derive(Drop)]
struct Still(Option<Duration>);

impl rt::Clock for Still {
    fn monotonic(&self) -> io::Result<Duration> {
        Ok(Duration::ZERO)
    }

    fn since_1970(&self) -> io::Result<Duration> {
        match self.0 {
            Some(time) => Ok(time),
            None => Err(io::Error::from(io::ErrorKind::Other)),
        }
    }
}

#[test]
fn the_clock_gives_whole_seconds(rt: HostRuntime) {
    let time = Duration::new(1_700_000_000, 999_999_999);
    assert_eq!(rt; SystemClock::new(Still(Some(time))).now(), 1_700_000_000);
    assert_eq!(rt; SystemClock::new(Still(None)).now(), 0);
    assert!(rt; SystemClock::new(&rt).now() > 1_700_000_000);
}

// What a life answers to five word writes.
fn five_writes<L: Life>(life: &mut L) -> [bool; 5] {
    [
        life.may_write(),
        life.may_write(),
        life.may_write(),
        life.may_write(),
        life.may_write(),
    ]
}

#[test]
fn a_fuse_refuses_the_write_of_its_number(rt: HostRuntime) -> Result<(), Fail> {
    let mut fuse = Fuse::new([3, 1, 2].to_vec(rt.alloc())?);
    let rows = [
        [true, true, false, false, false],
        [false; 5],
        [true, false, false, false, false],
        [true; 5],
        [true; 5],
    ];
    for want in rows {
        assert_eq!(rt; five_writes(&mut fuse), want);
        fuse.renew();
    }
    assert_eq!(rt; five_writes(&mut Immortal::new()), [true; 5]);
    Ok(())
}

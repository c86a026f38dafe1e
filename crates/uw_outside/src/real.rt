// Adapters over a reader, a writer and the clock of the system. They tell no content.
ghost use Rattle.std.specs.Prelude.{◌≡◌, IfOk, None, true, false};
ghost use Rattle.uw_outside.specs.Counts.{next_count};
ghost use Rattle.uw_outside.specs.Faults.{HasCause};
ghost use Rattle.uw_outside.specs.Streams.{is_failed};

use crate::counts::count_fault;
use crate::{Clock, Got, Put, Sink, Source};
use std::alloc::{AllocError, Global};
use std::io::{BufRead, BufReader, Read, Write};
use std::marker::Model;
use std::rt;
use std::time::{SystemTime, UNIX_EPOCH};

// How many bytes are asked of a reader at once.
const BUFFER_BYTES: usize = 65_536;

// What a wait met: a byte, or what the next read answers in its place.
#[derive(Clone, Copy)]
enum Met {
    Byte,
    End,
    Failure,
}

/// A source over any reader of std, which it reads through a buffer of 64 KiB. Once a read of it found no byte it
/// reads no more, and answers the end. An interrupted read counts as a failed one, since std does not repeat it.
#[derive(Drop)]
pub struct Reading<R> {
    reader: BufReader<R>,
    met: Met,
    ended: bool,
    faults: u64,
}

impl<R> Model for Reading<R> {
    ghost use Rattle.uw_outside.specs.Adapters.{Progress};

    ghost Value = { Progress };

    ghost view = { λ s. record { ended = s.ended; faults = s.faults } };
}

impl<R: Read + Drop> Reading<R> {
    /// The source over this reader, which is dropped where there is no memory for the buffer.
    pub fn new(alloc: Global, reader: R) -> Result<Reading<R>, AllocError>
        ensures { IfOk result (λ s. s ≡ record { ended = false; faults = 0 }) }
    {
        Reading::ahead(alloc, BUFFER_BYTES, reader)
    }

    // The same, with a buffer of so many bytes.
    pub(crate) fn ahead(alloc: Global, bytes: usize, reader: R) -> Result<Reading<R>, AllocError>
        ensures { IfOk result (λ s. s ≡ record { ended = false; faults = 0 }) }
    {
        match BufReader::with_capacity(alloc, bytes, reader) {
            Ok(reader) => Ok(Reading {
                reader,
                met: Met::Byte,
                ended: false,
                faults: 0,
            }),
            Err(_) => Err(AllocError),
        }
    }
}

impl<R> Reading<R> {
    fn end(&mut self) -> Got
        ensures answer { result ≡ Got.End }
        ensures ended { self.new ≡ record self.old { ended = true } }
    {
        self.ended = true;
        Got::End
    }

    fn fail(&mut self) -> Got
        ensures answer { result ≡ Got.Failed }
        ensures counted { self.new ≡ record self.old { faults = next_count self.old.faults } }
        ensures cause { HasCause self.old.faults self.new.faults (is_failed result) }
    {
        count_fault(&mut self.faults);
        self.met = Met::Byte;
        Got::Failed
    }
}

impl<R: Read> Source for Reading<R> {
    ghost left = { λ _. None };

    ghost ended = { λ s. s.ended };

    ghost faults = { λ s. s.faults };

    fn read(&mut self, buf: &mut [u8]) -> Got {
        if self.ended {
            return Got::End;
        }
        match self.met {
            Met::End => self.end(),
            Met::Failure => self.fail(),
            Met::Byte => match self.reader.read(buf) {
                Ok(0) => self.end(),
                Ok(count) => Got::Count(count),
                Err(_) => self.fail(),
            },
        }
    }

    // What it met once stands until a read answers it: a terminal is asked for its end only once.
    fn wait(&mut self) {
        if self.ended || !matches!(self.met, Met::Byte) {
            return;
        }
        self.met = match self.reader.fill_buf() {
            Ok([]) => Met::End,
            Ok(_) => Met::Byte,
            Err(_) => Met::Failure,
        };
    }
}

/// A sink over any writer of std, which it calls once for each write. A write that takes no byte counts as failed.
/// Contracts see it as the count of its failed writes.
#[derive(Drop)]
pub struct Writing<W> {
    writer: W,
    faults: u64,
}

impl<W> Model for Writing<W> {
    ghost use Rattle.std.specs.Prelude.{ℕ};

    ghost Value = { ℕ };

    ghost view = { λ s. s.faults };
}

impl<W: Write> Writing<W> {
    /// The sink over this writer. Takes no memory.
    pub fn new(writer: W) -> Writing<W>
        ensures { result ≡ 0 }
    {
        Writing { writer, faults: 0 }
    }
}

impl<W: Write> Sink for Writing<W> {
    ghost taken = { λ _. None };

    ghost faults = { λ faults. faults };

    fn write(&mut self, piece: &[u8]) -> Put {
        match self.writer.write(piece) {
            Ok(0) | Err(_) => {
                count_fault(&mut self.faults);
                Put::Failed
            }
            Ok(count) => Put::Count(count),
        }
    }
}

/// The clock of the system, in whole seconds since the epoch. Where it cannot be read or stands before the epoch it
/// gives 0. It does not tell its moments.
#[derive(Clone, Copy, Drop)]
pub struct SystemClock<R> {
    rt: R,
}

impl<R: rt::Clock> SystemClock<R> {
    pub fn new(rt: R) -> SystemClock<R> {
        SystemClock { rt }
    }
}

impl<R: rt::Clock> Clock for SystemClock<R> {
    ghost gave = { λ _ _ _. Unit {0} };

    ghost gave_none = { λ _. tt };

    ghost gave_more = { λ _ _ _ _ _ _ _. tt };

    fn now(&mut self) -> u64 {
        match SystemTime::now(&self.rt) {
            Ok(time) => match time.duration_since(UNIX_EPOCH) {
                Ok(past) => past.as_secs(),
                Err(_) => 0,
            },
            Err(_) => 0,
        }
    }
}

// A source of bytes, and one in memory.
ghost use Rattle.std.specs.Prelude.{◌≡◌, ◌<◌, ◌≤◌, ◌↔◌, IsTrue, not, Bool, false, List, ℕ, length, take, drop, ◌++◌, min, Option, Some, if◌then◌else◌};
ghost use Rattle.uw_outside.specs.Counts.{next_count, IsListed};
ghost use Rattle.uw_outside.specs.Faults.{HasCause};
ghost use Rattle.uw_outside.specs.InMemory.{GivesMost, overwritten};
ghost use Rattle.uw_outside.specs.Streams.{Takes, Reads, Ends, FillsBy, is_failed, filled_count, has_broken_off};

use crate::counts::{count_call, count_fault};
use std::marker::Model;

/// What a read answers.
#[derive(Clone, Copy, Debug, PartialEq, Eq)]
pub enum Got {
    /// So many bytes, at least one, stand at the front of the buffer.
    Count(usize),
    /// Nothing is left, and every later read answers this too.
    End,
    /// The read failed and took nothing.
    Failed,
}

/// A source of bytes that counts its failed reads.
pub trait Source {
    /// The bytes that are left, where it tells. Whether it tells, no call changes.
    ghost left: { Self → Option (List ℕ) };

    /// Whether the last read answered the end.
    ghost ended: { Self → Bool };

    /// How many reads have failed.
    ghost faults: { Self → ℕ };

    /// Reads at least one byte into the front of the buffer, unless the source is at its end or fails.
    fn read(&mut self, buf: &mut [u8]) -> Got
        requires { 0 < length buf.old }
        ensures bytes { Reads (left self.old) (left self.new) buf.new result }
        ensures ended { Ends (ended self.old) (ended self.new) result }
        ensures cause { HasCause (faults self.old) (faults self.new) (is_failed result) };

    /// Waits until the source has a byte, has ended or has failed. It takes nothing, and counts nothing: what it met in
    /// place of a byte is for the next read to answer.
    fn wait(&mut self)
        ensures left { left self.new ≡ left self.old }
        ensures ended { ended self.new ≡ ended self.old }
        ensures faults { faults self.new ≡ faults self.old };
}

/// How far a buffer was filled.
#[derive(Clone, Copy, Debug, PartialEq, Eq)]
pub enum Filled {
    Whole,
    /// The source ended after so many bytes.
    Short(usize),
    /// A read failed after so many bytes.
    Failed(usize),
}

/// Reads until the buffer is full, the source ends or a read fails.
pub fn fill<S: Source>(src: &mut S, buf: &mut [u8]) -> Filled
    ensures bytes { Takes (S.left src.old) (S.left src.new) (take (filled_count buf.new result) buf.new) }
    ensures why { FillsBy buf.new (S.left src.new) (S.ended src.new) (S.faults src.old) (S.faults src.new) result }
    ensures later { S.faults src.old ≤ S.faults src.new }
    ensures kept { IsTrue (not (has_broken_off result)) → S.faults src.new ≡ S.faults src.old }
{
    let mut count = 0;
    while count < buf.len() {
        match src.read(&mut buf[count..]) {
            Got::Count(more) => count += more,
            Got::End => return Filled::Short(count),
            Got::Failed => return Filled::Failed(count),
        }
    }
    Filled::Whole
}

/// A source over bytes in memory, of which the listed reads fail. Each other read gives as many bytes as fit.
#[derive(Drop)]
pub struct BytesIn {
    bytes: Vec<u8>,
    // How many of the bytes were given.
    given: usize,
    fails: Vec<u64>,
    reads: u64,
    ended: bool,
    faults: u64,
}

impl Model for BytesIn {
    ghost use Rattle.std.specs.Prelude.{◌≡◌, ◌≤◌, true, drop, vec_len};
    ghost use Rattle.uw_outside.specs.InMemory.{Incoming};

    ghost Value = { Incoming };

    ghost view = { λ s. record {
      left = drop s.given s.bytes.items;
      fails = s.fails.items;
      reads = s.reads;
      ended = s.ended;
      faults = s.faults;
    } };

    ghost invariant = { λ s. (s.given ≤ vec_len s.bytes)
        × (s.ended ≡ true → vec_len s.bytes ≤ s.given) };
}

impl BytesIn {
    /// The source of these bytes, whose reads at the places in `fails`, counted from 1, fail.
    /// A read after one that answered the end answers the end, listed or not. Takes no memory.
    pub fn new(bytes: Vec<u8>, fails: Vec<u64>) -> BytesIn
        ensures { result ≡ record {
          left = bytes.items;
          fails = fails.items;
          reads = 0;
          ended = false;
          faults = 0;
        } }
    {
        BytesIn {
            bytes,
            given: 0,
            fails,
            reads: 0,
            ended: false,
            faults: 0,
        }
    }
}

impl Source for BytesIn {
    ghost left = { λ s. Some s.left };

    ghost ended = { λ s. s.ended };

    ghost faults = { λ s. s.faults };

    fn read(&mut self, buf: &mut [u8]) -> Got
        requires { 0 < length buf.old }
        ensures bytes { Reads (Some self.old.left) (Some self.new.left) buf.new result }
        ensures ended { Ends self.old.ended self.new.ended result }
        ensures cause { HasCause self.old.faults self.new.faults (is_failed result) }

        // Just the listed reads fail, and a read gives what fits.
        ensures listed { (result ≡ Got.Failed)
            ↔ ((self.old.ended ≡ false) × IsListed self.old.fails self.old.reads) }
        ensures most { GivesMost self.old.left buf.old result }
        ensures buffer { buf.new ≡ overwritten self.old.left buf.old result }

        // The counts and the list.
        ensures counted { self.new.reads ≡ next_count self.old.reads }
        ensures faults { self.new.faults
            ≡ (if is_failed result then next_count self.old.faults else self.old.faults) }
        ensures fails { self.new.fails ≡ self.old.fails }
    {
        let listed = count_call(&mut self.reads, &self.fails);
        if self.ended {
            return Got::End;
        }
        if listed {
            count_fault(&mut self.faults);
            return Got::Failed;
        }
        let count = copy_front(&self.bytes[self.given..], buf);
        if count == 0 {
            self.ended = true;
            return Got::End;
        }
        self.given += count;
        Got::Count(count)
    }

    // Its bytes, its end and its listed failures are there at once.
    fn wait(&mut self)
        ensures left { self.new.left ≡ self.old.left }
        ensures ended { self.new.ended ≡ self.old.ended }
        ensures faults { self.new.faults ≡ self.old.faults }
        ensures same { self.new ≡ self.old }
    {}
}

// Copies as many bytes as there are and fit to the front of `to`, and says how many.
fn copy_front(from: &[u8], to: &mut [u8]) -> usize
    ensures count { result ≡ min (length from.now) (length to.old) }
    ensures front { take result to.new ≡ take result from.now }
    ensures copied { to.new ≡ take result from.now ++ drop result to.old }
{
    let count = from.len().min(to.len());
    to[..count].copy_from_slice(&from[..count]);
    count
}

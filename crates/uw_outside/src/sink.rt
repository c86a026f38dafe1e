// A sink of bytes, and one in memory.
ghost use Rattle.std.specs.Prelude.{◌≡◌, ◌+◌, ◌<◌, ◌≤◌, ◌⊎◌, List, ℕ, length, take, Option, Some, OnOk, OnErr, IfErr, vec_capacity, if◌then◌else◌};
ghost use Rattle.uw_outside.specs.Counts.{next_count, IsListed};
ghost use Rattle.uw_outside.specs.Faults.{HasCause, Rose};
ghost use Rattle.uw_outside.specs.InMemory.{TakesAll};
ghost use Rattle.uw_outside.specs.Streams.{Gives, Writes, has_failed};

use crate::counts::{count_call, count_fault};
use std::marker::Model;

/// What a write answers.
#[derive(Clone, Copy, Debug, PartialEq, Eq)]
pub enum Put {
    /// So many bytes of the front of the piece, at least one, were taken.
    Count(usize),
    /// The write failed and took nothing.
    Failed,
}

/// A sink of bytes that counts its failed writes.
pub trait Sink {
    /// The bytes that it has taken, where it tells. Whether it tells, no call changes.
    ghost taken: { Self → Option (List ℕ) };

    /// How many writes have failed.
    ghost faults: { Self → ℕ };

    /// Takes at least one byte of the front of the piece, unless it fails.
    fn write(&mut self, piece: &[u8]) -> Put
        requires { 0 < length piece.now }
        ensures bytes { Writes (taken self.old) (taken self.new) piece.now result }
        ensures cause { HasCause (faults self.old) (faults self.new) (has_failed result) };
}

/// Writes a piece whole, unless a write fails: then it says how many bytes were taken before.
pub fn put_all<K: Sink>(snk: &mut K, piece: &[u8]) -> Result<(), usize>
    ensures whole { OnOk result (Gives (K.taken snk.old) (K.taken snk.new) piece.now) }
    ensures part { IfErr result (λ n. (n < length piece.now) × Gives (K.taken snk.old) (K.taken snk.new) (take n piece.now)) }
    ensures cause { OnErr result (Rose (K.faults snk.old) (K.faults snk.new)) }
    ensures later { K.faults snk.old ≤ K.faults snk.new }
    ensures kept { OnOk result (K.faults snk.new ≡ K.faults snk.old) }
{
    let mut count = 0;
    while count < piece.len() {
        match snk.write(&piece[count..]) {
            Put::Count(more) => count += more,
            Put::Failed => return Err(count),
        }
    }
    Ok(())
}

/// A sink that keeps its bytes in memory, of which the listed writes fail. Each other write takes the whole piece.
#[derive(Drop)]
pub struct BytesOut {
    taken: Vec<u8>,
    fails: Vec<u64>,
    writes: u64,
    faults: u64,
}

impl Model for BytesOut {
    ghost use Rattle.std.specs.Prelude.{vec_capacity};
    ghost use Rattle.uw_outside.specs.InMemory.{Outgoing};

    ghost Value = { Outgoing };

    ghost view = { λ s. record {
      taken = s.taken.items;
      room = vec_capacity s.taken;
      fails = s.fails.items;
      writes = s.writes;
      faults = s.faults;
    } };
}

impl BytesOut {
    /// The sink that has taken the bytes of `out` at first, whose writes at the places in `fails`, counted from 1, fail.
    /// A write for which there is no memory fails too. Takes no memory.
    pub fn new(out: Vec<u8>, fails: Vec<u64>) -> BytesOut
        ensures { result ≡ record {
          taken = out.items;
          room = vec_capacity out;
          fails = fails.items;
          writes = 0;
          faults = 0;
        } }
    {
        BytesOut {
            taken: out,
            fails,
            writes: 0,
            faults: 0,
        }
    }

    /// All bytes that it has taken.
    pub fn taken(&self) -> &[u8]
        ensures { result.now ≡ self.now.taken }
    {
        &self.taken
    }
}

impl Sink for BytesOut {
    ghost taken = { λ s. Some s.taken };

    ghost faults = { λ s. s.faults };

    fn write(&mut self, piece: &[u8]) -> Put
        requires { 0 < length piece.now }
        ensures bytes { Writes (Some self.old.taken) (Some self.new.taken) piece.now result }
        ensures cause { HasCause self.old.faults self.new.faults (has_failed result) }

        // The listed writes fail. Another one fails only where it had to ask for memory.
        ensures listed { IsListed self.old.fails self.old.writes → result ≡ Put.Failed }
        ensures memory { result ≡ Put.Failed → (IsListed self.old.fails self.old.writes
            ⊎ (self.old.room < length self.old.taken + length piece.now)) }
        ensures all { TakesAll piece.now result }
        ensures room { self.old.room ≤ self.new.room }

        // The counts and the list.
        ensures counted { self.new.writes ≡ next_count self.old.writes }
        ensures faults { self.new.faults
            ≡ (if has_failed result then next_count self.old.faults else self.old.faults) }
        ensures fails { self.new.fails ≡ self.old.fails }
    {
        let listed = count_call(&mut self.writes, &self.fails);
        if !listed && self.taken.extend_from_slice(piece).is_ok() {
            return Put::Count(piece.len());
        }
        count_fault(&mut self.faults);
        Put::Failed
    }
}

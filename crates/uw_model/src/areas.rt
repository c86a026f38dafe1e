// What a shared area is asked, and what it answers ("SharedArea").
ghost use Rattle.std.specs.Prelude.{◌≡◌, ◌≤◌, length};
ghost use Rattle.uw_model.specs.AreaLimits.{most_written};

use std::marker::Model;
use uw_base::Bytes;

/// How many bits a number of an area has.
#[derive(Clone, Copy, Debug, PartialEq, Eq)]
pub enum Width {
    W8,
    W16,
    W32,
    W64,
}

/// Bytes to write into an area, at most 65,536. Contracts see them as their list.
#[derive(Drop)]
pub struct AreaBytes {
    bytes: Bytes,
}

impl Model for AreaBytes {
    ghost use Rattle.std.specs.Prelude.{List, ℕ, ◌≤◌, length};
    ghost use Rattle.uw_model.specs.AreaLimits.{most_written};

    ghost Value = { List ℕ };

    ghost view = { λ b. b.bytes };

    ghost invariant = { λ b. length b.bytes ≤ most_written };
}

impl AreaBytes {
    /// The same bytes. Takes no memory.
    pub fn new(bytes: Bytes) -> AreaBytes
        requires { length bytes ≤ most_written }
        ensures { result ≡ bytes }
    {
        AreaBytes { bytes }
    }

    pub fn as_slice(&self) -> &[u8]
        ensures bytes { result.now ≡ self.now }
        ensures few { length result.now ≤ most_written }
    {
        self.bytes.as_slice()
    }
}

/// What an area is asked. Places and lengths count its bytes from 0. Numbers have no sign, stand with their lowest byte
/// first, and wrap.
#[derive(Drop)]
pub enum AreaOp {
    Read { at: u64, len: u64 },
    Write { at: u64, bytes: AreaBytes },
    ReadNum { at: u64, width: Width },
    /// Writes the number that is left of the value in its width.
    WriteNum { at: u64, width: Width, value: u64 },
    IncNum { at: u64, width: Width, by: u64 },
    DecNum { at: u64, width: Width, by: u64 },
    /// Asks how many writes were not refused, modulo 2^64.
    Updates,
}

/// What an area answers.
#[derive(Drop)]
pub enum AreaAnswer {
    Bytes(Bytes),
    Number(u64),
    Done,
    /// The slice of `len` bytes from `at` on ends behind the `size` bytes of the area. Nothing was changed.
    OutOfArea { at: u64, len: u64, size: u64 },
}

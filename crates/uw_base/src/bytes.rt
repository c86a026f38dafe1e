// Owned bytes, which contracts see as the list of them.
ghost use Rattle.std.specs.Prelude.{◌≡◌, ◌+◌, List, [], ◌∷◌, ◌++◌, ℕ, length, IfOk, OnOk, OnErr};

use std::alloc::{AllocError, AllocFailed, Global};
use std::marker::Model;

/// Want of memory: the one answer that no clause ties to a cause.
#[derive(Clone, Copy, Debug, PartialEq, Eq)]
pub struct Memory;

impl From<AllocError> for Memory {
    fn from(_: AllocError) -> Memory {
        Memory
    }
}

impl<T: Drop> From<AllocFailed<T>> for Memory {
    fn from(_: AllocFailed<T>) -> Memory {
        Memory
    }
}

/// Owned bytes. Contracts see them as the list of the bytes.
#[derive(Drop)]
pub struct Bytes {
    bytes: Vec<u8>,
}

impl Model for Bytes {
    ghost Value = { List ℕ };

    ghost view = { λ b. b.bytes.items };
}

impl Bytes {
    /// No bytes. Takes no memory.
    pub fn new(alloc: Global) -> Bytes
        ensures { result ≡ [] }
    {
        Bytes {
            bytes: Vec::new(alloc),
        }
    }

    /// The bytes of a vector. Takes no memory.
    pub fn from_vec(bytes: Vec<u8>) -> Bytes
        ensures { result ≡ bytes.items }
    {
        Bytes { bytes }
    }

    /// The vector of the bytes. Takes no memory.
    pub fn into_vec(self) -> Vec<u8>
        ensures { result.items ≡ self }
    {
        self.bytes
    }

    /// A copy of a slice.
    pub fn from_slice(alloc: Global, bytes: &[u8]) -> Result<Bytes, Memory>
        ensures { IfOk result (λ b. b ≡ bytes.now) }
    {
        Ok(Bytes {
            bytes: Vec::from_slice(alloc, bytes)?,
        })
    }

    /// Two slices, the one behind the other.
    pub fn joined(alloc: Global, front: &[u8], back: &[u8]) -> Result<Bytes, Memory>
        ensures { IfOk result (λ b. b ≡ front.now ++ back.now) }
    {
        let mut bytes = Vec::with_capacity(alloc, front.len().saturating_add(back.len()))?;
        bytes.extend_from_slice(front)?;
        bytes.extend_from_slice(back)?;
        Ok(Bytes { bytes })
    }

    pub fn as_slice(&self) -> &[u8]
        ensures { result.now ≡ self.now }
    {
        self.bytes.as_slice()
    }

    /// The number of bytes.
    pub fn len(&self) -> usize
        ensures { result ≡ length self.now }
    {
        self.bytes.len()
    }

    /// Puts one byte at the end.
    pub fn push(&mut self, byte: u8) -> Result<(), Memory>
        ensures ok { OnOk result (self.new ≡ self.old ++ byte ∷ []) }
        ensures err { OnErr result (self.new ≡ self.old) }
    {
        self.bytes.push(byte)?;
        Ok(())
    }

    /// Puts more bytes at the end.
    pub fn append(&mut self, more: &[u8]) -> Result<(), Memory>
        ensures ok { OnOk result (self.new ≡ self.old ++ more.now) }
        ensures err { OnErr result (self.new ≡ self.old) }
    {
        self.bytes.extend_from_slice(more)?;
        Ok(())
    }
}

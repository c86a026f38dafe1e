// Lists of bytes and of numbers, which contracts see as lists.
ghost use Rattle.std.specs.Prelude.{◌≡◌, ◌+◌, ◌<◌, List, [], ◌∷◌, ◌++◌, ℕ, length, slice_index_or, IfOk, OnOk, OnErr};

use crate::{Bytes, Memory};
use std::alloc::Global;
use std::marker::Model;

/// A list of byte strings. Contracts see it as the list of them.
#[derive(Drop)]
pub struct BytesList {
    texts: Vec<Bytes>,
}

impl Model for BytesList {
    ghost Value = { List (List ℕ) };

    ghost view = { λ l. l.texts.items };
}

impl BytesList {
    /// The list with no text. Takes no memory.
    pub fn new(alloc: Global) -> BytesList
        ensures { result ≡ [] }
    {
        BytesList {
            texts: Vec::new(alloc),
        }
    }

    /// The list of a vector. Takes no memory.
    pub fn from_vec(texts: Vec<Bytes>) -> BytesList
        ensures { result ≡ texts.items }
    {
        BytesList { texts }
    }

    /// The vector of the texts. Takes no memory.
    pub fn into_vec(self) -> Vec<Bytes>
        ensures { result.items ≡ self }
    {
        self.texts
    }

    pub fn as_slice(&self) -> &[Bytes]
        ensures { result.now ≡ self.now }
    {
        self.texts.as_slice()
    }

    /// The number of texts.
    pub fn len(&self) -> usize
        ensures { result ≡ length self.now }
    {
        self.texts.len()
    }

    /// Puts one text at the end.
    pub fn push(&mut self, text: Bytes) -> Result<(), Memory>
        ensures ok { OnOk result (self.new ≡ self.old ++ text ∷ []) }
        ensures err { OnErr result (self.new ≡ self.old) }
    {
        self.texts.push(text)?;
        Ok(())
    }
}

/// A list of numbers. Contracts see it as the list of them.
#[derive(Drop)]
pub struct NumberList {
    numbers: Vec<u64>,
}

impl Model for NumberList {
    ghost Value = { List ℕ };

    ghost view = { λ l. l.numbers.items };
}

impl NumberList {
    /// The list with no number. Takes no memory.
    pub fn new(alloc: Global) -> NumberList
        ensures { result ≡ [] }
    {
        NumberList {
            numbers: Vec::new(alloc),
        }
    }

    /// The list of a vector. Takes no memory.
    pub fn from_vec(numbers: Vec<u64>) -> NumberList
        ensures { result ≡ numbers.items }
    {
        NumberList { numbers }
    }

    pub fn as_slice(&self) -> &[u64]
        ensures { result.now ≡ self.now }
    {
        self.numbers.as_slice()
    }

    /// Puts one number at the end.
    pub fn push(&mut self, number: u64) -> Result<(), Memory>
        ensures ok { OnOk result (self.new ≡ self.old ++ number ∷ []) }
        ensures err { OnErr result (self.new ≡ self.old) }
    {
        self.numbers.push(number)?;
        Ok(())
    }
}

// Variables: pairs of a key and a value.
ghost use Rattle.std.specs.Prelude.{◌≡◌, ◌<◌, List, [], ◌∷◌, ◌++◌, length, slice_get, Some, IfOk, OnOk, OnErr};
ghost use Rattle.uw_base.specs.Variables.{value_of};

use crate::{Bytes, Memory};
use std::alloc::Global;
use std::marker::Model;

/// A variable: its key and its value. Contracts see variables as a list of these.
#[derive(Drop)]
pub struct Pair {
    pub key: Bytes,
    pub value: Bytes,
}

// Where a variable stands in the bytes: its key from `start` to `middle`, and its value from there to `end`.
#[derive(Clone, Copy)]
struct Span {
    start: usize,
    middle: usize,
    end: usize,
}

/// Variables in their order, all of them in one buffer. Contracts see them as the list of pairs.
#[derive(Drop)]
pub struct Vars {
    bytes: Bytes,
    spans: Vec<Span>,
}

impl Model for Vars {
    ghost use Rattle.std.specs.Prelude.{List, length};
    ghost use Rattle.uw_base.specs.declared.variables.Pair.{Pair};
    ghost use Rattle.uw_base.specs.VariableSpans.{AreSpansWithin, pairs_at};

    ghost Value = { List Pair };

    ghost view = { λ v. pairs_at v.bytes v.spans.items };

    ghost invariant = { λ v. AreSpansWithin (length v.bytes) v.spans.items };
}

impl Vars {
    /// No variable. Takes no memory.
    pub fn new(alloc: Global) -> Vars
        ensures { result ≡ [] }
    {
        Vars {
            bytes: Bytes::new(alloc),
            spans: Vec::new(alloc),
        }
    }

    /// No variable, with room for so many and their bytes.
    pub fn with_room(alloc: Global, pairs: usize, bytes: usize) -> Result<Vars, Memory>
        ensures { IfOk result (λ vars. vars ≡ []) }
    {
        Ok(Vars {
            bytes: Bytes::from_vec(Vec::with_capacity(alloc, bytes)?),
            spans: Vec::with_capacity(alloc, pairs)?,
        })
    }

    /// The number of pairs.
    pub fn len(&self) -> usize
        ensures { result ≡ length self.now }
    {
        self.spans.len()
    }

    /// The key and the value of the pair at a place. Takes no memory.
    pub fn pair(&self, place: usize) -> (&[u8], &[u8])
        requires { place < length self.now }
        ensures { slice_get self.now place ≡ Some (record { key = result.0.now; value = result.1.now }) }
    {
        let Span { start, middle, end } = self.spans[place];
        let bytes = self.bytes.as_slice();
        (&bytes[start..middle], &bytes[middle..end])
    }

    /// The value of the last pair of the key, or the empty text where there is none. Takes no memory.
    pub fn get(&self, key: &[u8]) -> &[u8]
        ensures { result.now ≡ value_of self.now key.now }
    {
        for place in (0..self.len()).rev() {
            let pair = self.pair(place);
            if pair.0 == key {
                return pair.1;
            }
        }
        &[]
    }

    /// Puts a pair of copies of the key and the value at the end, so that the key has this value from now on.
    pub fn set(&mut self, key: &[u8], value: &[u8]) -> Result<(), Memory>
        ensures ok { OnOk result (self.new ≡ self.old ++ record { key = key.now; value = value.now } ∷ []) }
        ensures err { OnErr result (self.new ≡ self.old) }
    {
        let start = self.bytes.len();
        self.bytes.append(key)?;
        let middle = self.bytes.len();
        self.bytes.append(value)?;
        let end = self.bytes.len();
        self.spans.push(Span { start, middle, end })?;
        Ok(())
    }
}

// The words of a region.
ghost use Rattle.std.specs.Prelude.{◌≡◌, ◌<◌, ◌^◌, ◌&&◌, not, false, length, replicate, slice_set, is_ok, IfOk, OnOk, OnErr};
ghost use Rattle.uw_outside.specs.Faults.{HasCause};
ghost use Rattle.uw_outside.specs.Lives.{Allows};
ghost use Rattle.uw_words.specs.Plans.{region};

use std::alloc::Global;
use std::marker::Model;
use uw_base::Memory;
use uw_outside::{Died, Life};

/// The words of a region, each the last one that was stored there. Contracts see it as the list of them.
#[derive(Drop)]
pub struct Ram {
    words: Vec<u64>,
}

impl Model for Ram {
    ghost use Rattle.std.specs.Prelude.{List, ℕ};

    ghost Value = { List ℕ };

    ghost view = { λ r. r.words.items };
}

impl Ram {
    /// So many words, all zero.
    pub fn new(alloc: Global, len: u64) -> Result<Ram, Memory>
        ensures { IfOk result (λ ram. ram ≡ replicate len 0) }
    {
        Ok(Ram {
            words: vec![in alloc; 0; len as usize]?,
        })
    }

    /// The number of words.
    pub fn len(&self) -> u64
        ensures len { result ≡ length self.now }
        ensures small { result < 2 ^ 63 }
    {
        self.words.len() as u64
    }

    /// The word at a place. Takes no memory.
    pub fn load(&self, at: u64) -> u64
        requires { at < length self.now }
        ensures { result ≡ region self.now at }
    {
        self.words[at as usize]
    }

    /// Stores a word, where the life lets the write through. Takes no memory.
    pub fn store<L: Life>(&mut self, at: u64, word: u64, life: &mut L) -> Result<(), Died>
        requires { at < length self.old }
        ensures stored { OnOk result (self.new ≡ slice_set self.old at word) }
        ensures refused { OnErr result (self.new ≡ self.old) }

        // The life lets the write through, or dies in place of it.
        ensures dead { L.alive life.old ≡ false → is_ok result ≡ false }
        ensures alive { L.alive life.new ≡ (L.alive life.old && is_ok result) }
        ensures cause { HasCause (L.deaths life.old) (L.deaths life.new) (L.alive life.old && not (is_ok result)) }
        ensures told { Allows (L.allowances life.old) (L.allowances life.new) (L.alive life.old) (is_ok result) }
    {
        if !life.may_write() {
            return Err(Died);
        }
        self.words[at as usize] = word;
        Ok(())
    }
}

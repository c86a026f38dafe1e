// Words that are planned for places of a region.
ghost use Rattle.std.specs.Prelude.{◌≡◌, ◌+◌, ◌-◌, ◌^◌, ◌<◌, ◌≤◌, ◌⊎◌, [], length, slice_get, unwrap_or, IfOk, Some};
ghost use Rattle.uw_words.specs.Plans.{planned, region, through, with_put, Names, HasDistinctPlaces};

use crate::ram::Ram;
use crate::sieve::{SHUT, SIEVE_WORDS, admit, passes, shut_out};
use crate::slots::{empty, rebuild, seek};
use std::alloc::Global;
use std::marker::Model;
use uw_base::Memory;

// As few slots as a table has: for 63 places they do.
const FEWEST_SLOTS: usize = 128;

// More places than the four bytes of a slot can number.
const TOO_MANY_PLACES: u64 = 1 << 32;

/// Words that are planned for places of a region and are read in place of its own. Contracts see the planned writes, each
/// place once with its last word, in the order in which they were first put since the last `clear`, and how many places
/// they can name. After `new` no call takes memory, and none but `new` costs more where the room is larger.
#[derive(Drop)]
pub struct Overlay {
    room: u64,
    writes: Vec<(u64, u64)>,
    // By the slots a place is found among the writes. There are more than twice as many as writes: they grow with these,
    // so that a few writes need few slots, whatever the room is.
    slots: Vec<u32>,
    most_slots: usize,
    // It keeps out most places that are not planned, in one step.
    sieve: [u32; SIEVE_WORDS],
}

impl Model for Overlay {
    ghost use Rattle.uw_words.specs.Plans.{Plan};
    ghost use Rattle.uw_words.specs.Overlays.{IsSound};
    ghost use Rattle.uw_words.specs.Slots.{PassesAll};

    ghost Value = { Plan };

    ghost view = { λ o. record { writes = o.writes.items; room = o.room } };

    ghost invariant = { λ o. IsSound o.room o.writes o.slots o.most_slots × PassesAll o.sieve o.writes.items };
}

impl Overlay {
    /// Can name so many places. Takes the memory for all of them: 16 bytes for each, and four for each slot, of which
    /// there are as many as the least power of two from twice the places and 128 on. For 2^32 places or more there is
    /// no memory.
    pub fn new(alloc: Global, room: u64) -> Result<Overlay, Memory>
        ensures empty { IfOk result (λ overlay. overlay ≡ record { writes = []; room = room }) }
        ensures few { IfOk result (λ overlay. room < 2 ^ 32) }
    {
        if room >= TOO_MANY_PLACES {
            return Err(Memory);
        }
        let most_slots = (2 * room as usize + FEWEST_SLOTS).next_power_of_two();
        let writes = Vec::with_capacity(alloc, room as usize)?;
        let mut slots = Vec::with_capacity(alloc, most_slots)?;
        empty(&mut slots, FEWEST_SLOTS);
        Ok(Overlay {
            room,
            writes,
            slots,
            most_slots,
            sieve: [SHUT; SIEVE_WORDS],
        })
    }

    /// The word planned for a place, or else the region's. Takes no memory.
    pub fn load(&self, ram: &Ram, at: u64) -> u64
        requires { at < length ram.now }
        ensures { result ≡ through self.now.writes (region ram.now) at }
    {
        let own = ram.load(at);
        if passes(&self.sieve, at) {
            return self.planned_or(at, own);
        }
        own
    }

    // The word planned for a place, or else this one. It stands apart, so that a caller's code has the short way alone.
    #[cold]
    #[inline(never)]
    fn planned_or(&self, at: u64, own: u64) -> u64
        ensures { result ≡ unwrap_or (planned self.now.writes at) own }
    {
        let slot = seek(&self.slots, &self.writes, at);
        let number = self.slots[slot] as usize;
        if number == 0 {
            return own;
        }
        self.writes[number - 1].1
    }

    /// Plans a word for a place. Takes no memory.
    pub fn put(&mut self, at: u64, word: u64)
        requires { (length self.old.writes < self.old.room) ⊎ Names self.old.writes at }
        ensures { self.new ≡ record self.old { writes = with_put self.old.writes at word } }
    {
        let slot = seek(&self.slots, &self.writes, at);
        let number = self.slots[slot] as usize;
        if number != 0 {
            self.writes[number - 1] = (at, word);
            return;
        }
        admit(&mut self.sieve, at);
        let _ = self.writes.push((at, word));
        self.slots[slot] = self.writes.len() as u32;
        if self.slots.len() <= 2 * self.writes.len() {
            let more = (2 * self.slots.len()).min(self.most_slots);
            rebuild(&mut self.slots, more, &self.writes);
        }
    }

    /// Plans nothing any more.
    pub fn clear(&mut self)
        ensures { self.new ≡ record self.old { writes = [] } }
    {
        shut_out(&mut self.sieve, &self.writes);
        self.writes.clear();
        empty(&mut self.slots, FEWEST_SLOTS);
    }

    /// How many more places it can name.
    pub fn spare(&self) -> u64
        ensures { result ≡ self.now.room - length self.now.writes }
    {
        self.room - self.count()
    }

    /// How many places it names.
    pub fn count(&self) -> u64
        ensures count { result ≡ length self.now.writes }
        ensures within { result ≤ self.now.room }
        ensures distinct { HasDistinctPlaces self.now.writes }
    {
        self.writes.len() as u64
    }

    /// The place that was put as the k-th new one, counted from 0, and its last word. Takes no memory.
    pub fn nth(&self, k: u64) -> (u64, u64)
        requires { k < length self.now.writes }
        ensures { slice_get self.now.writes k ≡ Some result }
    {
        self.writes[k as usize]
    }
}
